ghost use Rattle.std.specs.Prelude.{◌≡◌, ℕ, List, string_bytes};

use std::marker::Model;

/// A text, which contracts see as the list of its bytes of UTF-8.
#[derive(Drop)]
pub struct Text {
    held: String,
}

impl Model for Text {
    ghost Value = { List ℕ };

    ghost view = { λ s. string_bytes s.held };
}

impl Text {
    /// The text of the string.
    pub fn of(value: String) -> Text
        ensures { result ≡ string_bytes value }
    {
        Text { held: value }
    }

    /// The string that holds the text. It takes no memory.
    pub fn into_inner(self) -> String
        ensures { string_bytes result ≡ self }
    {
        self.held
    }

    /// The text, lent.
    pub fn as_str(&self) -> &str
        ensures { result.now ≡ self.now }
    {
        self.held.as_str()
    }
}
