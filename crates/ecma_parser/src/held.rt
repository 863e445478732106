ghost use Rattle.std.specs.Prelude.{◌≡◌, ◌++◌, ◌∷◌, [], None, IsTrue, ◌↔◌};
ghost use Rattle.ecma_parser.specs.Waiting.{IsWaiting};

/// The first bytes of a character that isn't whole yet, at most three.
#[derive(Clone, Copy, Debug, PartialEq, Eq)]
pub struct Held {
    bytes: [u8; 4],
    count: usize,
    ghost waiting: { IsWaiting bytes count },
}

impl Held {
    ghost use Rattle.ecma_parser.specs.Held.{held_bytes, GivesCharacters};

    /// No byte is held.
    pub fn new() -> Held
        ensures { held_bytes result ≡ [] }
    {
        Held {
            bytes: [0; 4],
            count: 0,
        }
    }

    pub fn is_empty(&self) -> bool
        ensures { IsTrue result ↔ (held_bytes self.now ≡ []) }
    {
        self.count == 0
    }

    // Reads a byte where none is held. It is a character by itself, or is held.
    fn begin(&mut self, byte: u8) -> Option<char>
        ensures { GivesCharacters (byte ∷ []) result None self.new }
    {
        match byte {
            0..=0x7F => {
                self.count = 0;
                Some(byte as char)
            }
            0xC2..=0xF4 => {
                self.bytes[0] = byte;
                self.count = 1;
                None
            }
            _ => {
                self.count = 0;
                Some(char::REPLACEMENT_CHARACTER)
            }
        }
    }

    /// Reads one more byte, and gives the characters that it completes.
    pub fn push(&mut self, byte: u8) -> (Option<char>, Option<char>)
        ensures { GivesCharacters (held_bytes self.old ++ byte ∷ []) result.0 result.1 self.new }
    {
        if self.count == 0 {
            return (self.begin(byte), None);
        }
        let count = self.count + 1;
        self.bytes[self.count] = byte;
        let (found, size) = bstr::decode_utf8(&self.bytes[..count]);
        match found {
            Some(c) => {
                self.count = 0;
                (Some(c), None)
            }
            None if size == count => {
                self.count = count;
                (None, None)
            }
            // The held bytes begin no character that this byte goes on: they are one U+FFFD.
            None => {
                self.count = 0;
                (Some(char::REPLACEMENT_CHARACTER), self.begin(byte))
            }
        }
    }
}
