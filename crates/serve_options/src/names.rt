//! The names by which the page may be asked for.

ghost use Rattle.std.specs.Prelude.{◌≡◌, Err, IfOk, None, Some, map, option_map};
ghost use Rattle.std.specs.List.{list_all};
ghost use Rattle.serve_options.specs.Values.{is_name, is_name_sign, names_of, page_of};
ghost use Rattle.serve_options.specs.declared.options.WordsFault.TheVariants.{Usage as usage};

use crate::WordsFault;
use gate_model::Text;
use std::alloc::Global;
use std::marker::Model;

/// Names of this machine, in the order in which the words give them. Contracts see the list.
#[derive(Drop)]
pub struct Names {
    held: Vec<Text>,
}

impl Model for Names {
    ghost use Rattle.std.specs.Prelude.{ℕ, List};

    ghost Value = { List (List ℕ) };

    ghost view = { λ s. s.held.items };
}

impl Names {
    /// The names.
    pub fn as_slice(&self) -> &[Text]
        ensures { result.now ≡ self.now }
    {
        &self.held
    }
}

/// The names by which the page may be asked for, where it is wanted.
pub(crate) fn page_in(
    alloc: Global,
    page: bool,
    names: Option<&[&str]>,
) -> Result<Option<Names>, WordsFault>
    ensures given { IfOk result (λ names_in. page_of page (option_map (λ l. map (λ s. s.now) l.now) names.entry) ≡ Some names_in) }
    ensures usage { result ≡ Err usage → page_of page (option_map (λ l. map (λ s. s.now) l.now) names.entry) ≡ None }
{
    match names {
        Some(_) if !page => Err(WordsFault::Usage),
        Some(names) => Ok(Some(names_of(alloc, names)?)),
        None if page => Ok(Some(Names {
            held: Vec::new(alloc),
        })),
        None => Ok(None),
    }
}

// The names of the texts.
fn names_of(alloc: Global, texts: &[&str]) -> Result<Names, WordsFault>
    ensures given { IfOk result (λ names. names_of (map (λ s. s.now) texts.now) ≡ Some names) }
    ensures usage { result ≡ Err usage → names_of (map (λ s. s.now) texts.now) ≡ None }
{
    let mut held = Vec::with_capacity(alloc, texts.len())?;
    for text in texts {
        if !is_name(text) {
            return Err(WordsFault::Usage);
        }
        let name = Text::of(String::from_str(alloc, text)?);
        if held.push(name).is_err() {
            return Err(WordsFault::NoMemory);
        }
    }
    Ok(Names { held })
}

/// Whether a text is a name: 1 to 253 letters, digits, hyphens, dots and underscores.
pub(crate) fn is_name(text: &str) -> bool
    ensures { result ≡ is_name text.now }
{
    (1..=253).contains(&text.len()) && all_signs(text.as_bytes())
}

// Whether each byte may stand in a name.
fn all_signs(bytes: &[u8]) -> bool
    ensures { result ≡ list_all is_name_sign bytes.now }
{
    bytes.iter().all(|byte| is_name_sign(*byte))
}

// Whether a byte may stand in a name.
fn is_name_sign(byte: u8) -> bool
    ensures { result ≡ is_name_sign byte }
{
    byte.is_ascii_alphanumeric() || byte == b'-' || byte == b'.' || byte == b'_'
}
