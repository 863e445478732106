//! What alone may be dialed.

ghost use Rattle.std.specs.Prelude.{◌≡◌, Err, IfOk, None, Some, map, option_map};
ghost use Rattle.serve_options.specs.Values.{addresses_of, allowed_of};
ghost use Rattle.serve_options.specs.declared.options.WordsFault.TheVariants.{Usage as usage};

use crate::WordsFault;
use crate::values::address_of;
use gate_model::Text;
use std::alloc::Global;
use std::marker::Model;

/// Hosts and their ports, in the order in which the words name them. Contracts see the list.
#[derive(Drop)]
pub struct Allowed {
    held: Vec<(Text, u16)>,
}

impl Model for Allowed {
    ghost use Rattle.std.specs.Prelude.{List};
    ghost use Rattle.serve_options.specs.Values.{Address};

    ghost Value = { List Address };

    ghost view = { λ s. s.held.items };
}

impl Allowed {
    /// The hosts and their ports.
    pub fn as_slice(&self) -> &[(Text, u16)]
        ensures { result.now ≡ self.now }
    {
        &self.held
    }
}

/// What the texts of an option let be dialed, where it is given.
pub(crate) fn allowed_in(
    alloc: Global,
    texts: Option<&[&str]>,
) -> Result<Option<Allowed>, WordsFault>
    ensures given { IfOk result (λ allowed. allowed_of (option_map (λ l. map (λ s. s.now) l.now) texts.entry) ≡ Some allowed) }
    ensures usage { result ≡ Err usage → allowed_of (option_map (λ l. map (λ s. s.now) l.now) texts.entry) ≡ None }
{
    match texts {
        Some(texts) => Ok(Some(addresses_of(alloc, texts)?)),
        None => Ok(None),
    }
}

// The hosts and the ports of the texts.
fn addresses_of(alloc: Global, texts: &[&str]) -> Result<Allowed, WordsFault>
    ensures given { IfOk result (λ allowed. addresses_of (map (λ s. s.now) texts.now) ≡ Some allowed) }
    ensures usage { result ≡ Err usage → addresses_of (map (λ s. s.now) texts.now) ≡ None }
{
    let mut held = Vec::with_capacity(alloc, texts.len())?;
    for text in texts {
        let Some((host, port)) = address_of(text) else {
            return Err(WordsFault::Usage);
        };
        let host = Text::of(String::from_str(alloc, host)?);
        if held.push((host, port)).is_err() {
            return Err(WordsFault::NoMemory);
        }
    }
    Ok(Allowed { held })
}
