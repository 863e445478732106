//! IDs as clients are told them.

ghost use Rattle.std.specs.Prelude.{◌≡◌, [], IfOk, Some, string_bytes};
ghost use Rattle.guac_handshake.specs.Names.{id_of_name};
ghost use Rattle.uuid.specs.Text.{parsed};

use gate_model::{NoMemory, Text};
use std::alloc::Global;
use uuid::Uuid;

/// The ID that the name gives: `$` and an ID in any form (RFC 9562, section 4).
pub fn id_named(name: &str) -> Option<Uuid>
    ensures { result ≡ id_of_name name.now }
{
    match name.strip_prefix('$') {
        Some(rest) => id_in(rest),
        None => None,
    }
}

fn id_in(text: &str) -> Option<Uuid>
    ensures { result ≡ parsed text.now }
{
    match Uuid::parse_str(text) {
        Ok(id) => Some(id),
        Err(_) => None,
    }
}

/// How many bytes a name has.
pub const NAME_BYTES: usize = 37;

/// The name of the ID: `$` and its form with hyphens, in small letters.
pub fn name_of(alloc: Global, id: Uuid) -> Result<Text, NoMemory>
    ensures { IfOk result (λ name. id_of_name name ≡ Some id) }
{
    name_in(String::new(alloc), id)
}

/// The same, in a string with nothing in it, whose room may have been taken before.
pub fn name_in(room: String, id: Uuid) -> Result<Text, NoMemory>
    requires { string_bytes room ≡ [] }
    ensures { IfOk result (λ name. id_of_name name ≡ Some id) }
{
    let mut buffer = Uuid::encode_buffer();
    let hyphenated = id.hyphenated().encode_lower(&mut buffer);
    let mut name = room;
    name.push('$')?;
    name.push_str(hyphenated)?;
    Ok(Text::of(name))
}
