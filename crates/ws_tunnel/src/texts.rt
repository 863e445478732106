//! What a viewer is sent beside its reads.

ghost use Rattle.std.specs.Prelude.{◌≡◌, ◌++◌, IfOk};
ghost use Rattle.guac_handshake.specs.Texts.{error_text, ready_text};

use gate_model::{Instr, NoMemory, Text};
use guac_framing::{put_element, put_end};
use guac_instr::text_of;
use std::alloc::Global;

/// The text of `ready` with the ID, and behind it what Join gave.
pub(crate) fn ready(alloc: Global, id: &Text, first: &[u8]) -> Result<Vec<u8>, NoMemory>
    ensures { IfOk result (λ text. text.items ≡ ready_text id.now ++ first.now) }
{
    let mut text = Vec::new(alloc);
    put_element(&mut text, true, "ready")?;
    put_element(&mut text, false, id.as_str())?;
    put_end(&mut text)?;
    text.extend_from_slice(first)?;
    Ok(text)
}

/// The text of `error` with the status.
pub(crate) fn error(alloc: Global, status: u16) -> Result<Vec<u8>, NoMemory>
    ensures { IfOk result (λ text. text.items ≡ error_text status) }
{
    let mut text = Vec::new(alloc);
    text_of(&Instr::Error { status }, &mut text)?;
    Ok(text)
}
