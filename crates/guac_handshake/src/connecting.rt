//! The values of `connect`.

ghost use Rattle.std.specs.Prelude.{◌≡◌, ◌≤◌, drop, IfOk, length, true};
ghost use Rattle.gate_model.specs.session.Steps.{is_mark};
ghost use Rattle.std.specs.List.{list_all};
ghost use Rattle.std.specs.Option.{option_map};
ghost use Rattle.guac_handshake.specs.Asks.{ask_of, beginning, is_read_only, is_term, joining, mode_of, port_of, role_asked, term_of};

use crate::Ask;
use crate::sizes::{columns_of, rows_of};
use gate_model::{Asked, NoMemory, Share, Text};
use guac_framing::Frame;
use numerals::number_within;
use std::alloc::Global;

/// The most characters of a terminal type (this project's own rule).
const MOST_TERM: usize = 40;

/// What `connect` asks of a session that is to begin, or None where a value is out of form or the number of
/// values isn't that of the parameters.
pub(crate) fn read_begin(
    alloc: Global,
    frame: &Frame<'_>,
    size: Option<(u32, u32)>,
) -> Result<Option<Ask>, NoMemory>
    ensures { IfOk result (λ asked. asked ≡ beginning (drop 1 frame.now) size) }
{
    if frame.count() != 7 {
        return Ok(None);
    }
    read_ask(
        alloc,
        frame.element(2),
        frame.element(3),
        frame.element(4),
        frame.element(5),
        frame.element(6),
        size,
    )
}

/// What these values ask of a session that is to begin, or None where one is out of form.
pub(crate) fn read_ask(
    alloc: Global,
    host: &str,
    port: &str,
    term: &str,
    read_only: &str,
    sharing: &str,
    size: Option<(u32, u32)>,
) -> Result<Option<Ask>, NoMemory>
    ensures { IfOk result (λ ask. ask ≡ ask_of host.now (port_of port.now) (term_of term.now) (mode_of sharing.now) (is_read_only read_only.now) size) }
{
    let (Some(port), Some(term), Some(mode)) = (
        read_port(port),
        read_term(term),
        read_mode(sharing),
    ) else {
        return Ok(None);
    };
    Ok(Some(Ask {
        host: owned(alloc, host)?,
        port,
        term: owned(alloc, term)?,
        mode,
        read_only: read_flag(read_only),
        cols: columns_of(size),
        rows: rows_of(size),
    }))
}

/// What `connect` asks of a session that is there, or None where the number of values isn't that of the
/// parameters.
pub(crate) fn read_join(frame: &Frame<'_>) -> Option<Asked>
    ensures { result ≡ joining (drop 1 frame.now) }
{
    if frame.count() != 3 {
        return None;
    }
    if read_flag(frame.element(2)) {
        Some(Asked::View)
    } else {
        Some(Asked::Control)
    }
}

/// A text of these characters.
pub(crate) fn owned(alloc: Global, value: &str) -> Result<Text, NoMemory>
    ensures { IfOk result (λ text. text ≡ value.now) }
{
    Ok(Text::of(String::from_str(alloc, value)?))
}

fn read_flag(value: &str) -> bool
    ensures { result ≡ is_read_only value.now }
{
    value == "true"
}

fn read_mode(value: &str) -> Option<Share>
    ensures { result ≡ mode_of value.now }
{
    match value {
        "" | "none" => Some(Share::Nobody),
        "view" => Some(Share::View),
        "control" => Some(Share::Control),
        _ => None,
    }
}

fn read_term(value: &str) -> Option<&str>
    ensures { option_map (λ term. term.now) result ≡ term_of value.now }
{
    if value.is_empty() {
        Some("linux")
    } else if is_term(value) {
        Some(value)
    } else {
        None
    }
}

fn is_term(value: &str) -> bool
    ensures { result ≡ is_term value.now }
{
    value.len() <= MOST_TERM && all_visible(value.as_bytes())
}

// Whether each byte is a visible character of ASCII.
fn all_visible(bytes: &[u8]) -> bool
    ensures { result ≡ list_all is_mark bytes.now }
{
    bytes.iter().all(|byte| (0x21..=0x7E).contains(byte))
}

fn read_port(value: &str) -> Option<u16>
    ensures { result ≡ port_of value.now }
{
    if value.is_empty() {
        Some(23)
    } else {
        let port = number_within(value.as_bytes(), 1, 65535)?;
        Some(port as u16)
    }
}
