//! Writes the answers. A writer that is refused for want of memory may have appended a front of its answer.

ghost use Rattle.std.specs.Prelude.{◌≡◌, ◌++◌, OnOk};
ghost use Rattle.gate_model.specs.Sequences.{BeginsWith};
ghost use Rattle.gate_model.specs.telnet.OptionAnswers.{reply, size_text, terminal_text};
ghost use Rattle.gate_model.specs.telnet.TelnetTokens.{sent_byte};

use crate::codes::{IS, TERMINAL_TYPE, WINDOW_SIZE};
use gate_model::NoMemory;
use gate_model::telnet_codes::{IAC, SB, SE};

/// Appends IAC, the verb and the option.
pub fn put_reply(into: &mut Vec<u8>, verb: u8, option: u8) -> Result<(), NoMemory>
    ensures appended { OnOk result (into.new.items ≡ into.old.items ++ reply verb option) }
    ensures front { BeginsWith into.new.items into.old.items }
{
    into.extend_from_slice(&[IAC, verb, option])?;
    Ok(())
}

// Appends a byte of a subnegotiation, doubled where it is 255.
fn put_byte(into: &mut Vec<u8>, byte: u8) -> Result<(), NoMemory>
    ensures appended { OnOk result (into.new.items ≡ into.old.items ++ sent_byte byte) }
    ensures front { BeginsWith into.new.items into.old.items }
{
    into.push(byte)?;
    if byte == IAC {
        into.push(IAC)?;
    }
    Ok(())
}

/// Appends the subnegotiation of the window size.
pub fn put_size(into: &mut Vec<u8>, cols: u16, rows: u16) -> Result<(), NoMemory>
    ensures appended { OnOk result (into.new.items ≡ into.old.items ++ size_text cols rows) }
    ensures front { BeginsWith into.new.items into.old.items }
{
    into.extend_from_slice(&[IAC, SB, WINDOW_SIZE])?;
    put_byte(into, (cols / 256) as u8)?;
    put_byte(into, (cols % 256) as u8)?;
    put_byte(into, (rows / 256) as u8)?;
    put_byte(into, (rows % 256) as u8)?;
    into.extend_from_slice(&[IAC, SE])?;
    Ok(())
}

/// Appends the subnegotiation of the terminal type.
pub fn put_terminal(into: &mut Vec<u8>, term: &str) -> Result<(), NoMemory>
    ensures appended { OnOk result (into.new.items ≡ into.old.items ++ terminal_text term.now) }
    ensures front { BeginsWith into.new.items into.old.items }
{
    into.extend_from_slice(&[IAC, SB, TERMINAL_TYPE, IS])?;
    into.extend_from_slice(term.as_bytes())?;
    into.extend_from_slice(&[IAC, SE])?;
    Ok(())
}
