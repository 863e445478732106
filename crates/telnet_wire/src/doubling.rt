ghost use Rattle.std.specs.Prelude.{◌≡◌, ◌++◌, OnOk, OnErr};
ghost use Rattle.gate_model.specs.Sequences.{BeginsWith};
ghost use Rattle.gate_model.specs.telnet.TelnetTokens.{doubled};

use gate_model::NoMemory;
use gate_model::telnet_codes::IAC;

/// Appends the bytes with each 255 doubled, as data is sent to a Telnet peer (RFC 854, "TELNET COMMANDS"). Refused
/// for want of memory, it leaves the buffer as it was.
pub fn escape(bytes: &[u8], into: &mut Vec<u8>) -> Result<(), NoMemory>
    ensures appended { OnOk result (into.new.items ≡ into.old.items ++ doubled bytes.now) }
    ensures unchanged { OnErr result (into.new.items ≡ into.old.items) }
{
    let before = into.len();
    let put = put_doubled(bytes, into);
    if put.is_err() {
        into.truncate(before);
    }
    put
}

// Appends the bytes with each 255 doubled. Refused, it may have appended a front of them.
fn put_doubled(bytes: &[u8], into: &mut Vec<u8>) -> Result<(), NoMemory>
    ensures appended { OnOk result (into.new.items ≡ into.old.items ++ doubled bytes.now) }
    ensures front { BeginsWith into.new.items into.old.items }
{
    // Few bytes are 255.
    into.reserve(bytes.len())?;
    for byte in bytes {
        into.push(*byte)?;
        if *byte == IAC {
            into.push(IAC)?;
        }
    }
    Ok(())
}
