//! The keys that stand for no character.

ghost use Rattle.std.specs.Prelude.{◌≡◌, ◌≤◌, length};
ghost use Rattle.gate_model.specs.keys.NamedKeys.{arrow_bytes, editing_bytes, function_bytes, named_bytes};

/// The bytes of a key that stands for no character, after the Linux console; none where the key isn't
/// of the table.
pub(crate) fn named_bytes(cursor_mode: bool, keysym: u32) -> &'static [u8]
    ensures exact { result.now ≡ named_bytes cursor_mode keysym }
    ensures few { length result.now ≤ 5 }
{
    match keysym {
        0xff08 => b"\x7f",
        0xff09 => b"\t",
        0xff0d | 0xff8d => b"\r\0",
        0xff1b => b"\x1b",
        _ => arrow_bytes(cursor_mode, keysym),
    }
}

// The bytes of an arrow, which follow the cursor mode, or of a key that isn't one.
fn arrow_bytes(cursor_mode: bool, keysym: u32) -> &'static [u8]
    ensures exact { result.now ≡ arrow_bytes cursor_mode keysym }
    ensures few { length result.now ≤ 5 }
{
    match (keysym, cursor_mode) {
        (0xff52, false) => b"\x1b[A",
        (0xff54, false) => b"\x1b[B",
        (0xff53, false) => b"\x1b[C",
        (0xff51, false) => b"\x1b[D",
        (0xff52, true) => b"\x1bOA",
        (0xff54, true) => b"\x1bOB",
        (0xff53, true) => b"\x1bOC",
        (0xff51, true) => b"\x1bOD",
        _ => function_bytes(keysym),
    }
}

// The bytes of F1 to F12, or of a key that isn't one of them.
fn function_bytes(keysym: u32) -> &'static [u8]
    ensures exact { result.now ≡ function_bytes keysym }
    ensures few { length result.now ≤ 5 }
{
    match keysym {
        0xffbe => b"\x1b[[A",
        0xffbf => b"\x1b[[B",
        0xffc0 => b"\x1b[[C",
        0xffc1 => b"\x1b[[D",
        0xffc2 => b"\x1b[[E",
        0xffc3 => b"\x1b[17~",
        0xffc4 => b"\x1b[18~",
        0xffc5 => b"\x1b[19~",
        0xffc6 => b"\x1b[20~",
        0xffc7 => b"\x1b[21~",
        0xffc8 => b"\x1b[23~",
        0xffc9 => b"\x1b[24~",
        _ => editing_bytes(keysym),
    }
}

// The bytes of Home, Insert, Delete, End, Page_Up and Page_Down; none of any other key.
fn editing_bytes(keysym: u32) -> &'static [u8]
    ensures exact { result.now ≡ editing_bytes keysym }
    ensures few { length result.now ≤ 5 }
{
    match keysym {
        0xff50 => b"\x1b[1~",
        0xff63 => b"\x1b[2~",
        0xffff => b"\x1b[3~",
        0xff57 => b"\x1b[4~",
        0xff55 => b"\x1b[5~",
        0xff56 => b"\x1b[6~",
        _ => b"",
    }
}
