//! The text of the instructions that the gateway sends.

ghost use Rattle.std.specs.Prelude.{◌≡◌, ◌++◌, OnOk, OnErr};
ghost use Rattle.std.specs.Str.{chars};
ghost use Rattle.gate_model.specs.Sequences.{BeginsWith};
ghost use Rattle.gate_model.specs.text.Text.{refusal_text, text, texts};
ghost use Rattle.gate_model.specs.declared.instr.Instr.{Instr};

use crate::constants::{OPAQUE, OVER};
use crate::part::{Part, put_parts};
use gate_model::{Instr, NoMemory, statuses};

/// Appends the text of the instruction (the Guacamole manual, "Guacamole protocol reference"). Refused
/// for want of memory, it leaves the buffer as it was.
pub fn text_of(instr: &Instr, into: &mut Vec<u8>) -> Result<(), NoMemory>
    ensures appended { OnOk result (into.new.items ≡ into.old.items ++ text instr.now) }
    ensures unchanged { OnErr result (into.new.items ≡ into.old.items) }
{
    let before = into.len();
    let put = put_instr(instr, into);
    if put.is_err() {
        into.truncate(before);
    }
    put
}

/// Appends the texts of the instructions, one after the other. Refused for want of memory, it leaves the
/// buffer as it was.
pub fn texts_of(instrs: &[Instr], into: &mut Vec<u8>) -> Result<(), NoMemory>
    ensures appended { OnOk result (into.new.items ≡ into.old.items ++ texts instrs.now) }
    ensures unchanged { OnErr result (into.new.items ≡ into.old.items) }
{
    let before = into.len();
    for instr in instrs {
        if text_of(instr, into).is_err() {
            into.truncate(before);
            return Err(NoMemory);
        }
    }
    Ok(())
}

// Appends the text of the instruction. Refused, it may have appended a front of it.
fn put_instr(instr: &Instr, into: &mut Vec<u8>) -> Result<(), NoMemory>
    ensures appended { OnOk result (into.new.items ≡ into.old.items ++ text instr.now) }
    ensures front { BeginsWith into.new.items into.old.items }
{
    match *instr {
        Instr::Size {
            layer,
            width,
            height,
        } => put_size(into, layer, width, height),
        Instr::Rect {
            layer,
            x,
            y,
            width,
            height,
        } => put_rect(into, layer, x, y, width, height),
        Instr::Cfill {
            layer,
            red,
            green,
            blue,
        } => put_cfill(into, layer, red, green, blue),
        Instr::Copy {
            from,
            x,
            y,
            width,
            height,
            to,
            to_x,
            to_y,
        } => put_copy(into, from, x, y, width, height, to, to_x, to_y),
        Instr::Sync { stamp } => put_parts(into, "sync", &[Part::Number(stamp)]),
        Instr::Disconnect => put_parts(into, "disconnect", &[]),
        Instr::Error { status } => {
            let status_number = Part::Number(u64::from(status));
            put_parts(
                into,
                "error",
                &[Part::Word(message_of(status)), status_number],
            )
        }
    }
}

// The text of a refusal.
#[tactic(auto, using(crate::proofs::Words::messages))]
fn message_of(status: u16) -> &'static str
    ensures { chars result.now ≡ refusal_text status }
{
    match status {
        statuses::NO_MEMORY => "no memory",
        statuses::SERVER_BUSY => "server busy",
        statuses::NOT_FOUND => "resource not found",
        statuses::CONFLICT => "resource conflict",
        statuses::UPSTREAM_NOT_FOUND => "upstream not found",
        statuses::SESSION_CLOSED => "session closed",
        statuses::BAD_REQUEST => "bad request",
        statuses::FORBIDDEN => "forbidden",
        statuses::TOO_MANY => "too many",
        _ => "",
    }
}

fn put_size(into: &mut Vec<u8>, layer: i32, width: u32, height: u32) -> Result<(), NoMemory>
    ensures appended { OnOk result (into.new.items ≡ into.old.items ++ text (Instr.Size layer width height)) }
    ensures front { BeginsWith into.new.items into.old.items }
{
    let parts = [
        Part::Layer(layer),
        Part::Number(u64::from(width)),
        Part::Number(u64::from(height)),
    ];
    put_parts(into, "size", &parts)
}

fn put_rect(
    into: &mut Vec<u8>,
    layer: i32,
    x: u32,
    y: u32,
    width: u32,
    height: u32,
) -> Result<(), NoMemory>
    ensures appended { OnOk result (into.new.items ≡ into.old.items ++ text (Instr.Rect layer x y width height)) }
    ensures front { BeginsWith into.new.items into.old.items }
{
    let parts = [
        Part::Layer(layer),
        Part::Number(u64::from(x)),
        Part::Number(u64::from(y)),
        Part::Number(u64::from(width)),
        Part::Number(u64::from(height)),
    ];
    put_parts(into, "rect", &parts)
}

fn put_cfill(into: &mut Vec<u8>, layer: i32, red: u8, green: u8, blue: u8) -> Result<(), NoMemory>
    ensures appended { OnOk result (into.new.items ≡ into.old.items ++ text (Instr.Cfill layer red green blue)) }
    ensures front { BeginsWith into.new.items into.old.items }
{
    let parts = [
        Part::Number(OVER),
        Part::Layer(layer),
        Part::Number(u64::from(red)),
        Part::Number(u64::from(green)),
        Part::Number(u64::from(blue)),
        Part::Number(OPAQUE),
    ];
    put_parts(into, "cfill", &parts)
}

fn put_copy(
    into: &mut Vec<u8>,
    from: i32,
    x: u32,
    y: u32,
    width: u32,
    height: u32,
    to: i32,
    to_x: u32,
    to_y: u32,
) -> Result<(), NoMemory>
    ensures appended { OnOk result (into.new.items ≡ into.old.items ++ text (Instr.Copy from x y width height to to_x to_y)) }
    ensures front { BeginsWith into.new.items into.old.items }
{
    let parts = [
        Part::Layer(from),
        Part::Number(u64::from(x)),
        Part::Number(u64::from(y)),
        Part::Number(u64::from(width)),
        Part::Number(u64::from(height)),
        Part::Number(OVER),
        Part::Layer(to),
        Part::Number(u64::from(to_x)),
        Part::Number(u64::from(to_y)),
    ];
    put_parts(into, "copy", &parts)
}
