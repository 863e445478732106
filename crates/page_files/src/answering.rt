//! The answer that has a file.

ghost use Rattle.std.specs.Prelude.{◌≡◌, ◌++◌, Err, IfErr, OnOk};
ghost use Rattle.gate_outside.specs.Edge.{CountsFault, GainedFront, gained};
ghost use Rattle.http_front.specs.declared.response.ReplyFault.TheVariants as faults;
ghost use Rattle.page_files.specs.Answers.{answer_text, fixed_lines, kind_line, length_lines, status_line};

use crate::PageFile;
use gate_outside::{Failed, Sink, write_all};
use http_front::ReplyFault;
use itoa::Buffer;
use std::alloc::{AllocError, Global};

/// Writes the answer that has the file (RFC 9112). WriteFault comes only where the sink's count of faults rose in this
/// call; a front of the text was written then. For want of memory nothing was.
pub fn answer<K: Sink>(alloc: Global, sink: &mut K, file: &PageFile) -> Result<(), ReplyFault>
    ensures ok { OnOk result (K.written sink.new ≡ gained (K.written sink.old) (answer_text file.now)) }
    ensures part { IfErr result (λ fault. fault ≡ faults.WriteFault → GainedFront (K.written sink.old) (K.written sink.new) (answer_text file.now)) }
    ensures nothing { IfErr result (λ fault. fault ≡ faults.NoMemory → K.written sink.new ≡ K.written sink.old) }
    ensures faults { CountsFault (result ≡ Err faults.WriteFault) (K.faults sink.old) (K.faults sink.new) }
{
    let mut text = Vec::with_capacity(alloc, 512)?;
    put_fixed(&mut text)?;
    put_kind(&mut text, file.kind.as_bytes())?;
    put_length(&mut text, file.body.len())?;
    text.extend_from_slice(file.body.as_bytes())?;
    match write_all(sink, text.as_slice()) {
        Ok(()) => Ok(()),
        Err(Failed) => Err(ReplyFault::WriteFault),
    }
}

// What each answer says of itself.
const FIXED: &[u8] =
    b"HTTP/1.1 200 OK\r\nContent-Security-Policy: default-src 'self'; img-src 'self' data:; frame-ancestors 'none'\r\nX-Content-Type-Options: nosniff\r\nX-Frame-Options: DENY\r\nReferrer-Policy: no-referrer\r\nCache-Control: no-cache\r\nConnection: close\r\n";

#[tactic(auto, unfolding(crate::specs::Answers::status_line, crate::specs::Answers::fixed_lines))]
fn put_fixed(text: &mut Vec<u8>) -> Result<(), AllocError>
    ensures { OnOk result (text.new.items ≡ text.old.items ++ (status_line ++ fixed_lines)) }
{
    text.extend_from_slice(FIXED)
}

#[tactic(auto, unfolding(crate::specs::Answers::kind_line))]
fn put_kind(text: &mut Vec<u8>, kind: &[u8]) -> Result<(), AllocError>
    ensures { OnOk result (text.new.items ≡ text.old.items ++ kind_line kind.now) }
{
    put(text, b"Content-Type: ", kind, b"\r\n")
}

#[tactic(auto, unfolding(crate::specs::Answers::length_lines))]
fn put_length(text: &mut Vec<u8>, size: usize) -> Result<(), AllocError>
    ensures { OnOk result (text.new.items ≡ text.old.items ++ length_lines size) }
{
    put(
        text,
        b"Content-Length: ",
        Buffer::new().format(size).as_bytes(),
        b"\r\n\r\n",
    )
}

// Appends three texts.
fn put(text: &mut Vec<u8>, first: &[u8], second: &[u8], third: &[u8]) -> Result<(), AllocError>
    ensures { OnOk result (text.new.items ≡ text.old.items ++ (first.now ++ (second.now ++ third.now))) }
{
    text.extend_from_slice(first)?;
    text.extend_from_slice(second)?;
    text.extend_from_slice(third)
}
