//! One response into a sink.

ghost use Rattle.std.specs.Prelude.{◌≡◌, ◌≤◌, ◌++◌, [], IfOk, IfErr, Err, OnOk, length, unwrap_or};
ghost use Rattle.gate_outside.specs.Edge.{CountsFault, GainedFront, gained};
ghost use Rattle.http.specs.StatusCode.{reason_phrase};
ghost use Rattle.http_front.specs.Responses.{code_line, code_lines, fixed_lines, length_lines, reason_of, response_head, response_text, status_line};

use crate::{ReplyFault, Response};
use gate_outside::{Failed, Sink, write_all};
use http::StatusCode;
use itoa::Buffer;
use std::alloc::{AllocError, Global};

// The phrase that the library has for a status, if any.
fn phrase(status: StatusCode) -> &'static str
    ensures { result.now ≡ unwrap_or (reason_phrase status) [] }
{
    match status.canonical_reason() {
        Some(phrase) => phrase,
        None => "",
    }
}

// The reason that goes with a status; a number that has none has the empty reason.
fn reason_of(status: u16) -> &'static str
    ensures { result.now ≡ reason_of status }
{
    match StatusCode::from_u16(status) {
        Ok(status) => phrase(status),
        Err(_) => "",
    }
}

// Appends three texts.
fn put(text: &mut Vec<u8>, first: &[u8], second: &[u8], third: &[u8]) -> Result<(), AllocError>
    ensures { OnOk result (text.new.items ≡ text.old.items ++ (first.now ++ (second.now ++ third.now))) }
{
    text.extend_from_slice(first)?;
    text.extend_from_slice(second)?;
    text.extend_from_slice(third)
}

#[tactic(auto, unfolding(crate::specs::Responses::status_line))]
fn put_status(text: &mut Vec<u8>, status: u16, reason: &[u8]) -> Result<(), AllocError>
    ensures { OnOk result (text.new.items ≡ text.old.items ++ status_line status reason.now) }
{
    put(
        text,
        b"HTTP/1.1 ",
        Buffer::new().format(status).as_bytes(),
        b" ",
    )?;
    put(text, reason, b"\r\n", b"")
}

#[tactic(auto, unfolding(crate::specs::Responses::fixed_lines))]
fn put_fixed(text: &mut Vec<u8>) -> Result<(), AllocError>
    ensures { OnOk result (text.new.items ≡ text.old.items ++ fixed_lines) }
{
    text.extend_from_slice(
        b"Content-Type: text/plain\r\nCache-Control: no-cache\r\nConnection: close\r\n",
    )
}

#[tactic(auto, unfolding(crate::specs::Responses::code_line))]
fn put_code(text: &mut Vec<u8>, code: u16) -> Result<(), AllocError>
    ensures { OnOk result (text.new.items ≡ text.old.items ++ code_line code) }
{
    put(
        text,
        b"Guacamole-Status-Code: ",
        Buffer::new().format(code).as_bytes(),
        b"\r\n",
    )
}

fn put_codes(text: &mut Vec<u8>, code: u16) -> Result<(), AllocError>
    ensures { OnOk result (text.new.items ≡ text.old.items ++ code_lines code) }
{
    if code == 0 {
        Ok(())
    } else {
        put_code(text, code)
    }
}

#[tactic(auto, unfolding(crate::specs::Responses::length_lines))]
fn put_length(text: &mut Vec<u8>, size: usize) -> Result<(), AllocError>
    ensures { OnOk result (text.new.items ≡ text.old.items ++ length_lines size) }
{
    put(
        text,
        b"Content-Length: ",
        Buffer::new().format(size).as_bytes(),
        b"\r\n\r\n",
    )
}

// The head of a response with a body of so many bytes.
fn head_of(alloc: Global, status: u16, code: u16, size: usize) -> Result<Vec<u8>, AllocError>
    ensures { IfOk result (λ head. head.items ≡ response_head status code size) }
{
    let mut head = Vec::with_capacity(alloc, 256)?;
    put_status(&mut head, status, reason_of(status).as_bytes())?;
    put_fixed(&mut head)?;
    put_codes(&mut head, code)?;
    put_length(&mut head, size)?;
    Ok(head)
}

/// Writes the response whole (RFC 9112): the head with the reason of its status, the line of its Guacamole status
/// where that isn't 0, and the body. WriteFault comes only where the sink's count of faults rose in this call; a
/// front of the text was written then. For want of memory nothing was.
pub fn write_response<K: Sink>(
    alloc: Global,
    sink: &mut K,
    response: &Response,
) -> Result<(), ReplyFault>
    ensures ok { OnOk result (K.written sink.new ≡ gained (K.written sink.old) (response_text response.now)) }
    ensures part { IfErr result (λ fault. fault ≡ ReplyFault.WriteFault → GainedFront (K.written sink.old) (K.written sink.new) (response_text response.now)) }
    ensures nothing { IfErr result (λ fault. fault ≡ ReplyFault.NoMemory → K.written sink.new ≡ K.written sink.old) }
    ensures faults { CountsFault (result ≡ Err ReplyFault.WriteFault) (K.faults sink.old) (K.faults sink.new) }
{
    let body = response.body.as_slice();
    let mut text = head_of(alloc, response.status, response.code, body.len())?;
    text.extend_from_slice(body)?;
    match write_all(sink, text.as_slice()) {
        Ok(()) => Ok(()),
        Err(Failed) => Err(ReplyFault::WriteFault),
    }
}
