//! Requests that are read, and responses that are written.

use anyhow::{Context, Result};
use gate_model::Bytes;
use gate_outside::{MemSink, MemSource};
use http_front::{Incoming, ReplyFault, Response, read_request, write_response};
use std::alloc::Global;
use std::str;
use try_words::{bytes_of, push_escaped};

// The room of a sink.
const ROOM: usize = 4096;

/// What comes of bytes: the method, the target and the body, or how reading ended. Before the bytes stand how
/// many a read gives at most, and the number of the read that fails, 0 for none.
pub fn request(alloc: Global, input: &str) -> Result<String> {
    let mut source = source_of(alloc, input)?;
    let mut room = Vec::new(alloc);
    let incoming = read_request(alloc, &mut source, &mut room);
    told(alloc, &incoming)
}

fn source_of(alloc: Global, input: &str) -> Result<MemSource> {
    let (piece, rest) = input.split_once(' ').context("no piece")?;
    let (read, bytes) = rest.split_once(' ').unwrap_or((rest, ""));
    let piece = piece.parse::<usize>()?.max(1);
    let fail = [read.parse::<u64>()?].to_vec(alloc)?;
    Ok(MemSource::new(bytes_of(alloc, bytes)?, piece, fail))
}

fn told(alloc: Global, incoming: &Incoming<'_>) -> Result<String> {
    let mut text = String::new(alloc);
    match incoming {
        Incoming::Whole(request) => {
            write!(text, "{} {} [", request.method.as_str(), request.target)?;
            push_escaped(&mut text, request.body)?;
            text.push(']')?;
        }
        Incoming::Refused(status) => write!(text, "refused {status}")?,
        Incoming::Ended => text.push_str("ended")?,
        Incoming::ReadFault => text.push_str("read fault")?,
        Incoming::NoMemory => text.push_str("no memory")?,
    }
    Ok(text)
}

/// The text of a response, or of it what was written before a fault. Its words are the number of the write that
/// fails, 0 for none, the status, the Guacamole status and the body.
pub fn response(alloc: Global, input: &str) -> Result<String> {
    let (write, rest) = input.split_once(' ').context("no write")?;
    let response = response_of(alloc, rest)?;
    let mut sink = sink_of(alloc, write)?;
    let written = write_response(alloc, &mut sink, &response);
    let mut text = String::new(alloc);
    match written {
        Ok(()) => {}
        Err(ReplyFault::WriteFault) => text.push_str("write fault:")?,
        Err(ReplyFault::NoMemory) => text.push_str("no memory:")?,
    }
    text.push_str(str::from_utf8(sink.written())?)?;
    Ok(text)
}

fn response_of(alloc: Global, input: &str) -> Result<Response> {
    let (status, rest) = input.split_once(' ').context("no status")?;
    let (code, body) = rest.split_once(' ').unwrap_or((rest, ""));
    let status = status.parse::<u16>()?;
    let code = code.parse::<u16>()?;
    let body = Bytes::of(bytes_of(alloc, body)?);
    Ok(Response { status, code, body })
}

// A sink whose write of this number fails.
fn sink_of(alloc: Global, write: &str) -> Result<MemSink> {
    let fail = [write.parse::<u64>()?].to_vec(alloc)?;
    MemSink::new(alloc, ROOM, 50, fail)
        .ok()
        .context("no memory")
}
