//! One request on a connection, from its first byte to its response.

use crate::service::Service;
use anyhow::{Context, Result};
use gate_model::Bytes;
use gate_outside::{MemSink, MemSource};
use http_front::{Incoming, Refusal, Response, code_beside, read_request, write_response};
use std::alloc::Global;
use std::sync::Wait;
use std::thread::Threads;

// The room of a connection's sink, which has each response of these rows.
const ROOM: usize = 65_536;

/// A response, and what was written.
#[derive(Drop)]
pub struct Answered {
    pub response: Response,
    pub text: Vec<u8>,
}

/// What comes of the bytes of a connection, of which a read gives so many at most: nothing where they end before
/// a whole request.
pub fn exchange<R: Threads + Wait + Copy + Send + 'static>(
    rt: &R,
    alloc: Global,
    service: &mut Service,
    bytes: &[u8],
    piece: usize,
) -> Result<Option<Answered>> {
    let mut source = source_of(alloc, bytes, piece)?;
    match response_to(rt, alloc, service, &mut source) {
        Some(response) => whole(alloc, response),
        None => Ok(None),
    }
}

fn source_of(alloc: Global, bytes: &[u8], piece: usize) -> Result<MemSource> {
    let bytes = bytes.to_vec(alloc)?;
    let fail = [0].to_vec(alloc)?;
    Ok(MemSource::new(bytes, piece.max(1), fail))
}

fn response_to<R: Threads + Wait + Copy + Send + 'static>(
    rt: &R,
    alloc: Global,
    service: &mut Service,
    source: &mut MemSource,
) -> Option<Response> {
    let mut room = Vec::new(alloc);
    match read_request(alloc, source, &mut room) {
        Incoming::Whole(request) => Some(service.answer(rt, alloc, &request)),
        Incoming::Refused(status) => Some(refusal(alloc, status)),
        Incoming::NoMemory => Some(Response::of(alloc, Err(Refusal::NoMemory))),
        Incoming::Ended | Incoming::ReadFault => None,
    }
}

fn whole(alloc: Global, response: Response) -> Result<Option<Answered>> {
    let text = written(alloc, &response)?;
    Ok(Some(Answered { response, text }))
}

fn refusal(alloc: Global, status: u16) -> Response {
    Response {
        status,
        code: code_beside(status).unwrap_or(0),
        body: Bytes::of(Vec::new(alloc)),
    }
}

fn written(alloc: Global, response: &Response) -> Result<Vec<u8>> {
    let mut sink = MemSink::new(alloc, ROOM, ROOM, [0].to_vec(alloc)?)
        .ok()
        .context("no memory")?;
    write_response(alloc, &mut sink, response)
        .ok()
        .context("not written")?;
    Ok(sink.written().to_vec(alloc)?)
}
