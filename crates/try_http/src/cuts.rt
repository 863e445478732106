//! Requests that are cut.

use crate::exchange::exchange;
use crate::steps::begun;
use anyhow::{Context, Result, bail};
use std::alloc::Global;
use std::sync::Wait;
use std::thread::Threads;
use try_words::bytes_of;

/// The status and the code of a request, however it is cut into pieces of the same size, and how many of its fronts,
/// the empty one among them, are answered by nothing. Before the request stands what is there at the start of each
/// try, as in the rows of steps.
pub fn cuts<R: Threads + Wait + Copy + Send + 'static>(
    rt: &R,
    alloc: Global,
    input: &str,
) -> Result<String> {
    let (start, request) = input.split_once(" | ").context("no request")?;
    let bytes = bytes_of(alloc, request)?;
    let whole = answer(rt, alloc, start, &bytes, bytes.len())?;
    for piece in 1..bytes.len() {
        let cut = answer(rt, alloc, start, &bytes, piece)?;
        if cut != whole {
            bail!("another answer in pieces of {piece}");
        }
    }
    let none = fronts_unanswered(rt, alloc, start, &bytes)?;
    Ok(match whole {
        Some((status, code)) => format!(in alloc; "{status} {code}, {none} fronts unanswered")?,
        None => format!(in alloc; "nothing, {none} fronts unanswered")?,
    })
}

fn fronts_unanswered<R: Threads + Wait + Copy + Send + 'static>(
    rt: &R,
    alloc: Global,
    start: &str,
    bytes: &[u8],
) -> Result<u64> {
    let mut none = 0u64;
    for end in 0..bytes.len() {
        let (front, _) = bytes.split_at(end);
        if answer(rt, alloc, start, front, bytes.len())?.is_none() {
            none = none.saturating_add(1);
        }
    }
    Ok(none)
}

fn answer<R: Threads + Wait + Copy + Send + 'static>(
    rt: &R,
    alloc: Global,
    start: &str,
    bytes: &[u8],
    piece: usize,
) -> Result<Option<(u16, u16)>> {
    let mut service = begun(rt, alloc, start)?;
    let answered = exchange(rt, alloc, &mut service, bytes, piece)?;
    Ok(answered.map(|answered| (answered.response.status, answered.response.code)))
}
