//! What the rows of a file are.

use crate::cuts::cuts;
use crate::requests::{request, response};
use crate::steps::{Shown, answers};
use crate::trials::trials;
use crate::twice::two_reads;
use anyhow::{Result, bail};
use std::alloc::Global;
use std::sync::Wait;
use std::thread::Threads;

/// What a row gives.
pub fn value<R: Threads + Wait + Copy + Send + Sync + 'static>(
    rt: &R,
    alloc: Global,
    topic: &str,
    input: &str,
) -> Result<String> {
    match topic {
        "requests" => request(alloc, input),
        "responses" => response(alloc, input),
        "tunnels" => answers(rt, alloc, input, Shown::Body),
        "statuses" => answers(rt, alloc, input, Shown::Status),
        "exchanges" => answers(rt, alloc, input, Shown::Text),
        "cuts" => cuts(rt, alloc, input),
        "trials" => trials(rt, alloc, input),
        "twice" => two_reads(rt, alloc, input),
        _ => bail!("no such topic"),
    }
}
