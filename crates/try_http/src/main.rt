//! The program `try_http`: it reads requests, answers them over tunnels in memory and writes responses, on rows
//! that stand in files, and tells which of them give something else than their files say.
//!
//! Its words are the names of files. The name of a file says what its rows are (`src/topics.rt`), and each of its
//! lines is a row, `INPUT -> OUTPUT`. An empty line is none, and neither is one that begins with `#`. It prints
//! `FILE: N rows` for each file, and before it a line for each row that gives something else.
#![tactic(auto)]

mod cuts;
mod exchange;
mod requests;
mod service;
mod steps;
mod topics;
mod trials;
mod twice;

use crate::topics::value;
use anyhow::Result;
use try_words::run_rows;

fn main(rt: HostRuntime) -> Result<()> {
    run_rows(&rt, |topic, input| value(&rt, rt.alloc(), topic, input))
}
