//! The program `try_edges`: it reads the words of `serve`, judges who asks for the page and whether another site's page
//! asks, and types what clients paste, on rows that stand in files, and tells which of them give something else than their
//! files say.
//!
//! Its words are the names of files. The name of a file says what its rows are (`src/topics.rt`), and each of its
//! lines is a row, `INPUT -> OUTPUT`. An empty line is none, and neither is one that begins with `#`. It prints
//! `FILE: N rows` for each file, and before it a line for each row that gives something else.
#![tactic(auto)]

mod asking;
mod options;
mod pastes;
mod sites;
mod topics;

use crate::topics::value;
use anyhow::Result;
use try_words::run_rows;

fn main(rt: HostRuntime) -> Result<()> {
    run_rows(&rt, |topic, input| value(rt.alloc(), topic, input))
}
