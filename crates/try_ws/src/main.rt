//! The program `try_ws`: it serves viewers over messages in memory, on rows that stand in files, and tells which of
//! them give something else than their files say.
//!
//! Its words are the names of files. Each of their lines is a row, `INPUT -> OUTPUT` (`src/messages.rt`). An empty line
//! is none, and neither is one that begins with `#`. It prints `FILE: N rows` for each file, and before it a line for
//! each row that gives something else.
#![tactic(auto)]

mod messages;

use crate::messages::conversation;
use anyhow::Result;
use try_words::run_rows;

fn main(rt: HostRuntime) -> Result<()> {
    run_rows(&rt, |_topic, input| conversation(&rt, rt.alloc(), input))
}
