//! What the rows of a file are.

use crate::histories::history;
use crate::many::many;
use crate::steps::answers;
use anyhow::{Result, bail};
use std::alloc::Global;
use std::sync::Wait;

/// What a row gives.
pub fn value<R: Wait>(rt: &R, alloc: Global, topic: &str, input: &str) -> Result<String> {
    match topic {
        "joins" | "requests" => answers(rt, alloc, input),
        "histories" => history(alloc, input),
        "many" => many(alloc, input),
        _ => bail!("no such topic"),
    }
}
