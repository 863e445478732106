//! A row is run again for each call of an end, and that call fails.

use crate::row::{Row, Sweep};
use crate::running::{Given, run_row, shown, unmet};
use anyhow::Result;
use std::alloc::Global;

/// What the runs give, where it isn't what they have to give. The run without a fault gives what the row says, and
/// makes as many calls as the sweep says: a later one isn't there to fail. Where one of these fails, the status
/// tells so, and a front of the answers and one of the frames are written.
pub fn swept(alloc: Global, row: &Row, sweep: Sweep) -> Result<Option<String>> {
    let whole = run_row(alloc, row, row.ends)?;
    if let Some(found) = unmet(alloc, row, &whole)? {
        return Ok(Some(found));
    }
    for call in 1..=sweep.calls {
        if let Some(found) = failed(alloc, row, sweep, call, &whole)? {
            return Ok(Some(found));
        }
    }
    unfailed(alloc, row, sweep, &whole)
}

// What the run gives whose call with this number fails.
fn failed(
    alloc: Global,
    row: &Row,
    sweep: Sweep,
    call: u64,
    whole: &Given,
) -> Result<Option<String>> {
    let given = run_row(alloc, row, sweep.ends(row.ends, call))?;
    Ok(if given.status != sweep.status() {
        let status = given.status;
        Some(format!(in alloc; "call {call} fails: status {status}")?)
    } else if !whole.answers.starts_with(&given.answers) {
        Some(shown(alloc, "answers of a failed call", &given.answers)?)
    } else if !whole.frames.starts_with(&given.frames) {
        Some(shown(alloc, "frames of a failed call", &given.frames)?)
    } else {
        None
    })
}

// What the run gives in which the call fails that comes after all calls.
fn unfailed(alloc: Global, row: &Row, sweep: Sweep, whole: &Given) -> Result<Option<String>> {
    let call = sweep.calls.saturating_add(1);
    let given = run_row(alloc, row, sweep.ends(row.ends, call))?;
    Ok(if given.status != whole.status {
        let status = given.status;
        Some(format!(in alloc; "call {call} fails: status {status}")?)
    } else if given.answers != whole.answers {
        Some(shown(alloc, "answers of the last run", &given.answers)?)
    } else if given.frames != whole.frames {
        Some(shown(alloc, "frames of the last run", &given.frames)?)
    } else {
        None
    })
}
