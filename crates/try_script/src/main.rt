//! The program `try_script`: it runs the commands of guacgate on rows that stand in files, and tells
//! which of them give something else than their files say.
//!
//! Its words are the names of files, whose form `src/reading.rt` tells. It prints `FILE: N rows` for
//! each, and before it a line for each row that gives something else.
#![tactic(auto)]

mod draft;
mod reading;
mod row;
mod running;
mod sweeping;
mod turns;

use crate::reading::read_rows;
use crate::row::Row;
use crate::running::difference;
use crate::sweeping::swept;
use anyhow::{Context, Result};
use std::alloc::Global;
use std::rt::{Env, Files};
use std::{env, fs};

fn main(rt: HostRuntime) -> Result<()> {
    run(&rt)
}

fn run(rt: &(impl AllocGlobal + Env + Files + Print)) -> Result<()> {
    for name in env::args(rt)?.skip(1) {
        run_file(rt, name.as_str()).context(format_args!("{name}"))?;
    }
    Ok(())
}

fn run_file(rt: &(impl AllocGlobal + Files + Print), name: &str) -> Result<()> {
    let text = fs::read_to_string(rt, name)?;
    let rows = read_rows(rt.alloc(), text.as_str())?;
    for row in rows.iter() {
        if let Some(found) = found_in(rt.alloc(), row)? {
            let title = row.title.as_str();
            println!(rt; "{name}: {title}: {found}")?;
        }
    }
    let count = rows.len();
    println!(rt; "{name}: {count} rows")?;
    Ok(())
}

// What the row gives, where it isn't what it has to give.
fn found_in(alloc: Global, row: &Row) -> Result<Option<String>> {
    match row.sweep {
        Some(sweep) => swept(alloc, row, sweep),
        None => difference(alloc, row),
    }
}
