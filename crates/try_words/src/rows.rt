//! Files of rows.

use crate::bytes_of;
use anyhow::{Context, Result};
use std::alloc::Global;
use std::rt::{Env, Files};
use std::{env, fs};

/// Runs the rows of the files that the program's words name. The name of a file is that of its topic and `.rows`, and
/// each of its lines is a row, `INPUT -> OUTPUT`. An empty line is none, and neither is one that begins with `#`. It
/// prints `FILE: N rows` for each file, and before it a line for each row where `value`, of the topic and the input,
/// isn't the output.
pub fn run_rows<R: AllocGlobal + Env + Files + Print, F: Fn(&str, &str) -> Result<String>>(
    rt: &R,
    value: F,
) -> Result<()>
    requires { F.IsAlwaysCallable value }
{
    for name in env::args(rt)?.skip(1) {
        run_file(rt, name.as_str(), &value).context(format_args!("{name}"))?;
    }
    Ok(())
}

fn run_file<R: AllocGlobal + Files + Print, F: Fn(&str, &str) -> Result<String>>(
    rt: &R,
    name: &str,
    value: &F,
) -> Result<()>
    requires { F.IsAlwaysCallable value.now }
{
    let text = fs::read_to_string(rt, name)?;
    let topic = name.strip_suffix(".rows").context("no file of rows")?;
    let mut count = 0u64;
    for line in text.as_str().lines() {
        if line.is_empty() || line.starts_with('#') {
            continue;
        }
        count = count.saturating_add(1);
        if let Some(found) = difference(rt.alloc(), topic, line, value)? {
            println!(rt; "{name}: {line}: {found}")?;
        }
    }
    println!(rt; "{name}: {count} rows")?;
    Ok(())
}

// What the row gives, where it isn't what it has to give.
fn difference<F: Fn(&str, &str) -> Result<String>>(
    alloc: Global,
    topic: &str,
    line: &str,
    value: &F,
) -> Result<Option<String>>
    requires { F.IsAlwaysCallable value.now }
{
    let (input, output) = line.split_once("->").context("no arrow")?;
    let found = value(topic, input.trim())?;
    let wanted = bytes_of(alloc, output.trim())?;
    if found.as_str().as_bytes() == wanted.as_slice() {
        Ok(None)
    } else {
        Ok(Some(found))
    }
}
