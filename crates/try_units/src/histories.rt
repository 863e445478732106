//! What is kept of two frames.

ghost use Rattle.std.specs.Prelude.{[]};
ghost use Rattle.display_history.specs.Keeping.{HasKept};

use anyhow::{Result, bail};
use display_history::History;
use display_history::laws::newest_is_last;
use std::alloc::Global;
use try_words::numbers;

/// After frames of the stamps 1 and 2 with so many bytes of text: whether 0, 1 and 2 are covered, and how many frames
/// come after the least that is.
pub fn told(alloc: Global, input: &str) -> Result<String> {
    let lengths = numbers(alloc, input)?;
    let mut history = History::new(alloc);
    match lengths.as_slice() {
        [first, second] => push_two(&mut history, alloc, *first, *second)?,
        _ => bail!("no two lengths"),
    }
    covered(&history, alloc)
}

fn push_two(history: &mut History, alloc: Global, first: u32, second: u32) -> Result<()>
    requires { HasKept history.old [] }
{
    newest_is_last();
    if history
        .push(1, vec![in alloc; b'a'; first as usize]?)
        .is_err()
    {
        bail!("no memory");
    }
    if history
        .push(2, vec![in alloc; b'a'; second as usize]?)
        .is_err()
    {
        bail!("no memory");
    }
    Ok(())
}

fn covered(history: &History, alloc: Global) -> Result<String> {
    let mut text = String::new(alloc);
    let mut after = None;
    for stamp in 0..3 {
        let covered = history.covers(stamp);
        if covered && after.is_none() {
            after = Some(history.after(stamp).len());
        }
        write!(text, "{covered} ")?;
    }
    match after {
        Some(count) => write!(text, "{count}")?,
        None => write!(text, "none")?,
    }
    Ok(text)
}
