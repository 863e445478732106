//! A book of viewers after joins, deliveries, acknowledgements, ends and leaves.

ghost use Rattle.std.specs.Prelude.{◌<◌, IsTrue};
ghost use Rattle.viewer_book.specs.Book.{is_live};

use crate::keys::push_held;
use anyhow::{Context, Result, bail};
use gate_model::{Mods, Role};
use std::alloc::Global;
use try_words::{first_word, numbers};
use viewer_book::Book;

/// The live viewers after the calls, which stand apart by `; `.
pub fn told(alloc: Global, input: &str) -> Result<String> {
    let mut book = Book::new(alloc).ok().context("no memory")?;
    told_after(&mut book, alloc, input)
}

fn told_after(book: &mut Book, alloc: Global, calls: &str) -> Result<String> {
    for call in calls.split("; ") {
        let (name, rest) = first_word(call);
        let numbers = numbers(alloc, rest)?;
        make(book, name, &numbers)?;
    }
    viewers_of(book, alloc)
}

// The live viewers.
fn viewers_of(book: &Book, alloc: Global) -> Result<String> {
    let mut text = String::new(alloc);
    write!(text, "{} of {}", book.live(), book.joined())?;
    for viewer in 1..=book.joined().min(8) {
        if book.is_live(viewer) {
            push_viewer(&mut text, book, viewer)?;
        }
    }
    Ok(text)
}

fn make(book: &mut Book, name: &str, numbers: &[u32]) -> Result<()> {
    match (name, numbers) {
        ("control", [stamp]) => add(book, Role::Control, *stamp),
        ("view", [stamp]) => add(book, Role::View, *stamp),
        ("keep", [stamp]) => add(book, Role::Keep, *stamp),
        ("views", [count]) => add_views(book, *count),
        ("leave", [viewer]) => leave(book, *viewer),
        ("deliver", [viewer, stamp]) => deliver(book, *viewer, u64::from(*stamp)),
        ("sync", [viewer, stamp]) => acknowledge(book, *viewer, u64::from(*stamp)),
        ("end", [viewer, stamp]) => end(book, *viewer, u64::from(*stamp)),
        ("alt", [viewer]) => hold_alt(book, *viewer),
        _ => bail!("no call"),
    }
}

fn leave(book: &mut Book, viewer: u32) -> Result<()> {
    if book.is_live(viewer) {
        book.remove(viewer);
        Ok(())
    } else {
        bail!("no viewer");
    }
}

// The right Alt is held from now on.
fn hold_alt(book: &mut Book, viewer: u32) -> Result<()> {
    if book.is_live(viewer) {
        let mods = Mods {
            alt_right: true,
            ..book.mods(viewer)
        };
        book.set_mods(viewer, mods);
        Ok(())
    } else {
        bail!("no viewer");
    }
}

// A viewer joins, and has the next number.
fn add(book: &mut Book, role: Role, stamp: u32) -> Result<()> {
    if 64 <= book.live() || 1_000_000 <= book.joined() {
        bail!("no room");
    }
    let next = book.joined().saturating_add(1);
    match book.add(role, u64::from(stamp)) {
        Ok(number) => expect(number, next),
        Err(_) => bail!("no memory"),
    }
}

fn expect(number: u32, next: u32) -> Result<()> {
    if number == next {
        Ok(())
    } else {
        bail!("viewer {number}");
    }
}

fn add_views(book: &mut Book, count: u32) -> Result<()> {
    for _ in 0..count {
        add(book, Role::View, 1)?;
    }
    Ok(())
}

fn deliver(book: &mut Book, viewer: u32, stamp: u64) -> Result<()> {
    if book.is_live(viewer) && book.position(viewer) < stamp && book.waiting(viewer) < 321 {
        book.deliver(viewer, stamp);
        Ok(())
    } else {
        bail!("not above its position, or no room");
    }
}

fn acknowledge(book: &mut Book, viewer: u32, stamp: u64) -> Result<()> {
    if book.is_live(viewer) {
        book.acknowledge(viewer, stamp);
        Ok(())
    } else {
        bail!("no viewer");
    }
}

fn end(book: &mut Book, viewer: u32, stamp: u64) -> Result<()> {
    if book.is_live(viewer) && book.position(viewer) <= stamp {
        book.end(viewer, stamp);
        Ok(())
    } else {
        bail!("below its position");
    }
}

fn push_viewer(text: &mut String, book: &Book, viewer: u32) -> Result<()>
    requires { IsTrue (is_live book.now viewer) }
{
    let role = book.role(viewer);
    let position = book.position(viewer);
    let waiting = book.waiting(viewer);
    let ended = if book.ended(viewer) { " ended" } else { "" };
    write!(
        text,
        ", {viewer} {role:?} at {position}, {waiting} waiting,{ended} "
    )?;
    push_held(text, book.mods(viewer))
}
