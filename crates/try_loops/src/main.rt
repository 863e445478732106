//! The program `try_loops`: it runs the loops over a session, those of its link, of its viewers and of a recorder,
//! over ends in memory, and tells what came of each.
#![tactic(auto)]

mod closing_bell;
mod lagging;
mod links;
mod nines;
mod recordings;
mod sizes;
mod users;
mod visits;

use anyhow::Result;
use std::alloc::Global;
use std::sync::Wait;
use std::thread::Threads;

fn main(rt: HostRuntime) -> Result<()> {
    run(&rt)
}

fn run<R>(rt: &R) -> Result<()>
where
    R: AllocGlobal + Print + Threads + Wait + Copy + Send + Sync + 'static,
{
    let alloc = rt.alloc();
    tell_links(rt, alloc)?;
    tell_users(rt, alloc)?;
    tell_sizes(rt, alloc)?;
    println!(rt;
        "a recording of three feeds: {}",
        recordings::three_feeds(rt, alloc)?
    )?;
    Ok(())
}

// What came of the loops over a link.
fn tell_links<R: Print + Wait>(rt: &R, alloc: Global) -> Result<()> {
    println!(rt; "a link that ends: {}", links::whole(rt, alloc)?)?;
    println!(rt; "a read that fails: {}", links::failed_read(rt, alloc)?)?;
    println!(rt; "a write that fails: {}", links::failed_write(rt, alloc)?)?;
    println!(rt; "read k that fails: {}", links::failing_reads(rt, alloc)?)?;
    println!(rt; "write k that fails: {}", links::failing_writes(rt, alloc)?)?;
    Ok(())
}

// What came of the loops of a viewer.
fn tell_users<R>(rt: &R, alloc: Global) -> Result<()>
where
    R: Print + Threads + Wait + Copy + Send + Sync + 'static,
{
    println!(rt; "keys and disconnect: {}", users::typed(rt, alloc)?)?;
    println!(rt; "a viewer's read that fails: {}", users::unread(rt, alloc)?)?;
    println!(rt; "a viewer's bad byte: {}", users::broken(rt, alloc)?)?;
    println!(rt; "a viewer's bytes that end: {}", users::cut(rt, alloc)?)?;
    println!(rt; "digits without an end: {}", users::endless(rt, alloc)?)?;
    println!(rt; "a closed session shown: {}", users::shown(rt, alloc)?)?;
    println!(rt;
        "a viewer's write that fails: {}",
        users::unwritten(rt, alloc)?
    )?;
    println!(rt; "a viewer that left: {}", users::left(rt, alloc)?)?;
    println!(rt; "a viewer that lags: {}", lagging::lagging(rt, alloc, 1)?)?;
    println!(rt;
        "one that acknowledges nothing: {}",
        lagging::lagging(rt, alloc, 0)?
    )?;
    println!(rt; "a visit: {}", users::visited(rt, alloc)?)?;
    println!(rt; "a visitor turned away: {}", users::turned_away(rt, alloc)?)?;
    println!(rt;
        "a visit whose write k fails: {}",
        visits::failing_writes(rt, alloc)?
    )?;
    Ok(())
}

// What came of sizes that a viewer asks for.
fn tell_sizes<R: Print + Wait>(rt: &R, alloc: Global) -> Result<()> {
    println!(rt; "another size: {}", sizes::another(rt, alloc)?)?;
    println!(rt; "the size in force: {}", sizes::same(rt, alloc)?)?;
    println!(rt;
        "a size of a viewer that looks on: {}",
        sizes::denied(rt, alloc)?
    )?;
    Ok(())
}
