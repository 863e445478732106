//! The program `try_threads`: it runs sessions that are shared by passes, in one thread and in many, and tells what
//! came of each. It prints the same whatever the order in which threads run.
#![tactic(auto)]

mod load;
mod rows;
mod sizes;
mod workers;

use anyhow::Result;
use std::sync::Wait;
use std::thread::Threads;

fn main(rt: HostRuntime) -> Result<()> {
    run(&rt)
}

fn run<R>(rt: &R) -> Result<()>
where
    R: AllocGlobal + Print + Threads + Wait + Copy + Send + Sync + 'static,
{
    let alloc = rt.alloc();
    println!(rt; "two writers: {}", rows::two_writers(rt, alloc)?)?;
    println!(rt; "a pass still out: {}", rows::a_pass_still_out(rt, alloc)?)?;
    println!(rt; "a second link: {}", rows::a_second_link(alloc)?)?;
    println!(rt; "a second close: {}", rows::a_second_close(rt, alloc)?)?;
    println!(rt; "sizes in turn: {}", sizes::in_turn(rt, alloc)?)?;
    println!(rt; "sizes at once: {}", sizes::at_once(rt, alloc)?)?;
    println!(rt; "mixed load: {}", load::eight_threads(rt, alloc)?)?;
    Ok(())
}
