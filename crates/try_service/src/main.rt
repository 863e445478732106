//! The program `try_service`: it serves over a net in memory, and tells what its clients met. It prints the same
//! whatever the order in which threads run.
#![tactic(auto)]

mod faults;
mod gate;
mod memory;
mod rows;

use anyhow::Result;

fn main(rt: HostRuntime) -> Result<()> {
    rows::daemon(&rt, rt.alloc())?;
    rows::connects(&rt, rt.alloc())?;
    gate::gate(&rt, rt.alloc())?;
    faults::dials(&rt, rt.alloc())?;
    faults::starts(&rt, rt.alloc())
}
