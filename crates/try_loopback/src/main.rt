//! The program `try_loopback`: it serves on the loopback with Telnet hosts, viewers, a recorder and tunnels of its
//! own, and tells what each of them met. It ends by itself, and prints the same whatever the order in which threads run.
#![tactic(auto)]

mod link;
mod loopback;
mod stage;
mod stoppable;
mod tunnel;
mod visit;

use crate::link::Link;
use crate::loopback::Serving;
use crate::stage::Stage;
use anyhow::Result;

fn main(rt: HostRuntime) -> Result<()> {
    let stage = Stage::new(&rt)?;
    loopback::refused(&rt, rt.alloc(), &stage)?;
    let serving = Serving::start(&rt, rt.alloc(), &stage)?;
    let outcome = clients(&rt, &stage);
    stop(&rt, &stage, &serving);
    tell_end(&rt, serving.join(&rt), outcome)
}

fn clients(rt: &HostRuntime, stage: &Stage) -> Result<()> {
    visit::visit(rt, stage)?;
    tunnel::tunnel(rt, stage)
}

// The net of the service fails at a last connection.
fn stop(rt: &HostRuntime, stage: &Stage, serving: &Serving) {
    serving.stop();
    let _ = Link::dial(rt, stage.service);
}

fn tell_end(rt: &HostRuntime, status: u8, outcome: Result<()>) -> Result<()> {
    println!(rt; "the service ended with {status}")?;
    outcome
}
