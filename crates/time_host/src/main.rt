//! Measures the way of a Telnet host's bytes to the screen, without frames: Telnet tokens, options,
//! control functions and the cells, as desk_core's host takes them. It reads standard input, hears it as
//! often as its last word says, in pieces of 4,096 bytes, and prints how many bytes that were and a sum
//! over what the screen of 80 by 24 shows in the end, so that two builds can be compared; the seconds
//! and the rate go to standard error.
#![tactic(auto)]

mod host;
mod sum;

ghost use Rattle.std.specs.Prelude.{◌≡◌, ◌<◌, ◌/◌};

use anyhow::{Context, Result};
use gate_model::NoMemory;
use host::Host;
use std::alloc::Global;
use std::env;
use std::io::Read;
use std::time::Instant;
use sum::sum_of;

const PIECE: usize = 4096;

fn main(rt: HostRuntime) -> Result<()> {
    let alloc = rt.alloc();
    let mut bytes = Vec::new(alloc);
    rt.reader().read_to_end(&mut bytes)?;
    let mut passes = 1;
    for word in env::args(&rt)?.skip(1) {
        passes = word.parse::<u32>().unwrap_or(1);
    }
    let start = Instant::now(&rt)?;
    let host = hear_often(alloc, &bytes, passes).ok().context("no memory")?;
    let micros = start.elapsed(&rt)?.as_micros().min(u64::MAX as u128) as u64;
    let count = (bytes.len() as u64).saturating_mul(passes as u64);
    let shown = host.shown(alloc).ok().context("no memory")?;
    let sum = sum_of(&shown);
    println!(rt; "{count} bytes, sum {sum}")?;
    let micros = micros.max(1);
    eprintln!(rt; "{micros} microseconds, {} MB/s", rate(count, micros))?;
    Ok(())
}

// A host that has heard the bytes so often.
fn hear_often(alloc: Global, bytes: &[u8], passes: u32) -> Result<Host, NoMemory> {
    let mut host = Host::new(alloc)?;
    for _ in 0..passes {
        for piece in bytes.chunks(PIECE) {
            host.hear(alloc, piece)?;
        }
    }
    Ok(host)
}

// Bytes a microsecond, which are megabytes a second.
fn rate(bytes: u64, micros: u64) -> u64
    requires { 0 < micros }
    ensures { result ≡ bytes / micros }
{
    bytes / micros
}
