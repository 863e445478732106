//! Runs of `top` that serve.

ghost use Rattle.std.specs.Prelude.{None};

use anyhow::{Context, Result};
use gate_outside::{Failed, Net, Sink, Source};
use gate_top::{Host, top};
use log::sink::Console;
use session_list::SessionList;
use std::alloc::Global;
use std::sync::Wait;
use std::thread::Threads;

const SEED: &str = "0000000000000000000000000000000000000000000000000000000000000000";

/// A source without bytes, and a sink that keeps nothing.
#[derive(Drop)]
struct Nothing {}

impl Source for Nothing {
    ghost left = { λ _. None };

    ghost faults = { λ _. 0 };

    fn read(&mut self, _into: &mut [u8]) -> Result<usize, Failed> {
        Ok(0)
    }
}

impl Sink for Nothing {
    ghost written = { λ _. None };

    ghost faults = { λ _. 0 };

    fn write(&mut self, piece: &[u8]) -> Result<usize, Failed> {
        Ok(piece.len())
    }

    fn finish(&mut self) {}
}

/// The service over the net, under a seed of zeros and with these further words: the status with which it ends.
pub fn served<R, N>(rt: &R, alloc: Global, net: N, further: &[&str]) -> Result<u8>
where
    R: Eprint + Threads + Wait + Copy + Send + Sync + Drop + 'static,
    N: Net,
{
    let mut host = Host {
        source: Nothing {},
        answers: Nothing {},
        frames: Nothing {},
        net,
        files: &[],
        log: Console(*rt),
        list: SessionList::new(alloc).ok().context("no memory")?,
    };
    run(rt, alloc, further, &mut host)
}

fn run<R, N>(
    rt: &R,
    alloc: Global,
    further: &[&str],
    host: &mut Host<Nothing, Nothing, Nothing, N, Console<R>>,
) -> Result<u8>
where
    R: Eprint + Threads + Wait + Copy + Send + Sync + Drop + 'static,
    N: Net,
{
    let words = words(alloc, further)?;
    Ok(top(rt, alloc, &words, host))
}

// The words that serve.
fn words(alloc: Global, further: &[&str]) -> Result<Vec<String>> {
    let mut words = Vec::new(alloc);
    add(alloc, &mut words, &["serve", "--seed", SEED])?;
    add(alloc, &mut words, further)?;
    Ok(words)
}

fn add(alloc: Global, words: &mut Vec<String>, further: &[&str]) -> Result<()> {
    for word in further {
        let word = String::from_str(alloc, word)?;
        words.push(word)?;
    }
    Ok(())
}
