//! Tries frames on random bytes of a host and random sizes: what a viewer has after each frame is compared, pixel by pixel,
//! with a drawing of the whole screen (`src/redraw.rt`), and the frame's length with what it may cost.
//!
//! Its words are a seed and how many feeds are made; one in eight of them is followed by another size. It prints how
//! many feeds there were, and how many sizes, how many of them left the right picture, how many came while at most
//! 1,024 keys had been seen, for which a frame's length is bounded, and how many of those had such a length; and
//! before it the first ones that did not, the bytes of a feed in hexadecimal.
#![tactic(auto)]

mod feeds;
mod redraw;
mod seen;
mod terminal;
mod trial;
mod viewer;

use crate::feeds::{Look, feed};
use crate::trial::{Outcome, Trial};
use anyhow::{Context, Result};
use std::env;
use std::rt::Env;
use try_words::{Random, push_hexadecimal};

/// How many feeds a screen is given.
const FEEDS: u64 = 500;

/// How many feeds that went wrong are told.
const TOLD: u64 = 5;

fn main(rt: HostRuntime) -> Result<()> {
    run(&rt)
}

// How many were made, and how many of them went right.
#[derive(Clone, Copy, Default)]
struct Tally {
    made: u64,
    alike: u64,
    bounded: u64,
    within: u64,
    told: u64,
}

impl Tally {
    fn add(&mut self, outcome: Outcome) {
        self.made = self.made.saturating_add(1);
        self.alike = self.alike.saturating_add(u64::from(outcome.is_alike));
        self.bounded = self.bounded.saturating_add(u64::from(outcome.is_bounded));
        self.within = self
            .within
            .saturating_add(u64::from(outcome.is_bounded && outcome.is_within));
    }
}

// The feeds and the sizes.
#[derive(Clone, Copy, Default)]
struct Tallies {
    feeds: Tally,
    sizes: Tally,
}

fn run(rt: &(impl AllocGlobal + Env + Print)) -> Result<()> {
    let mut words = env::args(rt)?.skip(1);
    let seed = words.next().context("no seed")?.parse::<u64>()?;
    let feeds = words.next().context("no number")?.parse::<u64>()?;
    let tallies = run_screens(rt, seed, feeds)?;
    print_tally(rt, "feeds", tallies.feeds)?;
    print_tally(rt, "sizes", tallies.sizes)
}

fn print_tally(rt: &impl Print, name: &str, tally: Tally) -> Result<()> {
    println!(rt;
        "{} {name}: {} alike; {} with at most 1,024 keys, {} of them within the bound",
        tally.made, tally.alike, tally.bounded, tally.within
    )?;
    Ok(())
}

fn run_screens(rt: &(impl AllocGlobal + Print), seed: u64, feeds: u64) -> Result<Tallies> {
    let mut random = Random::new(seed);
    let mut tallies = Tallies::default();
    for screen in 0..feeds.div_ceil(FEEDS) {
        let left = feeds.saturating_sub(screen.saturating_mul(FEEDS));
        run_screen(rt, &mut random, left.min(FEEDS), &mut tallies)?;
    }
    Ok(tallies)
}

// A new screen of a new size and its feeds.
fn run_screen(
    rt: &(impl AllocGlobal + Print),
    random: &mut Random,
    feeds: u64,
    tallies: &mut Tallies,
) -> Result<()> {
    let (cols, rows) = size(random);
    let look = Look::new(random);
    let mut trial = Trial::new(rt.alloc(), cols, rows)?;
    for _ in 0..feeds {
        run_feed(rt, random, look, &mut trial, &mut tallies.feeds)?;
        if random.below(8) == 0 {
            run_size(rt, random, &mut trial, &mut tallies.sizes)?;
        }
    }
    Ok(())
}

// 1 to 12 columns and 1 to 5 rows.
fn size(random: &mut Random) -> (u16, u16) {
    let cols = 1 + random.below(12) as u16;
    let rows = 1 + random.below(5) as u16;
    (cols, rows)
}

fn run_feed(
    rt: &(impl AllocGlobal + Print),
    random: &mut Random,
    look: Look,
    trial: &mut Trial,
    tally: &mut Tally,
) -> Result<()> {
    let bytes = feed(rt.alloc(), random, look)?;
    let outcome = trial.feed(rt.alloc(), &bytes)?;
    tally.add(outcome);
    if outcome.is_right() || TOLD <= tally.told {
        return Ok(());
    }
    tally.told += 1;
    let mut text = String::new(rt.alloc());
    push_hexadecimal(&mut text, &bytes)?;
    println!(rt; "feed {}: {text}", tally.made)?;
    Ok(())
}

fn run_size(
    rt: &(impl AllocGlobal + Print),
    random: &mut Random,
    trial: &mut Trial,
    tally: &mut Tally,
) -> Result<()> {
    let (cols, rows) = size(random);
    let outcome = trial.resize(rt.alloc(), cols, rows)?;
    tally.add(outcome);
    if outcome.is_right() || TOLD <= tally.told {
        return Ok(());
    }
    tally.told += 1;
    println!(rt; "size {}: {cols} by {rows}", tally.made)?;
    Ok(())
}
