//! Two viewers who are served at once, over a net in memory whose jobs run in threads. The one's first frame is held
//! until the other was given a picture, and the host and both clients wait for it too.

use crate::memory::{
    Given, HELD, Hold, Missed, Moment, RowNet, RowSink, RowSource, SYNC, none_missed, nothing_given,
};
use crate::rows::{GREETING, tell_picture, tell_status};
use anyhow::Result;
use std::alloc::Global;
use std::sync::atomic::Ordering::SeqCst;
use std::sync::{Arc, Wait};
use std::thread::Threads;
use std::time::Clock;
use try_services::served;

/// What a client sends that joins the session of the ID that is drawn first.
pub const JOIN: &[u8] =
    b"6.select,37.$00010203-0405-4607-8809-0a0b0c0d0e0f;7.connect,13.VERSION_1_1_0,0.;";

/// What both viewers are given, where it is said that a write is held, and how many moments didn't come.
#[derive(Drop)]
struct Seen {
    one: Given,
    two: Given,
    held: Given,
    missed: Missed,
}

impl Seen {
    fn new(alloc: Global) -> Result<Seen> {
        let (one, two) = (nothing_given(alloc)?, nothing_given(alloc)?);
        let held = nothing_given(alloc)?;
        let missed = none_missed(alloc)?;
        Ok(Seen {
            one,
            two,
            held,
            missed,
        })
    }

    // The first viewer is given a picture.
    fn shown_one(&self) -> Result<Moment> {
        Moment::new(&self.one, SYNC, &self.missed)
    }

    // The second viewer is given a picture.
    fn shown_two(&self) -> Result<Moment> {
        Moment::new(&self.two, SYNC, &self.missed)
    }

    // A write to the first viewer is held.
    fn is_held(&self) -> Result<Moment> {
        Moment::new(&self.held, HELD, &self.missed)
    }

    fn hold(&self) -> Result<Hold> {
        let until = self.shown_two()?;
        Ok(Hold {
            said: Arc::try_clone(&self.held)?,
            until,
        })
    }
}

/// How the service ends, what the second viewer is given, and how many moments didn't come.
pub fn gate<R>(rt: &R, alloc: Global) -> Result<()>
where
    R: Print + Clock + Eprint + Threads + Wait + Copy + Send + Sync + Drop + 'static,
{
    let seen = Seen::new(alloc)?;
    serve_two(rt, alloc, &seen)?;
    tell_seen(rt, alloc, &seen)
}

fn serve_two<R>(rt: &R, alloc: Global, seen: &Seen) -> Result<()>
where
    R: Print + Clock + Eprint + Threads + Wait + Copy + Send + Sync + Drop + 'static,
{
    let mut net = RowNet::new(*rt, alloc)?;
    add_viewers(rt, alloc, seen, &mut net)?;
    set_moments(seen, &mut net)?;
    tell_status(rt, "the gate", served(rt, alloc, net, &[])?)
}

fn add_viewers<R>(rt: &R, alloc: Global, seen: &Seen, net: &mut RowNet<R>) -> Result<()>
where
    R: Clock + Wait + Copy + Send + Drop + 'static,
{
    let source = RowSource::new(
        *rt,
        alloc,
        JOIN,
        Some(seen.is_held()?),
        Some(seen.shown_two()?),
    )?;
    net.precede(source, RowSink::new(*rt, &seen.two, None)?)?;
    let source = RowSource::new(*rt, alloc, GREETING, None, Some(seen.shown_two()?))?;
    net.precede(source, RowSink::new(*rt, &seen.one, Some(seen.hold()?))?)
}

fn set_moments<R>(seen: &Seen, net: &mut RowNet<R>) -> Result<()>
where
    R: Clock + Wait + Copy + Send + Drop + 'static,
{
    net.run_in_threads(seen.shown_one()?, seen.shown_two()?);
    net.wait_for(seen.shown_one()?)?;
    net.wait_for(seen.shown_two()?)
}

fn tell_seen<R: Print + Wait>(rt: &R, alloc: Global, seen: &Seen) -> Result<()> {
    tell_second(rt, alloc, &seen.two)?;
    let missed = seen.missed.load(SeqCst);
    println!(rt; "| {missed} moments missed")?;
    Ok(())
}

fn tell_second<R: Print + Wait>(rt: &R, alloc: Global, given: &Given) -> Result<()> {
    let given = given.lock(rt);
    tell_picture(rt, alloc, given.as_slice())
}
