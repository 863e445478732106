//! The topics and their viewers.

use crate::topic::Topic;
use crate::viewer::Viewer;
use crate::words::Words;
use anyhow::{Context, Result};
use std::alloc::Global;
use std::net::{Ipv4Addr, TcpListener, TcpStream};
use std::sync::{Arc, Wait};
use std::thread::{JoinHandle, Threads};
use std::time::{Clock, Duration, Instant};
use std::{net, thread};

// How often a topic shows what, and for how long.
#[derive(Clone, Copy)]
struct Pace {
    bytes: u32,
    frames: u32,
    seconds: u32,
}

/// Waits until all viewers are connected, each to the next topic, and shows them the topics.
pub fn serve<R>(rt: &R, words: &Words) -> Result<()>
where
    R: net::Net<Listener = TcpListener, Stream = TcpStream>
        + Clock
        + Print
        + Threads
        + Wait
        + AllocGlobal
        + Copy
        + Send
        + Sync
        + 'static,
{
    let alloc = rt.alloc();
    let listener = TcpListener::bind(rt, (Ipv4Addr::LOCALHOST, words.port))?;
    let topics = topics(alloc, words.topics)?;
    let viewers = connected(rt, alloc, &listener, words.viewers, &topics)?;
    let pace = Pace {
        bytes: words.bytes,
        frames: words.frames,
        seconds: words.seconds,
    };
    show_all(rt, alloc, &topics, pace)?;
    let mut count: u64 = 0;
    for viewer in viewers {
        viewer.join(rt);
    }
    for topic in &topics {
        count = count.saturating_add(topic.acknowledged(rt));
    }
    println!(*rt; "acknowledged {count}")?;
    Ok(())
}

fn topics(alloc: Global, count: u32) -> Result<Vec<Arc<Topic, Global>>> {
    let mut topics = Vec::new(alloc);
    for _ in 0..count {
        topics.push(Arc::new(alloc, Topic::new(alloc))?)?;
    }
    Ok(topics)
}

// So many viewers of each topic, once they are connected.
fn connected<R>(
    rt: &R,
    alloc: Global,
    listener: &TcpListener,
    viewers: u32,
    topics: &[Arc<Topic, Global>],
) -> Result<Vec<Viewer>>
where
    R: Threads + Wait + Copy + Send + Sync + 'static,
{
    let mut connected = Vec::new(alloc);
    for _ in 0..viewers {
        for topic in topics {
            let (stream, _peer) = listener.accept()?;
            connected.push(Viewer::start(rt, alloc, stream, topic)?)?;
        }
    }
    Ok(connected)
}

// Shows all topics, each from a thread of its own.
fn show_all<R>(rt: &R, alloc: Global, topics: &[Arc<Topic, Global>], pace: Pace) -> Result<()>
where
    R: Clock + Threads + Wait + Copy + Send + Sync + 'static,
{
    let mut sources: Vec<JoinHandle<()>> = Vec::new(alloc);
    for topic in topics {
        let topic = Arc::try_clone(topic)?;
        let inner = *rt;
        let source = thread::spawn(rt, move || show(&inner, topic, pace))
            .ok()
            .context("no thread for a topic")?;
        sources.push(source)?;
    }
    for source in sources {
        source.join(rt);
    }
    Ok(())
}

// Shows a topic at its pace, to the end.
fn show<R: Clock + Wait>(rt: &R, topic: Arc<Topic, Global>, pace: Pace) {
    if let Ok(begun) = Instant::now(rt) {
        for frame in 0..u64::from(pace.frames) * u64::from(pace.seconds) {
            let due = frame.saturating_mul(1_000_000) / u64::from(pace.frames.max(1));
            wait_until(rt, begun, due);
            let letter = b'A' + (frame % 26) as u8;
            if topic.show(rt, letter, pace.bytes).is_err() {
                break;
            }
        }
    }
    topic.end();
}

// Waits until so many microseconds have passed since the beginning.
fn wait_until<R: Clock>(rt: &R, begun: Instant, due: u64) {
    if let Ok(passed) = begun.elapsed(rt) {
        let passed = passed.as_micros().min(u128::from(u64::MAX)) as u64;
        thread::sleep(rt, Duration::from_micros(due.saturating_sub(passed)));
    }
}
