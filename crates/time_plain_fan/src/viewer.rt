//! The two threads of a viewer.

use crate::topic::Topic;
use anyhow::{Context, Result};
use std::alloc::Global;
use std::io::{Read, Write};
use std::net::{Shutdown, TcpStream};
use std::sync::{Arc, Wait};
use std::thread;
use std::thread::{JoinHandle, Threads};

/// How many bytes are read at once.
const PIECE: usize = 4096;

/// The threads of a viewer that is connected.
#[derive(Drop)]
pub struct Viewer {
    shows: JoinHandle<()>,
    hears: JoinHandle<()>,
}

impl Viewer {
    /// Starts them, at a connection to a viewer of the topic.
    pub fn start<R: Threads + Wait + Copy + Send + Sync + 'static>(
        rt: &R,
        alloc: Global,
        stream: TcpStream,
        topic: &Arc<Topic, Global>,
    ) -> Result<Viewer> {
        stream.set_nodelay(true)?;
        let other = stream.try_clone()?;
        let (shown, heard) = (Arc::try_clone(topic)?, Arc::try_clone(topic)?);
        let inner = *rt;
        let shows = thread::spawn(rt, move || show(&inner, alloc, stream, shown))
            .ok()
            .context("no thread for a viewer")?;
        let hears = thread::spawn(rt, move || hear(&inner, other, heard))
            .ok()
            .context("no thread for a viewer")?;
        Ok(Viewer { shows, hears })
    }

    /// Waits for the end of both.
    pub fn join<R: Threads>(self, rt: &R) {
        let Viewer { shows, hears } = self;
        shows.join(rt);
        hears.join(rt);
    }
}

// Writes each text of the topic.
fn show<R: Wait>(rt: &R, alloc: Global, stream: TcpStream, topic: Arc<Topic, Global>) {
    let mut text = Vec::new(alloc);
    let mut seen = 0;
    let mut writer = &stream;
    for _ in rt.forever() {
        let Some(rings) = topic.next(rt, seen, &mut text) else {
            break;
        };
        seen = rings;
        if writer.write_all(&text).is_err() {
            break;
        }
    }
    let _ = stream.shutdown(Shutdown::Both);
}

// Counts each acknowledgement.
fn hear<R: Wait>(rt: &R, stream: TcpStream, topic: Arc<Topic, Global>) {
    let mut piece = [0u8; PIECE];
    let mut reader = &stream;
    for _ in rt.forever() {
        match reader.read(&mut piece) {
            Ok(count) if count > 0 => topic.acknowledge(rt),
            _ => return,
        }
    }
}
