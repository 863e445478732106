//! A TCP connection of a client, a Telnet host or a recorder.

use anyhow::{Context, Result, bail};
use std::alloc::Global;
use std::io::{Read, Write};
use std::net::{Ipv4Addr, Shutdown, TcpListener, TcpStream};
use std::time::Duration;
use std::{str, thread};

// The most reads of one call.
const READS: u32 = 100_000;

// How many bytes a read gives at most.
const PIECE: usize = 4_096;

/// A connection, and all that came on it.
#[derive(Drop)]
pub struct Link {
    stream: TcpStream,
    heard: Vec<u8>,
    // Behind the text that was awaited last.
    behind: usize,
}

impl Link {
    /// Dials a port of this machine.
    pub fn dial(rt: &HostRuntime, port: u16) -> Result<Link> {
        for _ in 0..100 {
            if let Ok(stream) = TcpStream::connect(rt, (Ipv4Addr::LOCALHOST, port)) {
                return Link::over(rt.alloc(), stream);
            }
            thread::sleep(rt, Duration::from_millis(20));
        }
        bail!("the port can't be reached")
    }

    /// The next connection that comes to the listener.
    pub fn accept(alloc: Global, listener: &TcpListener) -> Result<Link> {
        let (stream, _peer) = listener.accept()?;
        Link::over(alloc, stream)
    }

    fn over(alloc: Global, stream: TcpStream) -> Result<Link> {
        stream.set_read_timeout(Some(Duration::from_secs(60)))?;
        Ok(Link {
            stream,
            heard: Vec::new(alloc),
            behind: 0,
        })
    }

    /// All that came so far.
    pub fn heard(&self) -> &[u8] {
        self.heard.as_slice()
    }

    /// Sends the bytes.
    pub fn say(&mut self, bytes: &[u8]) -> Result<()> {
        self.stream.write_all(bytes)?;
        Ok(())
    }

    /// Says that it sends no more.
    pub fn end(&mut self) -> Result<()> {
        self.stream.shutdown(Shutdown::Write)?;
        Ok(())
    }

    /// From now on a read fails where no byte came for so many milliseconds.
    pub fn pause_after(&mut self, milliseconds: u64) -> Result<()> {
        self.stream
            .set_read_timeout(Some(Duration::from_millis(milliseconds)))?;
        Ok(())
    }

    // Reads once. Whether there was something.
    fn read(&mut self) -> Result<bool> {
        let mut piece = [0u8; PIECE];
        let n = self.stream.read(&mut piece)?.min(PIECE);
        self.heard.extend_from_slice(&piece[..n])?;
        Ok(n > 0)
    }

    /// Reads to the end of the connection, or to a read that fails. Whether it was the end.
    pub fn has_ended(&mut self) -> bool {
        for _ in 0..READS {
            match self.read() {
                Ok(true) => {}
                Ok(false) => return true,
                Err(_) => return false,
            }
        }
        false
    }

    /// Reads until the text has come, behind the one that was awaited before.
    pub fn await_text(&mut self, text: &[u8]) -> Result<()> {
        for _ in 0..READS {
            if self.passes(text) {
                return Ok(());
            }
            if !self.read()? {
                break;
            }
        }
        bail!("the connection has ended too early")
    }

    // Goes behind the text, if it has come; else behind all where it doesn't begin.
    fn passes(&mut self, text: &[u8]) -> bool {
        match find(self.unread(), text) {
            Some(at) => {
                self.behind = self.behind.saturating_add(at).saturating_add(text.len());
                true
            }
            None => {
                let last = self.heard.len().saturating_sub(text.len());
                self.behind = self.behind.max(last);
                false
            }
        }
    }

    // What came behind the text that was awaited last.
    fn unread(&self) -> &[u8] {
        self.heard.as_slice().get(self.behind..).unwrap_or(&[])
    }

    /// Reads to the end of the connection, and answers all that came.
    pub fn all(&mut self) -> Result<&[u8]> {
        for _ in 0..READS {
            if !self.read()? {
                break;
            }
        }
        Ok(self.heard.as_slice())
    }

    /// The ID that `ready` tells a viewer.
    pub fn ready(&mut self, alloc: Global) -> Result<String> {
        self.await_text(b"5.ready,37.")?;
        let from = self.behind;
        self.await_text(b";")?;
        let id = self.heard.as_slice().get(from..from.saturating_add(37));
        let id = str::from_utf8(id.context("no ID")?)
            .ok()
            .context("no text")?;
        Ok(String::from_str(alloc, id)?)
    }
}

// Where the text is first.
fn find(heard: &[u8], text: &[u8]) -> Option<usize> {
    heard
        .windows(text.len().max(1))
        .position(|window| window == text)
}

/// How often the text is there.
pub fn count(heard: &[u8], text: &[u8]) -> usize {
    heard
        .windows(text.len().max(1))
        .filter(|window| *window == text)
        .count()
}
