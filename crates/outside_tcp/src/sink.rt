//! The end of a TCP connection that is written to.

ghost use Rattle.std.specs.Prelude.{◌≡◌, None};

use crate::connection::Connection;
use gate_outside::{Failed, Sink};
use std::alloc::Global;
use std::io::Write;
use std::net::Shutdown;
use std::sync::Arc;
use std::sync::atomic::Ordering::SeqCst;

/// How `ready` begins, with which a greeting is over (the Guacamole protocol's handshake).
const READY: &[u8] = b"5.ready,";

/// The first byte of a frame that is a whole text message (RFC 6455, section 5.2).
const TEXT_FRAME: u8 = 0x81;

/// A sink over a TCP connection. It tells nothing of what was written. Where it is finished or dropped, the
/// connection is shut down both ways, so that a read that waits on its other end returns. Until it is dropped the
/// connection counts as open.
pub struct TcpSink {
    connection: Arc<Connection, Global>,
    faults: u64,
}

impl TcpSink {
    // The sink of a connection.
    pub(crate) fn new(connection: Arc<Connection, Global>) -> TcpSink {
        if let Some(watch) = &connection.watch {
            watch.count_open();
        }
        TcpSink {
            connection,
            faults: 0,
        }
    }
}

impl Drop for TcpSink {
    fn drop(self) {
        let TcpSink {
            connection,
            faults: _,
        } = self;
        let _ = connection.stream.shutdown(Shutdown::Both);
        if let Some(watch) = &connection.watch {
            watch.count_gone();
        }
    }
}

impl Sink for TcpSink {
    ghost written = { λ _. None };

    ghost faults = { λ s. s.faults };

    fn write(&mut self, piece: &[u8]) -> Result<usize, Failed> {
        // The real end isn't told that a greeting is over: it sees it by the answer.
        if is_ready(piece) {
            self.connection.settled.store(true, SeqCst);
        }
        match (&self.connection.stream).write(piece) {
            Ok(n) if n > 0 => Ok(n),
            _ => {
                self.faults = self.faults.saturating_add(1);
                Err(Failed)
            }
        }
    }

    fn finish(&mut self) {
        let _ = self.connection.stream.shutdown(Shutdown::Both);
    }
}

// Whether a piece begins with `ready`, or is a message of a WebSocket that does: the head of a frame from a server has 2,
// 4 or 10 bytes.
fn is_ready(piece: &[u8]) -> bool {
    match piece.first() {
        Some(&TEXT_FRAME) => [2usize, 4, 10].iter().any(|head| piece
            .get(*head..)
            .unwrap_or(&[])
            .starts_with(READY)),
        _ => piece.starts_with(READY),
    }
}
