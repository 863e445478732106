//! Descriptors in reserve.

use std::alloc::Global;
use std::net::TcpListener;
use std::sync::{Mutex, Wait};

/// How many descriptors are kept for dials, and to tell who comes where all others are taken.
const MOST: usize = 16;

// The numbers of the faults at which no descriptor is free: in this process and in the system (errno(3)).
const EMFILE: i32 = 24;

const ENFILE: i32 = 23;

/// Whether a fault of the system is want of a descriptor.
pub(crate) fn is_want(code: Option<i32>) -> bool {
    code == Some(EMFILE) || code == Some(ENFILE)
}

/// Descriptors that are taken so that they can be given up.
#[derive(Drop)]
pub(crate) struct Spares {
    held: Mutex<Vec<TcpListener>>,
}

impl Spares {
    /// None yet.
    pub(crate) fn new(alloc: Global) -> Spares {
        Spares {
            held: Mutex::new(Vec::new(alloc)),
        }
    }

    /// Takes as many of the listener as are wanting. Whether all are there.
    pub(crate) fn fill<R: Wait>(&self, rt: &R, listener: &TcpListener) -> bool {
        let mut held = self.held.lock(rt);
        for _ in held.len()..MOST {
            let Ok(spare) = listener.try_clone() else {
                return false;
            };
            if held.push(spare).is_err() {
                return false;
            }
        }
        true
    }

    /// Gives one up, if there is one.
    pub(crate) fn give_up<R: Wait>(&self, rt: &R) -> bool {
        self.held.lock(rt).pop().is_some()
    }
}
