//! One session.

use crate::Traffic;
use gate_model::{Role, Text};
use std::alloc::{AllocError, Global};

/// A session: the host and the port that it dialed, when it began, in seconds since the service did, who is in it, what
/// its link has carried, how many bytes wait for its host, and whether the operator asks that it is ended.
#[derive(Drop)]
pub(crate) struct Row {
    pub(crate) host: Text,
    pub(crate) port: u16,
    pub(crate) began: u64,
    viewers: Vec<(u32, Role)>,
    pub(crate) traffic: Traffic,
    pub(crate) waiting: u64,
    pub(crate) is_asked: bool,
}

impl Row {
    /// A session that begins at a moment, with nobody in it yet.
    pub(crate) fn new(
        alloc: Global,
        host: &str,
        port: u16,
        began: u64,
        traffic: Traffic,
    ) -> Result<Row, AllocError> {
        Ok(Row {
            host: Text::of(String::from_str(alloc, host)?),
            port,
            began,
            viewers: Vec::new(alloc),
            traffic,
            waiting: 0,
            is_asked: false,
        })
    }

    /// A viewer has joined, in a role. Where memory is wanting it isn't in it.
    pub(crate) fn join(&mut self, viewer: u32, role: Role) {
        let _ = self.viewers.push((viewer, role));
    }

    /// A viewer has left.
    pub(crate) fn leave(&mut self, viewer: u32) {
        self.viewers.retain(|(it, _)| *it != viewer);
    }

    /// How many are in it in a role.
    pub(crate) fn count(&self, role: Role) -> u64 {
        let mut count = 0u64;
        for (_, found) in self.viewers.iter() {
            if *found == role {
                count = count.saturating_add(1);
            }
        }
        count
    }
}
