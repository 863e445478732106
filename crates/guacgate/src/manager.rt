//! What the service manager of the system is told, where it asks (sd_notify(3)): that the service listens, that it lives,
//! and that it ends.

use libc::net::{AF_UNIX, MSG_DONTWAIT, MSG_NOSIGNAL, SOCK_CLOEXEC, SOCK_DGRAM, sendto, socket};
use std::env;

/// The longest name of a socket (unix(7)).
const MOST: usize = 107;

/// After how many looks it is told once more that the service lives: a second.
const LOOKS: u32 = 4;

/// The address of a service manager, a socket to it, whether it was told that the service listens, and how many looks ago
/// that it lives.
#[derive(Drop)]
pub(crate) struct Manager {
    fd: i32,
    address: [u8; 128],
    size: u32,
    ready: bool,
    looks: u32,
}

impl Manager {
    /// The one that the environment names.
    pub(crate) fn named(rt: &HostRuntime) -> Option<Manager> {
        let name = env::var(rt, "NOTIFY_SOCKET").ok()?;
        let (address, size) = address_of(name.as_str().as_bytes())?;
        let fd = unsafe { socket(AF_UNIX, SOCK_DGRAM | SOCK_CLOEXEC, 0) };
        if fd < 0 {
            return None;
        }
        Some(Manager {
            fd,
            address,
            size,
            ready: false,
            looks: 0,
        })
    }

    /// Tells what is due at a look, at which the service listens or not yet.
    pub(crate) fn look(&mut self, listens: bool) {
        if !listens {
            return;
        }
        self.looks = self.looks.saturating_add(1);
        if !self.ready {
            self.ready = true;
            self.tell("READY=1");
        } else if self.looks >= LOOKS {
            self.looks = 0;
            self.tell("WATCHDOG=1");
        }
    }

    /// Tells that the service ends.
    pub(crate) fn end(&self) {
        self.tell("STOPPING=1");
    }

    // Tells a state, and waits for nobody.
    fn tell(&self, state: &str) {
        let flags = MSG_NOSIGNAL | MSG_DONTWAIT;
        let size = self.size.min(128);
        let _ = unsafe { sendto(self.fd, state.as_bytes(), flags, &self.address, size) };
    }
}

// The address of the socket of a name, and how many bytes of it count. `@` stands for the byte of zero with which a name
// begins that is no file's.
fn address_of(name: &[u8]) -> Option<([u8; 128], u32)> {
    if name.is_empty() || name.len() > MOST {
        return None;
    }
    let mut address = [0u8; 128];
    let [first, second] = (AF_UNIX as u16).to_ne_bytes();
    address[0] = first;
    address[1] = second;
    for (place, byte) in address[2..].iter_mut().zip(name.iter()) {
        *place = *byte;
    }
    if address[2] == b'@' {
        address[2] = 0;
    }
    Some((address, name.len() as u32 + 2))
}
