//! Keep-alive on a socket.

use libc::net::{
    IPPROTO_TCP, SO_KEEPALIVE, SOL_SOCKET, TCP_KEEPCNT, TCP_KEEPIDLE, TCP_KEEPINTVL,
    TCP_USER_TIMEOUT, setsockopt,
};
use std::net::TcpStream;
use std::os::fd::AsRawFd;

// After how many seconds without a byte the system looks whether the peer is there, how many seconds apart, and after
// how many looks without an answer it gives up (tcp(7)).
const IDLE: u32 = 30;

const BETWEEN: u32 = 30;

const LOOKS: u32 = 4;

/// Lets the system look whether the peer of an idle connection is there, and give up where it isn't. Where `silence`
/// isn't 0, what was sent and isn't acknowledged for so many seconds ends the connection too.
pub(crate) fn keep(stream: &TcpStream, silence: u32) -> bool {
    let fd = stream.as_raw_fd();
    let kept = unsafe {
        setsockopt(fd, SOL_SOCKET, SO_KEEPALIVE, &value(1), 4) == 0
            && setsockopt(fd, IPPROTO_TCP, TCP_KEEPIDLE, &value(IDLE), 4) == 0
            && setsockopt(fd, IPPROTO_TCP, TCP_KEEPINTVL, &value(BETWEEN), 4) == 0
            && setsockopt(fd, IPPROTO_TCP, TCP_KEEPCNT, &value(LOOKS), 4) == 0
    };
    if silence == 0 {
        return kept;
    }
    let most = silence.saturating_mul(1_000).min(0x7fff_ffff);
    kept && unsafe { setsockopt(fd, IPPROTO_TCP, TCP_USER_TIMEOUT, &value(most), 4) == 0 }
}

// The number as the system reads it.
fn value(number: u32) -> [u8; 16] {
    let mut value = [0u8; 16];
    value[..4].copy_from_slice(&number.to_ne_bytes());
    value
}
