//! Who comes while no descriptor is free.

use std::io::{Read, Write};
use std::net::TcpStream;
use std::time::Duration;

// How long it is waited for the first bytes, in milliseconds.
const PATIENCE: u64 = 20;

/// What a client of the Guacamole protocol is told: `error` with 513, as one that no thread can be had for.
const BUSY: &[u8] = b"5.error,11.server busy,3.513;";

/// What a browser is told, by the response of that status.
const BUSY_HTTP: &[u8] =
    b"HTTP/1.1 503 Service Unavailable\r\nContent-Type: text/plain\r\nCache-Control: no-cache\r\nConnection: close\r\nGuacamole-Status-Code: 513\r\nContent-Length: 0\r\n\r\n";

/// Tells who came that the service is too busy, and closes the connection. Its first bytes say which protocol it
/// speaks.
pub(crate) fn turn_away(mut stream: TcpStream) {
    let mut first = [0u8; 4096];
    let _ = stream.set_read_timeout(Some(Duration::from_millis(PATIENCE)));
    let _ = stream.set_write_timeout(Some(Duration::from_millis(PATIENCE)));
    let count = stream.read(&mut first).unwrap_or(0);
    let is_http = count > 0 && !first[0].is_ascii_digit();
    let _ = stream.write(if is_http { BUSY_HTTP } else { BUSY });
}
