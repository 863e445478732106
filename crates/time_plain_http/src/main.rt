//! The program `time_plain_http`: a plain server of HTTP on this machine. It answers each request with as many bytes as it is
//! told, and serves one connection after the other. `bench/tunnels` measures it beside the tunnel.
//!
//! Its words are the port, how many connections it serves, and how many bytes a body has. Without words it says so.
#![tactic(auto)]

mod fixed;
mod words;

use crate::fixed::Fixed;
use crate::words::{Words, words_of};
use anyhow::Result;
use http_server::{Config, Connection, serve};
use std::hash::RandomState;
use std::net::{Ipv4Addr, TcpListener, TcpStream};

fn main(rt: HostRuntime) -> Result<()> {
    match words_of(&rt)? {
        Some(words) => serve_all(&rt, &words),
        None => {
            println!(rt; "time_plain_http PORT CONNECTIONS BYTES")?;
            Ok(())
        }
    }
}

// Serves one connection after the other.
fn serve_all(rt: &HostRuntime, words: &Words) -> Result<()> {
    let listener = TcpListener::bind(rt, (Ipv4Addr::LOCALHOST, words.port))?;
    let mut service = Fixed::new(rt.alloc(), words.bytes)?;
    for _ in 0..words.connections {
        let (stream, _peer) = listener.accept()?;
        // A peer that goes away has no answer.
        let _ = serve_one(rt, &stream, &mut service);
    }
    Ok(())
}

fn serve_one(rt: &HostRuntime, stream: &TcpStream, service: &mut Fixed) -> Result<()> {
    let keys = RandomState::new(rt)?;
    let mut connection = Connection::new(rt.alloc(), keys, Config::default());
    let (mut reader, mut writer) = (stream, stream);
    serve(&mut connection, service, &mut reader, &mut writer)?;
    Ok(())
}
