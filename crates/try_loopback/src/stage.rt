//! Where the trials on the loopback happen.

use anyhow::Result;
use std::net::{Ipv4Addr, TcpListener};

/// The port of the service, and the listeners of the Telnet hosts and of the recorders, on this machine.
#[derive(Drop)]
pub struct Stage {
    pub service: u16,
    pub hosts: TcpListener,
    pub recorders: TcpListener,
}

impl Stage {
    /// Listeners at free ports, and a port on which nothing listens.
    pub fn new(rt: &HostRuntime) -> Result<Stage> {
        let hosts = listener(rt)?;
        let recorders = listener(rt)?;
        let service = free_port(rt)?;
        Ok(Stage {
            service,
            hosts,
            recorders,
        })
    }
}

fn listener(rt: &HostRuntime) -> Result<TcpListener> {
    Ok(TcpListener::bind(rt, (Ipv4Addr::LOCALHOST, 0))?)
}

fn free_port(rt: &HostRuntime) -> Result<u16> {
    let listener = listener(rt)?;
    port_of(&listener)
}

/// The port at which the listener is.
pub fn port_of(listener: &TcpListener) -> Result<u16> {
    Ok(listener.local_addr()?.port())
}
