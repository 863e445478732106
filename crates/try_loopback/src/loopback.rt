//! The service on the loopback, in a thread of its own.

use crate::stage::{Stage, port_of};
use crate::stoppable::Stoppable;
use anyhow::{Context, Result};
use outside_tcp::TcpNet;
use std::alloc::Global;
use std::net::{IpAddr, Ipv4Addr, TcpListener, TcpStream};
use std::sync::atomic::AtomicBool;
use std::sync::atomic::Ordering::SeqCst;
use std::sync::{Arc, Wait};
use std::thread::{JoinHandle, Threads};
use std::time::Clock;
use std::{net, thread};
use try_services::served;

// Where a service listens, and where its recorder does.
#[derive(Clone, Copy)]
struct Ports {
    service: u16,
    recorder: u16,
}

/// A service that runs in a thread of its own, and whether its net is to fail.
#[derive(Drop)]
pub struct Serving {
    thread: JoinHandle<u8>,
    stopped: Arc<AtomicBool, Global>,
}

impl Serving {
    /// Starts a service at the port of the stage, with the recorder there.
    pub fn start<R>(rt: &R, alloc: Global, stage: &Stage) -> Result<Serving>
    where
        R: net::Net<Listener = TcpListener, Stream = TcpStream>
            + Clock
            + Eprint
            + Threads
            + Wait
            + Copy
            + Send
            + Sync
            + Drop
            + 'static,
    {
        let ports = Ports {
            service: stage.service,
            recorder: port_of(&stage.recorders)?,
        };
        let stopped = flag(alloc)?;
        let thread = start_thread(rt, alloc, ports, &stopped)?;
        Ok(Serving { thread, stopped })
    }

    /// From now on its net fails at the connection that comes next.
    pub fn stop(&self) {
        self.stopped.store(true, SeqCst);
    }

    /// Waits for its end: its status.
    pub fn join<R: Threads>(self, rt: &R) -> u8 {
        let Serving {
            thread,
            stopped: _stopped,
        } = self;
        thread.join(rt)
    }
}

fn flag(alloc: Global) -> Result<Arc<AtomicBool, Global>> {
    Ok(Arc::new(alloc, AtomicBool::new(false))?)
}

fn start_thread<R>(
    rt: &R,
    alloc: Global,
    ports: Ports,
    stopped: &Arc<AtomicBool, Global>,
) -> Result<JoinHandle<u8>>
where
    R: net::Net<Listener = TcpListener, Stream = TcpStream>
        + Clock
        + Eprint
        + Threads
        + Wait
        + Copy
        + Send
        + Sync
        + Drop
        + 'static,
{
    let stopped = Arc::try_clone(stopped)?;
    let inner = *rt;
    thread::spawn(rt, move || serve(&inner, alloc, ports, stopped))
        .ok()
        .context("no thread for the service")
}

/// A service at the port of the hosts, which is taken, ends at once.
pub fn refused<R>(rt: &R, alloc: Global, stage: &Stage) -> Result<()>
where
    R: Print
        + net::Net<Listener = TcpListener, Stream = TcpStream>
        + Clock
        + Eprint
        + Threads
        + Wait
        + Copy
        + Send
        + Sync
        + Drop
        + 'static,
{
    let port = port_of(&stage.hosts)?;
    let ports = Ports {
        service: port,
        recorder: port,
    };
    let status = serve(rt, alloc, ports, flag(alloc)?);
    println!(rt; "at a port that is taken the service ended with {status}")?;
    Ok(())
}

// Serves at the port until it is stopped. The status is 255 where the words of the service couldn't be made.
fn serve<R>(rt: &R, alloc: Global, ports: Ports, stopped: Arc<AtomicBool, Global>) -> u8
where
    R: net::Net<Listener = TcpListener, Stream = TcpStream>
        + Clock
        + Eprint
        + Threads
        + Wait
        + Copy
        + Send
        + Sync
        + Drop
        + 'static,
{
    let net = TcpNet::new(*rt, IpAddr::V4(Ipv4Addr::LOCALHOST));
    match serve_over(rt, alloc, ports, Stoppable::new(net, stopped)) {
        Ok(status) => status,
        Err(_) => 255,
    }
}

fn serve_over<R, N>(rt: &R, alloc: Global, ports: Ports, net: N) -> Result<u8>
where
    R: Eprint + Threads + Wait + Copy + Send + Sync + Drop + 'static,
    N: gate_outside::Net,
{
    let (port, recorder) = addresses(alloc, ports)?;
    let further = ["--port", port.as_str(), "--recorder", recorder.as_str()];
    served(rt, alloc, net, &further)
}

fn addresses(alloc: Global, ports: Ports) -> Result<(String, String)> {
    let Ports { service, recorder } = ports;
    let port = format!(in alloc; "{service}")?;
    let recorder = format!(in alloc; "127.0.0.1:{recorder}")?;
    Ok((port, recorder))
}
