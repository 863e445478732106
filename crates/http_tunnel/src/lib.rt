//! Sessions over plain HTTP requests, after the tunnel of guacamole-common: a request opens a tunnel, and others read
//! what its viewer is given and write what it sends (this project's own profile).
//!
//! What a request asks is `route_of` of `specs/Routes.antt`; the refusals and their statuses are those of http_front.
#![tactic(auto)]

mod acts;
mod answering;
mod connect;
mod giving;
mod read;
mod reading;
mod route;
mod tunnel;
mod write;

pub use answering::tunnel_request;
pub use reading::{TunnelEnd, TunnelRefusal, tunnel_read};
pub use tunnel::Tunnel;
