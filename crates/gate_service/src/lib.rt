//! The service: it accepts connections, serves each in a job of its own, and keeps the table of sessions.
//!
//! `connection` is all that it does for one connection: it is a viewer's where its first byte is a digit, and HTTP
//! where it is another. Its contract says what was read and written (`ConnRun` of `specs/Connections.antt`, and of
//! HTTP `HttpRun` of `specs/Requests.antt`), and has what `user_serve::serve_user` says of a viewer's, and
//! `ws_tunnel::ws_serve` of one that comes over a WebSocket. `serve` listens, and serves every connection.
#![tactic(auto)]

mod accepting;
mod jobs;
mod lookahead;
mod messages;
mod notes;
mod noting;
mod paging;
mod refused;
mod refusing;
mod requests;
mod routing;
mod seen;
mod service;
mod tidying;
mod typing;
mod worker;

pub use lookahead::Lookahead;
pub use requests::HttpEnd;
pub use routing::{ConnEnd, connection};
pub use service::serve;
