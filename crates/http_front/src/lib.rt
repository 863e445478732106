//! The plain part of HTTP/1.1 (RFC 9112): whole requests out of a source, and responses into a sink.
//!
//! A request is a head that `httparse` reads, of at most 16,384 bytes and 64 fields, and a body of as many bytes as
//! `Content-Length` says, at most 1,048,576. What bytes make a request, and with which status they are refused
//! else, is `Receives` of `specs/Requests.antt`; what the fields say of the body is `specs/Fields.antt`, and the
//! text of a response `specs/Responses.antt`. Each connection carries one request. Why one is refused, and with which
//! statuses that is told, is the table of `specs/Refusals.antt`.
#![tactic(auto)]

mod head;
mod lengths;
mod reading;
mod refusal;
mod request;
mod response;
mod stop;
mod writing;

pub use reading::read_request;
pub use refusal::{Refusal, code_beside};
pub use request::{Incoming, Request};
pub use response::{ReplyFault, Response};
pub use writing::write_response;
