//! The refusals of requests, and what each is told with: one table for all who answer.

ghost use Rattle.std.specs.Prelude.{◌≡◌, List, ℕ, Result};
ghost use Rattle.http_front.specs.Refusals.{IsResponse, code_beside, code_of, status_of};
ghost use Rattle.http_front.specs.declared.refusal.Refusal.{Refusal};

use crate::Response;
use gate_model::{Bytes, statuses};
use std::alloc::Global;

/// Why a request is refused.
#[derive(Clone, Copy, Debug, PartialEq, Eq)]
pub enum Refusal {
    /// There is no such path, tunnel, link or session, or the viewer left.
    NotFound,
    /// The query or the body is out of form.
    Form,
    /// The method isn't that of the query.
    Method,
    /// The host couldn't be dialed.
    Dial,
    /// A job couldn't be started.
    Busy,
    /// Four drawn IDs were all there.
    Conflict,
    /// The session's share mode doesn't allow what was asked.
    Forbidden,
    /// Too many viewers are there, or have joined.
    TooMany,
    /// The session was closed, or has as many entries as it may.
    Closed,
    /// Want of memory.
    NoMemory,
}

impl Refusal {
    /// The status of HTTP that it is told with (RFC 9110, section 15; RFC 6585, section 4).
    pub fn status(self) -> u16
        ensures { result ≡ status_of self }
    {
        match self {
            Refusal::NotFound => 404,
            Refusal::Form => 400,
            Refusal::Method => 405,
            Refusal::Dial => 502,
            Refusal::Busy => 503,
            Refusal::Conflict => 409,
            Refusal::Forbidden => 403,
            Refusal::TooMany => 429,
            Refusal::Closed => 410,
            Refusal::NoMemory => 500,
        }
    }

    /// The Guacamole status beside it (the Guacamole manual, "Guacamole protocol reference", status codes).
    pub fn code(self) -> u16
        ensures { result ≡ code_of self }
    {
        match self {
            Refusal::NotFound => statuses::NOT_FOUND,
            Refusal::Form | Refusal::Method => statuses::BAD_REQUEST,
            Refusal::Dial => statuses::UPSTREAM_NOT_FOUND,
            Refusal::Busy => statuses::SERVER_BUSY,
            Refusal::Conflict => statuses::CONFLICT,
            Refusal::Forbidden => statuses::FORBIDDEN,
            Refusal::TooMany => statuses::TOO_MANY,
            Refusal::Closed => statuses::SESSION_CLOSED,
            Refusal::NoMemory => statuses::NO_MEMORY,
        }
    }
}

/// The Guacamole status beside a status of HTTP, where that refuses a request: those of heads and bodies that can't be
/// read (`Incoming::Refused`) are bad requests.
pub fn code_beside(status: u16) -> Option<u16>
    ensures { result ≡ code_beside status }
{
    match status {
        400 | 405 | 413 | 431 | 501 => Some(statuses::BAD_REQUEST),
        403 => Some(statuses::FORBIDDEN),
        404 => Some(statuses::NOT_FOUND),
        409 => Some(statuses::CONFLICT),
        410 => Some(statuses::SESSION_CLOSED),
        429 => Some(statuses::TOO_MANY),
        500 => Some(statuses::NO_MEMORY),
        502 => Some(statuses::UPSTREAM_NOT_FOUND),
        503 => Some(statuses::SERVER_BUSY),
        _ => None,
    }
}

impl Response {
    /// The response of a request that was answered so: 200 with its body, or a refusal without one.
    pub fn of(alloc: Global, answered: Result<Bytes, Refusal>) -> Response
        ensures { IsResponse answered result }
    {
        match answered {
            Ok(body) => Response {
                status: 200,
                code: 0,
                body,
            },
            Err(refusal) => Response {
                status: refusal.status(),
                code: refusal.code(),
                body: Bytes::of(Vec::new(alloc)),
            },
        }
    }
}
