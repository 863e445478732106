//! Who may open a link: a page of the same origin, or who is no page. A browser tells a page's origin (RFC 6455,
//! section 10.2), and no other client needs to.

use http::{HeaderName, HeaderValue, Request, Response, StatusCode};
use std::alloc::Global;
use std::str;
use tungstenite::handshake::server::{Callback, ErrorResponse};

// The subprotocol of Guacamole's clients.
const SUBPROTOCOL: &str = "guacamole";

/// Refuses a handshake of a page of another origin with 403, and takes the subprotocol of Guacamole where it is offered.
#[derive(Clone, Copy)]
pub(crate) struct SameOrigin {
    pub(crate) alloc: Global,
}

fn value<'a>(request: &'a Request<()>, name: &'static str) -> Option<&'a [u8]> {
    match request.headers().get(name) {
        Some(found) => Some(found.as_bytes()),
        None => None,
    }
}

// The host and the port of an origin, behind its scheme (RFC 6454, section 6.2).
fn host_of(origin: &[u8]) -> &[u8] {
    for at in 0..origin.len() {
        if let Some(host) = origin[at..].strip_prefix(b"://") {
            return host;
        }
    }
    &[]
}

/// Whether this origin is that of a page of this host, or there is none.
pub(crate) fn is_allowed(origin: Option<&[u8]>, host: Option<&[u8]>) -> bool {
    match (origin, host) {
        (None, _) => true,
        (Some(origin), Some(host)) => {
            !host.is_empty() && host_of(origin).eq_ignore_ascii_case(host)
        }
        (Some(_), None) => false,
    }
}

/// Whether the names that are offered, with commas between them, have that of Guacamole (RFC 6455, section 11.3.4).
pub(crate) fn offers_guacamole(names: &[u8]) -> bool {
    match str::from_utf8(names) {
        Ok(names) => names.split(',').any(|name| name.trim() == SUBPROTOCOL),
        Err(_) => false,
    }
}

impl Callback for SameOrigin {
    fn on_request(
        self,
        request: &Request<()>,
        response: Response<()>,
    ) -> Result<Response<()>, ErrorResponse> {
        let mut response = response;
        if !is_allowed(value(request, "origin"), value(request, "host")) {
            // Made anew, since the response that accepts has the fields of an upgrade.
            let mut refusal = Response::new(self.alloc, None);
            *refusal.status_mut() = StatusCode::FORBIDDEN;
            return Err(refusal);
        }
        if value(request, "sec-websocket-protocol").is_some_and(offers_guacamole) {
            let _ = response.headers_mut().insert(
                HeaderName::from_static("sec-websocket-protocol"),
                HeaderValue::from_static(SUBPROTOCOL),
            );
        }
        Ok(response)
    }
}
