//! A service whose answers are all the same.

use bytes::Bytes;
use http::{HeaderValue, Request, header};
use http_server::{Response, Service};
use std::alloc::{AllocError, Global};

/// Answers each request with these bytes, and closes.
#[derive(Drop)]
pub struct Fixed {
    body: Bytes,
}

impl Fixed {
    /// A body of so many bytes.
    pub fn new(alloc: Global, bytes: u32) -> Result<Fixed, AllocError> {
        let mut body = Vec::new(alloc);
        for _ in 0..bytes {
            body.push(b'.')?;
        }
        Ok(Fixed {
            body: Bytes::copy_from_slice(alloc, body.as_slice())?,
        })
    }
}

impl Service for Fixed {
    ghost answers = { λ old request response new. Unit {0} };

    fn call(&mut self, _: &Request<Bytes>, response: &mut Response) -> Result<(), AllocError> {
        let close = HeaderValue::from_static("close");
        response.add_header(header::CONNECTION, close)?;
        response.body.push(self.body.clone()?)
    }
}
