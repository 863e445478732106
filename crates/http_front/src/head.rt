//! The head of a request, among the bytes that came.

ghost use Rattle.std.specs.Prelude.{◌≡◌, ◌≤◌, length};
ghost use Rattle.http_front.specs.Requests.{IsWholeHead, Judges};

use crate::lengths::{body_length, is_encoded, length_said};
use httparse::spans::{EMPTY_HEADER_SPAN, HeaderSpan, RequestSpans, Span, parse_request};
use httparse::{Error, Status};

/// The most bytes of a head (this project's own).
pub(crate) const MOST_HEAD: usize = 16_384;

/// The most fields of a head (this project's own).
const MOST_FIELDS: usize = 64;

/// Where the parts of a head are, and its body.
#[derive(Clone, Copy)]
pub(crate) struct Head {
    pub method: Span,
    pub target: Span,
    /// Where the body begins.
    pub body: usize,
    /// The number of the body's bytes.
    pub size: usize,
}

/// What is said of bytes of which more may come.
#[derive(Clone, Copy)]
pub(crate) enum Judged {
    /// No head is whole.
    More,
    /// A head is whole, and taken.
    Taken(Head),
    /// They are refused with this status.
    Refused(u16),
}

/// Looks for a head at the front of the bytes.
pub(crate) fn judge(bytes: &[u8]) -> Judged
    ensures { Judges bytes.now result }
{
    let mut fields = [EMPTY_HEADER_SPAN; MOST_FIELDS];
    match parse_request(bytes, &mut fields) {
        Ok(Status::Complete(spans)) => taken(bytes, &spans, &fields[..spans.headers]),
        Ok(Status::Partial) => Judged::More,
        Err(Error::TooManyHeaders) => Judged::Refused(431),
        Err(_) => Judged::Refused(400),
    }
}

// A head that is whole is taken, or its fields are refused.
fn taken(bytes: &[u8], spans: &RequestSpans, fields: &[HeaderSpan]) -> Judged
    requires { IsWholeHead bytes.now fields.now spans.now }
    ensures { Judges bytes.now result }
{
    let said = length_said(bytes, fields);
    let encoded = is_encoded(bytes, fields);
    match body_length(said, encoded) {
        Ok(size) => Judged::Taken(Head {
            method: spans.method,
            target: spans.path,
            body: spans.len,
            size,
        }),
        Err(status) => Judged::Refused(status),
    }
}
