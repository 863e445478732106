use http::Method;

/// A whole request (RFC 9112). The target and the body are parts of the buffer that it was read into.
#[derive(Drop)]
pub struct Request<'a> {
    /// The method.
    pub method: Method,
    /// The target, as it was sent.
    pub target: &'a str,
    /// The body: as many bytes as `Content-Length` says, none without it.
    pub body: &'a [u8],
}

/// What came of reading a request (the statuses and their order are this project's own).
#[derive(Drop)]
pub enum Incoming<'a> {
    /// A whole request.
    Whole(Request<'a>),
    /// What came is refused with this status: 400, 413, 431 or 501.
    Refused(u16),
    /// The source was at its end before a whole request.
    Ended,
    /// A read failed.
    ReadFault,
    /// Want of memory.
    NoMemory,
}
