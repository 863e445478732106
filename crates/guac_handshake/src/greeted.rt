use crate::Welcome;

/// How a greeting ended.
#[derive(Drop)]
pub enum Greeted<P> {
    /// The client was told its session.
    Ready(Welcome<P>),
    /// The client was sent `error` with this status.
    Refused(u16),
    /// The source's end came before `connect`.
    Ended,
    /// A read failed.
    ReadFault,
    /// A write failed.
    WriteFault,
    /// Want of memory of the greeting itself.
    NoMemory,
}
