use crate::{
    Bytes, Closed, FeedRefusal, JoinRefusal, Joined, NoViewer, ReadAnswer, ReadRefusal,
    ResizeRefusal, WriteRefusal, Written,
};

/// The answer to an [`Event`](crate::Event).
#[derive(Drop)]
pub enum Answer {
    /// The stamp of the frame that was made.
    Feed(Result<u64, FeedRefusal>),
    /// The viewer that joined.
    Join(Result<Joined, JoinRefusal>),
    /// What the viewer was given.
    Read(Result<ReadAnswer, ReadRefusal>),
    /// How many keys count, and how many were denied.
    Write(Result<Written, WriteRefusal>),
    /// The stamp of the frame that was made.
    Resize(Result<u64, ResizeRefusal>),
    /// The bytes that were taken, and whether the session is closed.
    Take { bytes: Bytes, closed: bool },
    /// The viewer left.
    Leave(Result<(), NoViewer>),
    /// The session was closed.
    Close(Result<(), Closed>),
}
