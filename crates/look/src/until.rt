/// Which sync of a stream is asked for: the picture is the one that stands there (this project's own).
#[derive(Clone, Copy, Debug, PartialEq, Eq)]
pub enum Until {
    /// The last one.
    Last,
    /// That of this number, counted from 1, or the last one where there are fewer.
    Frame(u64),
    /// The last one whose stamp is no greater than this.
    Stamp(u64),
}
