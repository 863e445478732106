/// The session's share mode doesn't allow what was asked.
#[derive(Clone, Copy, Debug, PartialEq, Eq)]
pub struct Forbidden;
