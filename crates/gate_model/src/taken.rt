/// What a take for the Telnet host moved: the number of bytes, and whether the session is closed.
#[derive(Clone, Copy, Debug, PartialEq, Eq)]
pub struct Taken {
    pub count: usize,
    pub closed: bool,
}
