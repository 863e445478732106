use crate::Role;

/// A viewer joined: its number, its role, and the stamp of the newest frame that it was given.
#[derive(Clone, Copy, Debug, PartialEq, Eq)]
pub struct Joined {
    pub viewer: u32,
    pub role: Role,
    pub stamp: u64,
}
