//! What an operator allows.

use crate::Rules;

/// The limits of a net besides those that it always has: after how many seconds a peer is given up that sends or takes
/// nothing, of which 0 is never, and what its helpers may dial, where that isn't everything.
#[derive(Drop)]
pub struct Limits {
    pub silence: u32,
    pub rules: Option<Rules>,
}

impl Limits {
    /// No limit.
    pub fn none() -> Limits {
        Limits {
            silence: 0,
            rules: None,
        }
    }
}
