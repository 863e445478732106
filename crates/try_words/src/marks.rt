//! Where texts stand in bytes.

/// The bytes from the last place on where the mark stands, or all of them.
pub fn from_last<'a>(bytes: &'a [u8], mark: &[u8]) -> &'a [u8] {
    let mut found = bytes;
    for at in 0..bytes.len() {
        let (_, rest) = bytes.split_at(at);
        if rest.starts_with(mark) {
            found = rest;
        }
    }
    found
}

/// What stands before the first place of the mark, and what stands behind it.
pub fn split_at_first<'a>(bytes: &'a [u8], mark: &[u8]) -> Option<(&'a [u8], &'a [u8])> {
    for at in 0..bytes.len() {
        let (before, rest) = bytes.split_at(at);
        if let Some(behind) = rest.strip_prefix(mark) {
            return Some((before, behind));
        }
    }
    None
}
