//! Laws of links.

ghost use Rattle.share_links.specs.Histories.{RevokedIsFinal, UsesAreCounted};

/// The uses of a link that are granted and those that are left are those that it was made with, after any calls.
pub fn uses_are_counted()
    ensures { UsesAreCounted }
{}

/// Once a link is revoked, no use of it is spent.
pub fn revoked_is_final()
    ensures { RevokedIsFinal }
{}
