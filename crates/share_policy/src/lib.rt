//! What a session's share mode lets a joiner do (this project's own rule). The contract cites the
//! table of roles, `grant_of`, in gate_model's `Roles`.
#![tactic(auto)]

ghost use Rattle.std.specs.Prelude.{◌≡◌};
ghost use Rattle.gate_model.specs.session.Roles.{grant_of};

use gate_model::{Asked, Forbidden, Role, Share};

/// The role of a joiner under a share mode (this project's own rule).
///
/// The creator of a session, who asks as `Owner`, types in every mode, and a recorder, which asks as
/// `Keep`, records in every mode. Anybody else gets what was asked, but looks on where the mode is
/// `View`.
///
/// # Errors
///
/// `Forbidden`, exactly where the mode is `Nobody` and `Control` or `View` was asked.
pub fn grant(mode: Share, asked: Asked) -> Result<Role, Forbidden>
    ensures role { result ≡ grant_of mode asked }
{
    match (asked, mode) {
        (Asked::Owner, _) => Ok(Role::Control),
        (Asked::Keep, _) => Ok(Role::Keep),
        (_, Share::Nobody) => Err(Forbidden),
        (Asked::Control, Share::Control) => Ok(Role::Control),
        (Asked::Control, Share::View) | (Asked::View, _) => Ok(Role::View),
    }
}
