//! What a request asks.

ghost use Rattle.std.specs.Prelude.{◌≡◌, option_copied};
ghost use Rattle.uuid.specs.Text.{parsed};
ghost use Rattle.share_links.specs.Routes.{asked_by, is_links_path, query_of, route_of};

use http_front::Refusal;
use uuid::Uuid;

/// What a request asks of the links.
#[derive(Clone, Copy, Debug, PartialEq, Eq)]
pub(crate) enum Route {
    /// A link to a session.
    Make,
    /// That nobody may join by this link any more.
    Revoke(Uuid),
    /// Nothing that can be done.
    Refused(Refusal),
}

// The query of a target whose path is `/links`.
fn query_of(target: &[u8]) -> Option<&[u8]>
    ensures { option_copied result ≡ query_of target.now }
{
    if target == b"/links".as_slice() {
        Some(b"")
    } else {
        target.strip_prefix(b"/links?")
    }
}

/// Whether the path of a request's target is `/links`, so that `link_request` answers it.
pub fn is_links_path(target: &str) -> bool
    ensures { result ≡ is_links_path target.now }
{
    query_of(target.as_bytes()).is_some()
}

fn id_in(text: &[u8]) -> Option<Uuid>
    ensures { result ≡ parsed text.now }
{
    match Uuid::try_parse_ascii(text) {
        Ok(id) => Some(id),
        Err(_) => None,
    }
}

fn asked_by(query: &[u8]) -> Option<Route>
    ensures { result ≡ asked_by query.now }
{
    if query == b"make".as_slice() {
        return Some(Route::Make);
    }
    let text = query.strip_prefix(b"revoke:")?;
    Some(Route::Revoke(id_in(text)?))
}

/// What a request with this method and target asks.
pub(crate) fn find_route(method: &[u8], target: &[u8]) -> Route
    ensures { result ≡ route_of method.now target.now }
{
    let Some(query) = query_of(target) else {
        return Route::Refused(Refusal::NotFound);
    };
    let Some(route) = asked_by(query) else {
        return Route::Refused(Refusal::Form);
    };
    if method == b"POST".as_slice() {
        route
    } else {
        Route::Refused(Refusal::Method)
    }
}
