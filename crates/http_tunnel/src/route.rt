//! What a request asks.

ghost use Rattle.std.specs.Prelude.{◌≡◌, ◌≤◌, length, IfSome, option_copied};
ghost use Rattle.uuid.specs.Text.{parsed};
ghost use Rattle.http_tunnel.specs.Routes.{IsAsked, asked_by, digits_after, method_of, query_of, read_id, route_of, without_number};

use http_front::Refusal;
use uuid::Uuid;

/// What a request asks of the tunnels.
#[derive(Clone, Copy, Debug, PartialEq, Eq)]
pub(crate) enum Route {
    /// A tunnel to a session.
    Connect,
    /// What the viewer of this tunnel is given.
    Read(Uuid),
    /// That what the viewer of this tunnel sends be written.
    Write(Uuid),
    /// Nothing that can be done.
    Refused(Refusal),
}

// The query of a target whose path is `/tunnel`.
fn query_of(target: &[u8]) -> Option<&[u8]>
    ensures { option_copied result ≡ query_of target.now }
{
    if target == b"/tunnel".as_slice() {
        Some(b"")
    } else {
        target.strip_prefix(b"/tunnel?")
    }
}

// How many digits stand at the end of a text.
fn digits_after(text: &[u8]) -> usize
    ensures count { result ≡ digits_after text.now }
    ensures bound { result ≤ length text.now }
{
    let mut count = 0;
    for byte in text {
        count = if byte.is_ascii_digit() { count + 1 } else { 0 };
    }
    count
}

// A text without the digits at its end and the `:` before them.
fn without_number(text: &[u8]) -> Option<&[u8]>
    ensures { option_copied result ≡ without_number (digits_after text.now) text.now }
{
    let count = digits_after(text);
    if count == 0 {
        return None;
    }
    text[..text.len() - count].strip_suffix(b":")
}

fn id_in(text: &[u8]) -> Option<Uuid>
    ensures { result ≡ parsed text.now }
{
    match Uuid::try_parse_ascii(text) {
        Ok(id) => Some(id),
        Err(_) => None,
    }
}

fn read_id(text: &[u8]) -> Option<Uuid>
    ensures { result ≡ read_id text.now }
{
    match id_in(text) {
        Some(id) => Some(id),
        None => id_in(without_number(text)?),
    }
}

fn asked_by(query: &[u8]) -> Option<Route>
    ensures asked { result ≡ asked_by query.now }
    ensures kind { IfSome result IsAsked }
{
    if query == b"connect".as_slice() {
        return Some(Route::Connect);
    }
    if let Some(text) = query.strip_prefix(b"read:") {
        return Some(Route::Read(read_id(text)?));
    }
    let text = query.strip_prefix(b"write:")?;
    Some(Route::Write(id_in(text)?))
}

fn method_of(route: &Route) -> &'static [u8]
    ensures { result.now ≡ method_of route.now }
{
    match route {
        Route::Connect | Route::Write(_) => b"POST",
        Route::Read(_) => b"GET",
        Route::Refused(_) => b"",
    }
}

/// What a request with this method and target asks.
pub(crate) fn find_route(method: &[u8], target: &[u8]) -> Route
    ensures route { result ≡ route_of method.now target.now }
    ensures kind { IsAsked result }
{
    let Some(query) = query_of(target) else {
        return Route::Refused(Refusal::NotFound);
    };
    let Some(route) = asked_by(query) else {
        return Route::Refused(Refusal::Form);
    };
    if method == method_of(&route) {
        route
    } else {
        Route::Refused(Refusal::Method)
    }
}
