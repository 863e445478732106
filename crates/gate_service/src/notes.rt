//! What the service notes. An ID is cut to its first eight digits, so that a note gives nobody a session.

use gate_model::{Cause, Role, Text};
use log::{Log, info, warn};
use uuid::Uuid;

/// The service listens, to the operator too where an address and a port are given for that.
pub(crate) fn note_listening<L: Log>(log: &L, port: u16, admin: &Option<(Text, u16)>) {
    info!(log; port; "listening on port {port}");
    if let Some((address, port)) = admin {
        note_admin(log, address.as_str(), *port);
    }
}

// The operator is listened to.
fn note_admin<L: Log>(log: &L, address: &str, port: u16) {
    info!(log; address, port; "listening for the operator on {address}, port {port}");
}

/// A session of this name has begun.
pub(crate) fn note_begun<L: Log>(log: &L, name: &str) {
    info!(log; session = digits(name); "session ${} has begun", digits(name));
}

/// The session of this name has begun, and its recorder couldn't be had.
pub(crate) fn note_unrecorded<L: Log>(log: &L, name: &str) {
    warn!(log; session = digits(name); "session ${} isn't recorded, since its recorder couldn't be had", digits(name));
}

/// The recorder of a session has ended before it.
pub(crate) fn note_recorder_failed<L: Log>(log: &L, id: &Uuid) {
    let mut buffer = Uuid::encode_buffer();
    let session = first_of(id, &mut buffer);
    warn!(log; session; "session ${session} isn't recorded any more: its recorder has gone, takes nothing, or memory was wanting");
}

/// A job of a session couldn't be started: its recorder's, or one without which it is taken back.
pub(crate) fn note_unstarted<L: Log>(log: &L) {
    warn!(log; "a job of a session couldn't be started");
}

/// The session of this name has begun, and a job of it couldn't be started.
pub(crate) fn note_undone<L: Log>(log: &L, name: &str) {
    warn!(log; session = digits(name); "session ${} was taken back, since a job of it couldn't be started", digits(name));
}

/// A viewer has joined the session of this name, in a role.
pub(crate) fn note_joined<L: Log>(log: &L, name: &str, viewer: u32, role: Role) {
    let role = word_of(role);
    info!(log; session = digits(name), viewer, role; "viewer {viewer} has joined session ${}, to {role}", digits(name));
}

/// Who asked to join the session of this name was refused with a status.
pub(crate) fn note_not_joined<L: Log>(log: &L, name: &str, status: u16) {
    info!(log; session = digits(name), status; "a viewer couldn't join session ${}: it was refused with {status}", digits(name));
}

/// A viewer has left the session of this name.
pub(crate) fn note_visit<L: Log>(log: &L, name: &str, viewer: u32) {
    info!(log; session = digits(name), viewer; "viewer {viewer} of session ${} has left", digits(name));
}

/// The host and the port of the session of this name were dialed.
pub(crate) fn note_dialed<L: Log>(log: &L, name: &str, host: &str, port: u16) {
    info!(log; session = digits(name), host, port; "session ${} dialed {host:?}, port {port}", digits(name));
}

/// The host and the port couldn't be dialed, or may not be.
pub(crate) fn note_undialed<L: Log>(log: &L, host: &str, port: u16) {
    warn!(log; host, port; "{host:?}, port {port}, couldn't be dialed");
}

/// No session could be begun to the host and the port: who asked was refused with a status.
pub(crate) fn note_unbegun<L: Log>(log: &L, host: &str, port: u16, status: u16) {
    warn!(log; host, port, status; "no session could be begun to {host:?}, port {port}: it was refused with {status}");
}

/// A session is closed, since nobody has been in it for as long as it may.
pub(crate) fn note_deserted<L: Log>(log: &L, id: &Uuid) {
    let mut buffer = Uuid::encode_buffer();
    let session = first_of(id, &mut buffer);
    info!(log; session; "session ${session} is closed, since nobody was in it");
}

/// A session is closed, since more waits for its host than may.
pub(crate) fn note_backlogged<L: Log>(log: &L, id: &Uuid) {
    let mut buffer = Uuid::encode_buffer();
    let session = first_of(id, &mut buffer);
    warn!(log; session; "session ${session} is closed, since its host takes nothing of what waits for it");
}

/// A session is closed, since the operator asks that.
pub(crate) fn note_asked<L: Log>(log: &L, id: &Uuid) {
    let mut buffer = Uuid::encode_buffer();
    let session = first_of(id, &mut buffer);
    info!(log; session; "session ${session} is closed, since the operator asks that");
}

/// A tunnel was removed that nobody asked for as long as it may.
pub(crate) fn note_silent<L: Log>(log: &L) {
    info!(log; "a tunnel without requests was removed");
}

/// Another site's page asked.
pub(crate) fn note_foreign<L: Log>(log: &L) {
    warn!(log; "a request of another site's page was refused with 403");
}

/// A request came by a name that isn't this machine's.
pub(crate) fn note_unknown<L: Log>(log: &L) {
    warn!(log; "a request by a name that isn't given was refused with 403");
}

/// The job that gives up what nobody uses couldn't be started.
pub(crate) fn note_untidied<L: Log>(log: &L) {
    warn!(log; "nothing that is silent is given up, since the job for it couldn't be started");
}

/// A session is closed, for a cause.
pub(crate) fn note_closed<L: Log>(log: &L, id: &Uuid, cause: Cause) {
    let mut buffer = Uuid::encode_buffer();
    let session = first_of(id, &mut buffer);
    let (end, why) = told(Some(cause));
    info!(log; session, end; "session ${session} is closed: {why}");
}

/// A session has left the table, with so many entries, for a cause, where it is known.
pub(crate) fn note_end<L: Log>(log: &L, id: &Uuid, entries: u64, cause: Option<Cause>) {
    let mut buffer = Uuid::encode_buffer();
    let session = first_of(id, &mut buffer);
    let (end, why) = told(cause);
    info!(log; session, entries, end; "session ${session} has ended, after {entries} entries: {why}");
}

// A cause in a word, and told to people.
fn told(cause: Option<Cause>) -> (&'static str, &'static str) {
    match cause {
        Some(Cause::ServerEnd) => ("host", "its host ended the connection"),
        Some(Cause::LinkFault) => ("fault", "the connection to its host failed"),
        Some(Cause::Stopped) => ("stopped", "it was stopped"),
        Some(Cause::Worn) => ("full", "it had as many entries as it may have"),
        None => ("unknown", "nobody knows why"),
    }
}

// What a role lets a viewer do.
fn word_of(role: Role) -> &'static str {
    match role {
        Role::Control => "type",
        Role::View => "look",
        Role::Keep => "record",
    }
}

/// A connection couldn't be served.
pub(crate) fn note_refused<L: Log>(log: &L, status: u16) {
    warn!(log; status; "a connection was refused with {status}");
}

// The first eight digits of a name, behind its `$`.
fn digits(name: &str) -> &str {
    name.get(1..9).unwrap_or("")
}

// The first eight digits of an ID, which is written into the buffer.
fn first_of<'a>(id: &Uuid, buffer: &'a mut [u8; 45]) -> &'a str {
    id.hyphenated().encode_lower(buffer).get(..8).unwrap_or("")
}
