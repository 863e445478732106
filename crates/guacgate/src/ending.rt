//! What is looked after while `serve` runs: whether it is asked to end, whether it has to turn away who comes, and what
//! the time is. The service manager is told of it.

ghost use Rattle.std.specs.Prelude.{◌≡◌, ◌⊎◌};

use crate::manager::Manager;
use crate::noting::Notes;
use crate::saying::say_end;
use log::{LevelFilter, Logged, error, warn};
use outside_tcp::Watch;
use session_list::SessionList;
use std::fs::Files;
use std::sync::Wait;
use std::time::{Clock, Duration, Instant};
use std::{fs, io, thread};

/// How often it is looked, in milliseconds.
const PAUSE: u64 = 250;

/// After how many looks it may be told again that connections were refused: ten seconds.
const QUIET: u32 = 40;

/// The signals that ask for the end, as bits of what is pending: SIGINT and SIGTERM, 2 and 15 (signal(7)).
const INT: u64 = 0x0002;

const TERM: u64 = 0x4000;

/// How often it is looked whether connections are still open, and how long is waited between, in milliseconds: five
/// seconds in all.
const LOOKS: u32 = 250;

const BETWEEN: u64 = 20;

/// What a service is looked after by: what is seen of its net, its notes, the list of what runs, and the service manager.
#[derive(Drop)]
pub(crate) struct Lookout {
    pub(crate) watch: Watch,
    pub(crate) notes: Notes,
    pub(crate) list: SessionList,
    pub(crate) manager: Option<Manager>,
}

impl Lookout {
    /// Looks until the process is asked to end, and then ends the net, at SIGINT at once. A signal that the process was
    /// started without, as by `env --block-signal=TERM`, stays pending, and the system tells so; also where the process
    /// is the first of a container, for which the system has no action of its own. Meanwhile the list is told the time,
    /// and the service manager that the service lives.
    pub(crate) fn look_after<R>(self, rt: &R)
    where
        R: Files + AllocGlobal + Clock + Wait + Copy + Drop,
    {
        let Lookout {
            watch,
            notes,
            list,
            mut manager,
        } = self;
        let log = Logged::new(*rt, LevelFilter::Warn, notes.log(rt));
        let (mut told, mut quiet) = (0u64, QUIET);
        let began = Instant::now(rt).ok();
        for _ in rt.forever() {
            thread::sleep(rt, Duration::from_millis(PAUSE));
            tell_time(rt, began, &list);
            let pending = pending(rt);
            tell_manager(&mut manager, watch.is_listening(), pending);
            if pending & INT != 0 {
                return watch.end_at_once();
            }
            if pending & TERM != 0 {
                return watch.end();
            }
            quiet = quiet.saturating_add(1);
            let refused = watch.refused();
            if refused > told && quiet > QUIET {
                warn!(log; "who comes can't be let in, since no descriptor is free");
                (told, quiet) = (refused, 0);
            }
        }
    }
}

// Tells the service manager, where there is one, that the service lives, or ends by one of these signals.
fn tell_manager(manager: &mut Option<Manager>, listens: bool, pending: u64) {
    let Some(manager) = manager else {
        return;
    };
    if pending & (INT | TERM) != 0 {
        manager.end();
    } else {
        manager.look(listens);
    }
}

// Tells the list how many seconds have gone since a moment.
fn tell_time<R: Clock>(rt: &R, began: Option<Instant>, list: &SessionList) {
    if let (Some(began), Ok(now)) = (began, Instant::now(rt)) {
        list.tell_time(now.saturating_duration_since(began).as_secs());
    }
}

/// The status of a run, of `serve` or of other words: a service that was told to end has ended well, once its connections
/// are gone or five seconds have, and of one that ended by a fault it is told which, unless nobody takes its notes.
pub(crate) fn ended<R>(rt: &R, status: u8, serves: bool, watch: &Watch, notes: Notes) -> u8
where
    R: AllocGlobal + Clock + Wait + Eprint + Copy + Drop,
    ensures { (result ≡ status) ⊎ (result ≡ 0) }
{
    if !serves {
        return status;
    }
    if status == 8 && watch.is_ending() {
        wait_for_ends(rt, watch);
        let _ = notes.queue.settle(rt);
        return 0;
    }
    match watch.fault() {
        Some(number) if status == 8 => note_fault(rt, number, notes),
        _ => {
            if notes.queue.settle(rt) {
                say_end(rt, status);
            }
        }
    }
    status
}

// Notes the fault of the system by which the net ended.
fn note_fault<R>(rt: &R, number: i32, notes: Notes)
where
    R: AllocGlobal + Clock + Wait + Copy + Drop,
{
    let log = Logged::new(*rt, LevelFilter::Error, notes.log(rt));
    error!(log; "the port can't be listened on: {}", io::Error::from_raw_os_error(number));
    let _ = notes.queue.settle(rt);
}

// Waits until no connection is open, so that viewers and recorders have their last bytes.
fn wait_for_ends<R: Clock>(rt: &R, watch: &Watch) {
    for _ in 0..LOOKS {
        if watch.open() == 0 || watch.is_hurried() {
            return;
        }
        thread::sleep(rt, Duration::from_millis(BETWEEN));
    }
}

// The signals that are pending.
fn pending<R: Files + Alloc>(rt: &R) -> u64 {
    match fs::read_to_string(rt, "/proc/self/status") {
        Ok(status) => pending_in(status.as_str()),
        Err(_) => 0,
    }
}

// The signals that are pending for the whole process (proc(5)).
fn pending_in(status: &str) -> u64 {
    for line in status.lines() {
        if let Some(bits) = line.strip_prefix("ShdPnd:") {
            return u64::from_str_radix(bits.trim(), 16).unwrap_or(0);
        }
    }
    0
}
