//! What `serve` does.

ghost use Rattle.std.specs.Prelude.{◌≡◌, ◌⊎◌, map, string_bytes};
ghost use Rattle.gate_outside.specs.Edge.{CountsFault};
ghost use Rattle.gate_service.specs.Serving.{IsServeStatus};

use crate::accepting::Service;
use crate::jobs::Links;
use crate::notes::note_listening;
use crate::paging::Page;
use crate::seen::{Seen, WatchedShelf};
use gate_model::NoMemory;
use gate_outside::{DialFault, Net};
use id_table::LockedShelf;
use log::{LevelFilter, Log, Logged};
use page_files::PageFile;
use serve_options::{Names, Options, WordsFault, options_of};
use service_door::Session;
use session_list::SessionList;
use share_links::LinkTable;
use std::alloc::Global;
use std::sync::{Arc, Mutex, Wait};
use std::thread::Threads;
use std::time::Duration;
use thread_pool::Pool;

// How many seconds a thread that has served a connection waits for the next one.
const PATIENCE: u64 = 10;

/// Serves as the words after `serve` say. The statuses: 2, exactly where the words give no options, but for want of
/// memory, and then the net isn't called; 6, want of memory before the first connection; 8, the net failed at
/// `listen` or `accept`. The files are those of the page, what the words want noted is noted to the log, and what runs
/// stands in the list.
pub fn serve<R, N, L>(
    rt: &R,
    alloc: Global,
    words: &[String],
    net: &mut N,
    files: &'static [PageFile],
    log: L,
    list: &SessionList,
) -> u8
where
    R: Threads + Wait + Copy + Send + Sync + Drop + 'static,
    N: Net,
    L: Log + Copy + Send + Drop + 'static,
    ensures served { IsServeStatus (map string_bytes words.now) (net.new ≡ net.old) result }
    ensures faults { CountsFault (result ≡ 8) (N.net_faults net.old) (N.net_faults net.new) }
{
    match options_of(alloc, words) {
        Ok(options) => listen(rt, alloc, options, net, files, log, list),
        Err(WordsFault::Usage) => 2,
        Err(WordsFault::NoMemory) => 6,
    }
}

// Listens, and serves every connection.
fn listen<R, N, L>(
    rt: &R,
    alloc: Global,
    options: Options,
    net: &mut N,
    files: &'static [PageFile],
    log: L,
    list: &SessionList,
) -> u8
where
    R: Threads + Wait + Copy + Send + Sync + Drop + 'static,
    N: Net,
    L: Log + Copy + Send + Drop + 'static,
    ensures statuses { (result ≡ 6) ⊎ (result ≡ 8) }
    ensures faults { CountsFault (result ≡ 8) (N.net_faults net.old) (N.net_faults net.new) }
{
    match net.listen(alloc, options.port, options.seed) {
        Ok(()) => {}
        Err(DialFault::Failed) => return 8,
        Err(DialFault::NoMemory) => return 6,
    }
    let Ok((sessions, tunnels, links)) = tables(alloc, options.silence) else {
        return 6;
    };
    let (Ok(helper), Ok(bell), Ok(list), Ok(page), Ok(pool)) = (
        net.helper(alloc),
        net.bell(alloc),
        list.another(),
        page_of(alloc, files, options.page),
        Pool::new(alloc, Duration::from_secs(PATIENCE)),
    ) else {
        return 6;
    };
    let log = Logged::new(*rt, options.level, log);
    note_listening(&log, options.port, &options.admin);
    let mut service = Service {
        alloc,
        sessions,
        tunnels,
        links,
        helper,
        bell,
        recorder: options.recorder,
        faces: options.faces,
        page,
        log,
        list,
        pool,
    };
    let tells_ends = options.level == LevelFilter::Info || options.admin.is_some();
    service.tidy(rt, options.silence, options.linger, tells_ends);
    accept_all(rt, &mut service, net)
}

// The tables of sessions, of tunnels and of links.
fn tables(
    alloc: Global,
    silence: u32,
) -> Result<(LockedShelf<Session>, WatchedShelf, Links), NoMemory> {
    let sessions = LockedShelf::new(alloc)?;
    let seen = seen_for(alloc, silence)?;
    let tunnels = LockedShelf::new(alloc)?;
    let links = Arc::new(alloc, Mutex::new(LinkTable::new(alloc)))?;
    Ok((sessions, WatchedShelf { tunnels, seen }, links))
}

// Where it is noted when tunnels are asked for, if silent ones are given up.
fn seen_for(alloc: Global, silence: u32) -> Result<Option<Seen>, NoMemory> {
    if silence == 0 {
        return Ok(None);
    }
    Ok(Some(Seen::new(alloc)?))
}

// The page, where it may be asked for by some names.
fn page_of(
    alloc: Global,
    files: &'static [PageFile],
    names: Option<Names>,
) -> Result<Option<Arc<Page, Global>>, NoMemory> {
    match names {
        Some(names) => Ok(Some(Arc::new(alloc, Page { files, names })?)),
        None => Ok(None),
    }
}

// Accepts until that fails, and then stops all sessions.
fn accept_all<R, N, L>(rt: &R, service: &mut Service<N::Help, N::Chime, L>, net: &mut N) -> u8
where
    R: Threads + Wait + Copy + Send + Sync + 'static,
    N: Net,
    L: Log + Copy + Send + Drop + 'static,
    ensures status { result ≡ 8 }
    ensures faults { CountsFault (Unit {0}) (N.net_faults net.old) (N.net_faults net.new) }
{
    for _ in rt.forever() {
        if let Err(status) = service.accept_next(rt, net) {
            service.stop_all(rt);
            return status;
        }
    }
    unreachable!()
}
