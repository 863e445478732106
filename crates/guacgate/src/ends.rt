//! The ends of the system that a run is given: where it listens, within which limits, and what goes on beside it.

ghost use Rattle.std.specs.Prelude.{◌≡◌, ◌⊎◌, IfErr};

use crate::admin::Office;
use crate::ending::Lookout;
use crate::limits::{Edge, edge_of};
use crate::manager::Manager;
use crate::noting::Notes;
use crate::saying::say;
use crate::serving::{Counter, listener_at};
use outside_tcp::{TcpNet, Watch};
use page_files::PageFile;
use serve_options::Names;
use service_notes::Queue;
use session_list::SessionList;
use std::alloc::Global;
use std::env;
use std::env::VarError;
use std::net::{IpAddr, Ipv4Addr, SocketAddr};
use web_page::page;

/// Whether the words serve, the net, the files of the page, what is seen of the net, the notes, the list of what runs, and
/// what goes on beside: what looks after a service, and the operator's counter, where one is wanted.
#[derive(Drop)]
pub(crate) struct Ends {
    pub(crate) serves: bool,
    pub(crate) net: TcpNet<HostRuntime>,
    pub(crate) files: &'static [PageFile],
    pub(crate) watch: Watch,
    pub(crate) notes: Notes,
    pub(crate) list: SessionList,
    pub(crate) lookout: Lookout,
    pub(crate) counter: Option<Counter>,
}

/// The ends that the words ask for. The status is 2 for what is faulty, 6 where memory is wanting, and 8 where the
/// operator's port can't be listened on.
pub(crate) fn ends_of(rt: &HostRuntime, words: &[String], serves: bool) -> Result<Ends, u8> {
    let address = address(rt)?;
    let Edge {
        limits,
        format,
        admin,
        names,
    } = edge_of(rt, words)?;
    let alloc = rt.alloc();
    let files = page(alloc).map_err(|_| 6)?;
    let notes = Notes::new(format, Queue::new(alloc).map_err(|_| 6)?);
    let (watch, of_net) = watches(alloc)?;
    let list = SessionList::new(alloc).map_err(|_| 6)?;
    let lookout = lookout(rt, &watch, &list, notes, serves)?;
    let counter = counter_at(rt, admin, names, &list, &watch, notes)?;
    Ok(Ends {
        serves,
        net: TcpNet::within(*rt, address, limits, of_net),
        files,
        watch,
        notes,
        list,
        lookout,
        counter,
    })
}

// What is seen of the net, twice.
fn watches(alloc: Global) -> Result<(Watch, Watch), u8> {
    let watch = Watch::new(alloc).map_err(|_| 6)?;
    let of_net = watch.another().map_err(|_| 6)?;
    Ok((watch, of_net))
}

// What looks after a service.
fn lookout(
    rt: &HostRuntime,
    watch: &Watch,
    list: &SessionList,
    notes: Notes,
    serves: bool,
) -> Result<Lookout, u8> {
    Ok(Lookout {
        watch: watch.another().map_err(|_| 6)?,
        notes,
        list: list.another().map_err(|_| 6)?,
        manager: if serves { Manager::named(rt) } else { None },
    })
}

// The operator's counter, if one is wanted.
fn counter_at(
    rt: &HostRuntime,
    place: Option<SocketAddr>,
    names: Option<Names>,
    list: &SessionList,
    watch: &Watch,
    notes: Notes,
) -> Result<Option<Counter>, u8> {
    let Some(place) = place else {
        return Ok(None);
    };
    let office = office(list, watch, notes, names)?;
    let listener = listener_at(rt, place)?;
    Ok(Some(Counter { listener, office }))
}

// What the operator is told of.
fn office(
    list: &SessionList,
    watch: &Watch,
    notes: Notes,
    names: Option<Names>,
) -> Result<Office, u8> {
    watch.count_turns();
    Ok(Office {
        list: list.another().map_err(|_| 6)?,
        watch: watch.another().map_err(|_| 6)?,
        notes,
        names,
    })
}

// Where `serve` listens: at the address that the environment names, else on this machine alone.
fn address(rt: &HostRuntime) -> Result<IpAddr, u8>
    ensures status { IfErr result (λ status. (status ≡ 2) ⊎ (status ≡ 6)) }
{
    match env::var(rt, "GUACGATE_ADDRESS") {
        Ok(text) => address_in(rt, text.as_str()),
        Err(VarError::NotPresent) => Ok(IpAddr::V4(Ipv4Addr::LOCALHOST)),
        Err(VarError::NotUnicode) => address_in(rt, "\u{FFFD}"),
        Err(VarError::OutOfMemory) => Err(6),
    }
}

// The address of the text. What is none is told.
fn address_in(rt: &HostRuntime, text: &str) -> Result<IpAddr, u8>
    ensures status { IfErr result (λ status. (status ≡ 2) ⊎ (status ≡ 6)) }
{
    match text.parse::<IpAddr>() {
        Ok(address) => Ok(address),
        Err(_) => {
            say(rt, "error: GUACGATE_ADDRESS is no IP address");
            Err(2)
        }
    }
}
