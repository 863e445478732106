use crate::dialing::is_one_machine;
use crate::rules::{Leave, RuleFault, Rules};
use crate::{ChaChaDice, CountClock, ParkBell, TcpNet, ThreadSpawner};
use gate_outside::{
    Bell, Clock, Dialer, Dice, Failed, Helper, Net, Sink, Source, Spawner, ring_after_take,
    wait_for_room, write_all,
};
use std::hint::spin_loop;
use std::net::{IpAddr, Ipv4Addr};
use std::sync::atomic::{AtomicU64, Ordering};
use std::sync::{Arc, Wait};
use std::test::Fail;
use std::thread;
use std::thread::join_mut;
use wake_spot::Spots;

// The first bytes under the key of zeroes: of the nonce of zeroes (the ChaCha authors' vectors, draft-agl-tls-
// chacha20poly1305-04, section 7), and of the nonce 01 00 00 00 00 00 00 00 of the same.
const FIRST: [u8; 16] = [
    0x76, 0xb8, 0xe0, 0xad, 0xa0, 0xf1, 0x3d, 0x90, 0x40, 0x5d, 0x6a, 0xe5, 0x53, 0x86, 0xbd, 0x28,
];

const SECOND: [u8; 16] = [
    0xbd, 0xd2, 0x19, 0xb8, 0xa0, 0x8d, 0xed, 0x1a, 0xa8, 0x36, 0xef, 0xcc, 0x8b, 0x77, 0x0d, 0xc7,
];

const OTHER_STREAM: [u8; 16] = [
    0xef, 0x3f, 0xdf, 0xd6, 0xc6, 0x15, 0x78, 0xfb, 0xf5, 0xcf, 0x35, 0xbd, 0x3d, 0xd3, 0x3b, 0x80,
];

#[test]
fn dice_give_the_words_of_their_stream(rt: HostRuntime) -> Result<(), Fail> {
    let mut dice = ChaChaDice::new([0; 32], 0);
    assert_eq!(rt; dice.bytes(), FIRST);
    assert_eq!(rt; dice.bytes(), SECOND);
    assert_eq!(rt; ChaChaDice::new([0; 32], 1).bytes(), OTHER_STREAM);
    Ok(())
}

#[test]
fn a_clock_counts_its_looks(rt: HostRuntime) -> Result<(), Fail> {
    let mut clock = CountClock::new();
    for moment in [0u64, 1, 2] {
        assert_eq!(rt; clock.now(), moment);
    }
    Ok(())
}

#[test]
fn a_ring_between_a_look_and_a_wait_is_not_missed(rt: HostRuntime) -> Result<(), Fail> {
    let alloc = rt.alloc();
    let bell = ParkBell::new(alloc).ok().ok_or("no memory")?;
    let other = bell.another(alloc).ok().ok_or("no memory")?;
    bell.ring();
    other.wait(&rt);
    bell.wait(&rt);
    let rung = Arc::new(alloc, AtomicU64::new(0))?;
    let seen = Arc::try_clone(&rung)?;
    let inner = rt;
    let waiting = thread::spawn(&rt, move || {
        other.wait(&inner);
        seen.load(Ordering::SeqCst)
    })
    .ok()
    .ok_or("no thread")?;
    rung.store(7, Ordering::SeqCst);
    bell.ring();
    assert_eq!(rt; waiting.join(&rt), 7);
    Ok(())
}

// Waits until a pump sleeps where it waits for room.
fn wait_for_pump<R: Wait>(rt: &R, spots: &Spots) {
    for _ in rt.forever() {
        if spots.room().sleepers() == 1 {
            return;
        }
        spin_loop();
    }
    unreachable!()
}

// What waits for the host once a pump goes on that waited for room, while another thread says first that half of the
// limit waits, and then one byte less.
#[test]
fn a_pump_goes_on_below_half(rt: HostRuntime) -> Result<(), Fail> {
    let bell = ParkBell::new(rt.alloc()).ok().ok_or("no memory")?;
    let (spots, left) = (Spots::new(rt.alloc())?, AtomicU64::new(0));
    spots.tell_output(1_114_112);
    wait_for_room(&rt, &bell, &spots);
    spots.tell_output(1_114_113);
    let (handle, rung, shared, seen) = (&rt, &bell, &spots, &left);
    join_mut(
        &rt,
        &mut || {
            wait_for_room(handle, rung, shared);
            seen.store(shared.output(), Ordering::SeqCst);
        },
        &mut || {
            for bytes in [557_056, 557_055] {
                wait_for_pump(handle, shared);
                shared.tell_output(bytes);
                ring_after_take(rung, shared);
            }
        },
    );
    assert_eq!(rt; left.load(Ordering::SeqCst), 557_055);
    Ok(())
}

#[test]
fn a_pump_goes_on_where_its_session_is_closed(rt: HostRuntime) -> Result<(), Fail> {
    let bell = ParkBell::new(rt.alloc()).ok().ok_or("no memory")?;
    let spots = Spots::new(rt.alloc())?;
    spots.tell_output(2_000_000);
    let (handle, rung, shared) = (&rt, &bell, &spots);
    join_mut(
        &rt,
        &mut || wait_for_room(handle, rung, shared),
        &mut || {
            wait_for_pump(handle, shared);
            shared.tell_closed();
            rung.ring_all(shared);
        },
    );
    assert_eq!(rt; (spots.output(), spots.room().rings()), (2_000_000, 1));
    Ok(())
}

#[test]
fn a_job_runs_in_a_thread(rt: HostRuntime) -> Result<(), Fail> {
    let alloc = rt.alloc();
    let bell = ParkBell::new(alloc).ok().ok_or("no memory")?;
    let other = bell.another(alloc).ok().ok_or("no memory")?;
    let mut spawner = ThreadSpawner::new();
    let started = spawner.start(&rt, move || other.ring()).is_ok();
    bell.wait(&rt);
    assert!(rt; started);
    Ok(())
}

// A link is dialed and accepted, its bytes come, and its reader sees the end once the other side is finished. The net
// doesn't dial itself.
#[test]
fn a_finished_sink_ends_both_reads(rt: HostRuntime) -> Result<(), Fail> {
    let alloc = rt.alloc();
    let mut net = TcpNet::new(rt, IpAddr::V4(Ipv4Addr::LOCALHOST));
    let mut other = TcpNet::new(rt, IpAddr::V4(Ipv4Addr::LOCALHOST));
    let listens = net.listen(alloc, 48_231, [7; 32]).is_ok()
        && other.listen(alloc, 48_232, [8; 32]).is_ok();
    assert!(rt; listens);
    let mut helper = other.helper(alloc).ok().ok_or("no helper")?;
    assert!(rt; helper.dial(alloc, "127.0.0.1", 48_232).is_err());
    let mut second = helper.another(alloc).ok().ok_or("no helper")?;
    let (mut near, mut near_sink) = helper
        .dial(alloc, "localhost", 48_231)
        .ok()
        .ok_or("not dialed")?;
    let (mut far, mut far_sink) = net.accept(&rt).ok().ok_or("not accepted")?;
    let written = write_all(&mut far_sink, b"login: ").is_ok();
    let mut heard = [0u8; 7];
    let mut count = 0usize;
    for _ in 0..7 {
        if count < 7 {
            count += near.read(&mut heard[count..]).unwrap_or(0);
        }
    }
    far_sink.finish();
    let ended = (near.read(&mut [0; 4]), far.read(&mut [0; 4]));
    let drawn = helper.bytes() != second.bytes();
    assert!(rt; written && &heard == b"login: " && ended == (Ok(0), Ok(0)) && drawn);
    near_sink.finish();
    assert!(rt; write_all(&mut far_sink, b"late") == Err(Failed));
    Ok(())
}

// Whether one rule lets an address be dialed at port 23, for a host of that text.
#[test]
fn rules_say_what_may_be_dialed(rt: HostRuntime) -> Result<(), Fail> {
    let alloc = rt.alloc();
    for (rule, text, address, allowed) in [
        ("*", "h", "192.0.2.7", true),
        ("*", "h", "127.0.0.1", false),
        ("*", "h", "::ffff:127.0.0.1", false),
        ("*", "h", "0.0.0.0", false),
        ("10.0.0.0/8", "h", "10.255.0.1", true),
        ("10.0.0.0/8", "h", "11.0.0.1", false),
        ("10.0.0.0/8", "h", "::ffff:10.0.0.1", true),
        ("0.0.0.0/0", "h", "192.0.2.7", true),
        ("fd00::/8", "h", "fd12::1", true),
        ("fd00::/8", "h", "fe80::1", false),
        ("127.0.0.1", "h", "127.0.0.1", true),
        ("127.0.0.1", "h", "127.0.0.2", false),
        ("Gate.example", "gate.EXAMPLE", "127.0.0.1", true),
        ("gate.example", "other.example", "192.0.2.7", false),
    ] {
        let mut rules = Rules::new(alloc);
        assert!(rt; rules.allow(alloc, rule, 23).is_ok());
        let address = address.parse::<IpAddr>().ok().ok_or("no address")?;
        let found = match rules.before_look_up(text, 23) {
            Some(Leave::Named) => true,
            Some(Leave::ByAddress) => rules.allow_address(address, 23),
            None => false,
        };
        assert!(rt; found == allowed, "{rule} {address}");
        assert!(rt; rules.before_look_up(text, 24).is_none());
        assert!(rt; !rules.allow_address(address, 24));
    }
    Ok(())
}

#[test]
fn a_machine_has_more_than_one_loopback_address(rt: HostRuntime) -> Result<(), Fail> {
    for (own, peer, same) in [
        ("127.0.0.1", "127.0.0.1", true),
        ("127.0.0.1", "127.0.0.9", true),
        ("::1", "127.0.0.9", true),
        ("192.0.2.1", "::ffff:192.0.2.1", true),
        ("192.0.2.1", "192.0.2.2", false),
        ("127.0.0.1", "192.0.2.1", false),
    ] {
        let own = own.parse::<IpAddr>().ok().ok_or("no address")?;
        let peer = peer.parse::<IpAddr>().ok().ok_or("no address")?;
        assert!(rt; is_one_machine(own, peer) == same);
    }
    Ok(())
}

#[test]
fn prefixes_of_no_form_are_refused(rt: HostRuntime) -> Result<(), Fail> {
    let alloc = rt.alloc();
    let mut rules = Rules::new(alloc);
    for rule in [
        "10.0.0.0/33",
        "10.0.0/8",
        "fd00::/129",
        "10.0.0.0/",
        "/8",
        "a/8",
    ] {
        assert!(rt;
            rules.allow(alloc, rule, 23) == Err(RuleFault::Form),
            "{rule}"
        );
    }
    Ok(())
}
