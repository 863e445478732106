use crate::{
    Again, Bell, Clock, Dialer, Dice, Failed, MemBell, MemClock, MemDialer, MemDice, MemSink,
    MemSource, MemSpawner, Sink, Source, Spawner, StdSink, StdSource, SureSource, wait_for_drawing,
    write_all,
};
use gate_model::{Bytes, NoMemory};
use std::alloc::Global;
use std::sync::atomic::{AtomicU64, Ordering};
use std::sync::{Arc, Wait};
use std::test::Fail;
use std::time::Duration;
use wake_spot::{Spot, Spots};

// Reads by `bound` of the trait alone, and appends the bytes of each call, and `!` for a fault.
fn told<S: Source>(seen: &mut Vec<u8>, source: &mut S, calls: usize) -> Result<(), Fail> {
    for _ in 0..calls {
        let mut piece = [0u8; 3];
        match source.read(&mut piece) {
            Ok(n) => seen.extend_from_slice(&piece[..n.min(3)])?,
            Err(Failed) => seen.push(b'!')?,
        }
        seen.push(b'|')?;
    }
    seen.push(b'.')?;
    Ok(())
}

// Tells of a source in memory, and of one that gives `4.key` before it.
fn told_in_memory(alloc: Global, seen: &mut Vec<u8>) -> Result<(), Fail> {
    let mut counted = MemSource::new(b"telnet".to_vec(alloc)?, 2, [2, 5].to_vec(alloc)?);
    told(seen, &mut counted, 6)?;
    let late = MemSource::new(b"telnet".to_vec(alloc)?, 3, [1].to_vec(alloc)?);
    let mut again = Again::new(Bytes::of(b"4.key".to_vec(alloc)?), late);
    told(seen, &mut again, 6)
}

#[test]
fn sources_give_their_bytes_and_fail_where_listed(rt: HostRuntime) -> Result<(), Fail> {
    let alloc = rt.alloc();
    let mut seen = Vec::new(alloc);
    told_in_memory(alloc, &mut seen)?;
    told(
        &mut seen,
        &mut SureSource::new(b"telnet".to_vec(alloc)?, 9),
        3,
    )?;
    told(&mut seen, &mut StdSource::new(b"telnet".as_slice()), 3)?;
    assert_eq!(rt;
        seen.as_slice(),
        b"te|!|ln|et|!||.4.k|ey|!|tel|net||.tel|net||.tel|net||.".as_slice()
    );
    Ok(())
}

#[test]
fn a_sink_in_memory_fails_where_listed_and_where_it_is_full(rt: HostRuntime) -> Result<(), Fail> {
    let alloc = rt.alloc();
    let mut sink = MemSink::new(alloc, 7, 4, [3].to_vec(alloc)?)
        .ok()
        .ok_or("no memory")?;
    let table = [
        (b"drawn".as_slice(), Ok(()), b"drawn".as_slice()),
        (b"x".as_slice(), Err(Failed), b"drawn".as_slice()),
        (b"12".as_slice(), Ok(()), b"drawn12".as_slice()),
        (b"3".as_slice(), Err(Failed), b"drawn12".as_slice()),
    ];
    for (text, answer, held) in table {
        let same = write_all(&mut sink, text) == answer && sink.written() == held;
        assert!(rt; same, "at {text:?}");
    }
    Ok(())
}

#[test]
fn a_sink_over_a_writer_of_std_takes_the_text(rt: HostRuntime) -> Result<(), Fail> {
    let mut sink = StdSink::new(Vec::new(rt.alloc()));
    let same = write_all(&mut sink, b"frames").is_ok()
        && sink.writer.as_slice() == b"frames".as_slice();
    assert!(rt; same);
    Ok(())
}

#[test]
fn dice_in_memory_give_the_last_draw_again(rt: HostRuntime) -> Result<(), Fail> {
    let mut dice = MemDice::new([[1; 16], [2; 16]].to_vec(rt.alloc())?);
    for drawn in [[1u8; 16], [2; 16], [2; 16]] {
        assert_eq!(rt; dice.bytes(), drawn);
    }
    Ok(())
}

#[test]
fn a_dialer_in_memory_fails_where_listed_and_where_it_is_spent(
    rt: HostRuntime,
) -> Result<(), Fail> {
    let alloc = rt.alloc();
    let source = MemSource::new(b"login: ".to_vec(alloc)?, 9, Vec::new(alloc));
    let sink = MemSink::new(alloc, 1, 1, Vec::new(alloc))
        .ok()
        .ok_or("no memory")?;
    let mut links = Vec::new(alloc);
    links.push((source, sink)).ok().ok_or("no memory")?;
    let mut dialer = MemDialer::new(links, [1].to_vec(alloc)?);
    for reached in [false, true, false] {
        assert_eq!(rt; dialer.dial(alloc, "localhost", 23).is_ok(), reached);
    }
    Ok(())
}

#[test]
fn a_spawner_in_memory_runs_its_jobs_in_the_call(rt: HostRuntime) -> Result<(), Fail> {
    let alloc = rt.alloc();
    let ran = Arc::new(alloc, AtomicU64::new(0))?;
    let mut spawner = MemSpawner::new([2].to_vec(alloc)?);
    for (started, runs) in [(true, 1), (false, 1), (true, 2)] {
        let count = Arc::try_clone(&ran)?;
        let job = move || {
            count.fetch_add(1, Ordering::SeqCst);
        };
        let same = spawner.start(&rt, job).is_ok() == started && ran.load(Ordering::SeqCst) == runs;
        assert!(rt; same);
    }
    Ok(())
}

#[test]
fn a_clock_in_memory_gives_the_last_moment_again(rt: HostRuntime) -> Result<(), Fail> {
    let mut clock = MemClock::new([5, 9].to_vec(rt.alloc())?);
    for moment in [5u64, 9, 9] {
        assert_eq!(rt; clock.now(), moment);
    }
    Ok(())
}

#[test]
fn a_sink_keeps_what_it_took_at_its_finish(rt: HostRuntime) -> Result<(), Fail> {
    let mut sink = StdSink::new(Vec::new(rt.alloc()));
    let written = write_all(&mut sink, b"bye").is_ok();
    sink.finish();
    assert!(rt; written && sink.writer.as_slice() == b"bye".as_slice());
    Ok(())
}

#[test]
fn a_bell_in_memory_returns_at_once(rt: HostRuntime) -> Result<(), Fail> {
    let bell = MemBell::new();
    let other = bell.another(rt.alloc()).ok().ok_or("no memory")?;
    other.ring();
    bell.wait(&rt);
    other.wait(&rt);
    assert_eq!(rt; MemClock::new([7].to_vec(rt.alloc())?).now(), 7u64);
    Ok(())
}

// A bell at whose waits with a limit viewer 3 acknowledges two stamps more.
#[derive(Drop)]
struct DrawingBell {
    spots: Arc<Spots, Global>,
    waits: AtomicU64,
}

impl Bell for DrawingBell {
    fn ring(&self) {}

    fn wait<R: Wait>(&self, _rt: &R) {}

    fn another(&self, _alloc: Global) -> Result<DrawingBell, NoMemory> {
        Ok(DrawingBell {
            spots: Arc::try_clone(&self.spots)?,
            waits: AtomicU64::new(0),
        })
    }

    fn wait_at_most<R: Wait>(&self, _rt: &R, spot: &Spot, _seen: u64, _most: Duration) -> bool {
        self.waits.fetch_add(1, Ordering::SeqCst);
        self.spots
            .tell_drawn(3, self.spots.drawn(3).saturating_add(2));
        spot.ring();
        true
    }
}

// How often viewer 3 is waited for, which has acknowledged this stamp and was given a picture of stamp 9.
fn waits_for<R: Wait>(rt: &R, alloc: Global, acknowledged: u64) -> Result<u64, Fail> {
    let spots = Arc::new(alloc, Spots::new(alloc)?)?;
    spots.tell_drawn(3, acknowledged);
    let bell = DrawingBell {
        spots: Arc::try_clone(&spots)?,
        waits: AtomicU64::new(0),
    };
    wait_for_drawing(rt, &bell, &spots, 3, 9);
    Ok(bell.waits.load(Ordering::SeqCst))
}

#[test]
fn a_viewer_is_waited_for_until_it_has_drawn(rt: HostRuntime) -> Result<(), Fail> {
    let alloc = rt.alloc();
    let never = waits_for(&rt, alloc, 0)?;
    let behind = waits_for(&rt, alloc, 4)?;
    let drawn = waits_for(&rt, alloc, 9)?;
    assert_eq!(rt; [never, behind, drawn], [0, 3, 0]);
    Ok(())
}
