use crate::{Ending, Fault, Outside, SessionList, TrafficHelper};
use gate_model::{Cause, Role};
use gate_outside::{
    Dialer, Helper, MemClock, MemDialer, MemDice, MemHelper, MemSink, MemSource, MemSpawner, Sink,
    Source,
};
use std::alloc::Global;
use std::test::Fail;
use uuid::Uuid;

const NAME: &str = "$9ea60be2-58d6-4792-a59f-cd157b5a3bb4";

const ALIKE: &str = "$9ea60be2-58d6-4792-a59f-cd157b5a3bb5";

const OUTSIDE: Outside = Outside {
    descriptors: 3,
    notes: 4,
    turns: 5,
    nanoseconds: 2_000_000_017,
};

fn id_of(name: &str) -> Result<Uuid, Fail> {
    let digits = name.strip_prefix('$').ok_or("no name")?;
    Ok(Uuid::parse_str(digits).ok().ok_or("no ID")?)
}

fn list_of(alloc: Global) -> Result<SessionList, Fail> {
    Ok(SessionList::new(alloc).ok().ok_or("no memory")?)
}

#[test]
fn what_runs_is_told(rt: HostRuntime) -> Result<(), Fail> {
    let list = list_of(rt.alloc())?;
    let traffic = list.traffic().ok().ok_or("no memory")?;
    list.tell_time(100);
    list.begin(&rt, NAME, "a\"b", 23, &traffic, true);
    list.join(&rt, NAME, 3, Role::View);
    list.join(&rt, NAME, 4, Role::Control);
    list.leave(&rt, NAME, 1);
    list.tell_waiting(&rt, &id_of(NAME)?, 9);
    list.tell_time(160);
    let told = list.json(&rt).ok().ok_or("no memory")?;
    assert_eq!(rt;
        told.as_str(),
        "[{\"age\":60,\"bytes_in\":0,\"bytes_out\":0,\"frames\":1,\"host\":\"a\\\"b\",\"port\":23,\"session\":\"9ea60be2\",\"viewers\":{\"look\":1,\"record\":1,\"type\":1},\"waiting\":9}]\n"
    );
    Ok(())
}

#[test]
fn what_came_to_pass_is_counted(rt: HostRuntime) -> Result<(), Fail> {
    let list = list_of(rt.alloc())?;
    let traffic = list.traffic().ok().ok_or("no memory")?;
    list.begin(&rt, NAME, "a", 23, &traffic, false);
    list.begin(
        &rt,
        ALIKE,
        "b",
        24,
        &list.traffic().ok().ok_or("no memory")?,
        true,
    );
    list.tell_waiting(&rt, &id_of(NAME)?, 9);
    list.lose_recorder(&rt, &id_of(ALIKE)?);
    list.end(&rt, &id_of(ALIKE)?, Some(Cause::ServerEnd));
    list.end(&rt, &id_of(ALIKE)?, Some(Cause::ServerEnd));
    list.refuse(519);
    list.fail(Fault::Dial);
    let counts = list.metrics(&rt, &OUTSIDE).ok().ok_or("no memory")?;
    for line in [
        "guacgate_sessions 1\n",
        "guacgate_viewers{role=\"type\"} 1\n",
        "guacgate_viewers{role=\"record\"} 0\n",
        "guacgate_waiting_bytes 9\n",
        "guacgate_sessions_begun_total 2\n",
        "guacgate_sessions_ended_total{end=\"host\"} 1\n",
        "guacgate_viewers_joined_total 3\n",
        "guacgate_frames_total 2\n",
        "guacgate_refused_total{status=\"519\"} 1\n",
        "guacgate_refused_total{status=\"512\"} 0\n",
        "guacgate_faults_total{kind=\"dial\"} 1\n",
        "guacgate_faults_total{kind=\"recorder\"} 1\n",
        "guacgate_faults_total{kind=\"notes\"} 4\n",
        "# TYPE guacgate_turn_seconds summary\n",
        "guacgate_turn_seconds_sum 2.000000017\n",
        "guacgate_turn_seconds_count 5\n",
    ] {
        assert!(rt; counts.as_str().contains(line), "{line}");
    }
    Ok(())
}

#[test]
fn a_session_is_asked_to_end_once(rt: HostRuntime) -> Result<(), Fail> {
    let list = list_of(rt.alloc())?;
    let traffic = list.traffic().ok().ok_or("no memory")?;
    list.begin(&rt, NAME, "a", 23, &traffic, false);
    for (digits, ending) in [
        ("", Ending::Unknown),
        ("9ea60be", Ending::Unknown),
        ("9ea60be2-", Ending::Unknown),
        ("9ea60be2", Ending::Asked),
    ] {
        assert!(rt; list.ask_end(&rt, digits) == ending, "{digits}");
    }
    let id = id_of(NAME)?;
    assert!(rt; list.take_asked(&rt) == Some(id) && list.take_asked(&rt).is_none());
    list.begin(&rt, ALIKE, "a", 23, &traffic, false);
    assert!(rt; list.ask_end(&rt, "9ea60be2") == Ending::Ambiguous);
    assert!(rt; list.take_asked(&rt).is_none());
    assert!(rt; list.ids(&rt).as_slice() == [id, id_of(ALIKE)?].as_slice());
    list.undo(&rt, ALIKE);
    assert!(rt; list.ask_end(&rt, "9ea60be2") == Ending::Asked);
    Ok(())
}

// A link that gives `login: `, three bytes at once.
fn link_of(alloc: Global) -> Result<(MemSource, MemSink), Fail> {
    let bytes = b"login: ".to_vec(alloc)?;
    let sink = MemSink::new(alloc, 99, 2, Vec::new(alloc));
    let sink = sink.ok().ok_or("no memory")?;
    Ok((MemSource::new(bytes, 3, Vec::new(alloc)), sink))
}

// A helper with two such links.
fn helper_of(alloc: Global) -> Result<MemHelper, Fail> {
    let times = [0].to_vec(alloc)?;
    let draws = [[1; 16]].to_vec(alloc)?;
    let mut links = Vec::new(alloc);
    for _ in 0..2 {
        links.push(link_of(alloc)?)?;
    }
    Ok(MemHelper::new(
        MemDialer::new(links, Vec::new(alloc)),
        MemSpawner::new(Vec::new(alloc)),
        MemClock::new(times),
        MemDice::new(draws),
        Vec::new(alloc),
    ))
}

// Reads a link to its end, and writes once.
fn use_link<D: Dialer>(alloc: Global, helper: &mut D) -> Result<usize, Fail> {
    let (mut source, mut sink) = helper
        .dial(alloc, "localhost", 23)
        .ok()
        .ok_or("not dialed")?;
    for _ in 0..4 {
        let _ = source.read(&mut [0; 9]);
    }
    Ok(sink.write(b"root").unwrap_or(0))
}

// Three pieces of 7 bytes in all, and the 2 bytes that the sink takes; the second link isn't counted.
#[test]
fn the_first_link_is_counted(rt: HostRuntime) -> Result<(), Fail> {
    let alloc = rt.alloc();
    let list = list_of(alloc)?;
    let traffic = list.traffic().ok().ok_or("no memory")?;
    let mut helper = TrafficHelper::new(
        helper_of(alloc)?,
        traffic.another().ok().ok_or("no memory")?,
    );
    let written = (use_link(alloc, &mut helper)?, use_link(alloc, &mut helper)?);
    assert!(rt; written == (2, 2) && helper.another(alloc).is_err());
    list.begin(&rt, NAME, "a", 23, &traffic, false);
    let told = list.json(&rt).ok().ok_or("no memory")?;
    for part in ["\"bytes_in\":7,", "\"bytes_out\":2,", "\"frames\":4,"] {
        assert!(rt; told.as_str().contains(part), "{part}");
    }
    let counts = list.metrics(&rt, &OUTSIDE).ok().ok_or("no memory")?;
    assert!(rt; counts.as_str().contains("guacgate_host_bytes_in_total 7\n"));
    Ok(())
}
