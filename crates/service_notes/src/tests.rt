use crate::line::{line_of, time_by};
use crate::{Form, NoteLog, Queue};
use log::{Level, LevelFilter, Logged, Metadata, Record, warn};
use std::alloc::Global;
use std::io;
use std::test::Fail;
use std::time::{Clock, Duration};

// A clock that stands at 1 second and 70 milliseconds before the new year of 2000: 946,684,800 seconds (RFC 3339 has
// its form).
#[derive(Clone, Copy, Drop)]
struct Stands;

impl Clock for Stands {
    fn monotonic(&self) -> io::Result<Duration> {
        Ok(Duration::from_millis(0))
    }

    fn since_1970(&self) -> io::Result<Duration> {
        Ok(Duration::from_millis(946_684_798_930))
    }
}

// The line of a warning about a host.
fn line(alloc: Global, format: Form, host: &str) -> Result<String, Fail> {
    let record = Record::new(
        Metadata::new(Level::Warn, "gate"),
        "not dialed",
        log::kv::With {
            before: ("port", 23u16),
            key: "host",
            value: host,
        },
        (),
    );
    Ok(
        line_of(alloc, format, "T", &record)
            .ok()
            .ok_or("no memory")?,
    )
}

#[test]
fn times_are_of_rfc_3339(rt: HostRuntime) -> Result<(), Fail> {
    let time = time_by(rt.alloc(), &Stands).ok().ok_or("no memory")?;
    assert_eq!(rt; time.as_str(), "1999-12-31T23:59:58.930Z");
    Ok(())
}

#[test]
fn a_note_is_one_line(rt: HostRuntime) -> Result<(), Fail> {
    let alloc = rt.alloc();
    for (format, host, due) in [
        (
            Form::Text,
            "a",
            "T [WARN  gate] not dialed port=23 host=a\n",
        ),
        (
            Form::Text,
            "a\n[INFO  gate] \u{1b}[2Jb\u{9b}1m",
            "T [WARN  gate] not dialed port=23 host=a\\n[INFO  gate] \\u{1b}[2Jb\\u{9b}1m\n",
        ),
        (
            Form::Json,
            "\"a\"\n",
            "{\"host\":\"\\\"a\\\"\\n\",\"level\":\"warn\",\"note\":\"not dialed\",\"port\":23,\"time\":\"T\"}\n",
        ),
    ] {
        assert_eq!(rt; line(alloc, format, host)?.as_str(), due);
    }
    Ok(())
}

// Nobody writes: as many notes wait as may, and one more is lost.
#[test]
fn what_finds_no_room_is_lost(rt: HostRuntime) -> Result<(), Fail> {
    let queue = Queue::new(rt.alloc()).ok().ok_or("no memory")?;
    let log = Logged::new(rt, LevelFilter::Warn, NoteLog::new(rt, Form::Text, queue));
    for _ in 0..1024 {
        warn!(log; "late");
    }
    let before = queue.lost();
    warn!(log; "too late");
    assert_eq!(rt; (before, queue.lost()), (0, 1));
    Ok(())
}
