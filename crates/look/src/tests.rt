use crate::looked::End;
use crate::looking::look_at;
use crate::running::run;
use crate::until::Until;
use crate::words::asked_of;
use gate_outside::{MemSink, SureSource};
use std::alloc::Global;
use std::test::Fail;

// A screen of two cells: its first frame is black, and the second has a `!` in ink 7 (docs/SCRIPT.md works
// it out by hand).
const TWO: &[u8] =
    b"4.size,1.0,2.16,2.16;4.rect,1.0,1.0,1.0,2.16,2.16;5.cfill,2.14,1.0,1.0,1.0,1.0,3.255;4.sync,1.1;4.rect,1.0,1.3,1.2,1.1,2.10;4.rect,1.0,1.3,2.14,1.1,1.2;5.cfill,2.14,1.0,3.170,3.170,3.170,3.255;4.sync,1.7;";

// What a run shows and tells of an input: the picture, the notes and the status.
fn told(alloc: Global, words: &str, input: &[u8]) -> Result<(Vec<u8>, Vec<u8>, u8), Fail> {
    let mut given = Vec::new(alloc);
    for word in words.split_whitespace() {
        given.push(String::from_str(alloc, word)?)?;
    }
    let asked = asked_of(&given).ok_or("words of no form")?;
    let mut source = SureSource::new(input.to_vec(alloc)?, 7);
    let mut picture = MemSink::new(alloc, 4096, 5, Vec::new(alloc))
        .ok()
        .ok_or("no memory")?;
    let mut notes = MemSink::new(alloc, 4096, 5, Vec::new(alloc))
        .ok()
        .ok_or("no memory")?;
    let status = run(alloc, asked, &mut source, &mut picture, &mut notes)
        .ok()
        .ok_or("stopped")?;
    Ok((
        picture.written().to_vec(alloc)?,
        notes.written().to_vec(alloc)?,
        status,
    ))
}

#[test]
fn the_sync_that_is_asked_for_is_shown(rt: HostRuntime) -> Result<(), Fail> {
    let alloc = rt.alloc();
    let table = [
        (Until::Last, 2, 7),
        (Until::Frame(0), 0, 0),
        (Until::Frame(1), 1, 1),
        (Until::Frame(9), 2, 7),
        (Until::Stamp(0), 0, 0),
        (Until::Stamp(6), 1, 1),
        (Until::Stamp(7), 2, 7),
    ];
    for (until, frame, stamp) in table {
        let looked = look_at(alloc, TWO, until).ok().ok_or("no memory")?;
        assert_eq!(rt;
            (looked.marks.frame, looked.marks.stamp),
            (frame, stamp),
            "at {until:?}"
        );
        assert_eq!(rt; looked.marks.syncs, 2);
        assert_eq!(rt; looked.end, End::Whole);
    }
    Ok(())
}

#[test]
fn a_run_shows_a_text_and_tells_which(rt: HostRuntime) -> Result<(), Fail> {
    let alloc = rt.alloc();
    let table = [
        ("", "", "", "!\n", "frame 2 2\nstamp 7\n", 0),
        ("text frame 1", "", "", "\n", "frame 1 2\nstamp 1\n", 0),
        ("stamp 0", "", "", "", "no frame\n", 0),
        (
            "last",
            "0 ",
            "\n2 4.sync,1.3;\n",
            "!\n",
            "frame 2 2\nstamp 7\n",
            0,
        ),
        (
            "viewer 2",
            "0 ",
            "\n2 4.sync,1.3;\n",
            "",
            "frame 1 1\nstamp 3\n",
            0,
        ),
        ("", "", "4.sy", "!\n", "frame 2 2\nstamp 7\ncut 204\n", 0),
        (
            "",
            "",
            "4xsync",
            "!\n",
            "frame 2 2\nstamp 7\nbad digit 205\n",
            3,
        ),
    ];
    for (words, before, behind, picture, notes, status) in table {
        let mut input = Vec::new(alloc);
        input.extend_from_slice(before.as_bytes())?;
        input.extend_from_slice(TWO)?;
        input.extend_from_slice(behind.as_bytes())?;
        let (shown, note, answer) = told(alloc, words, &input)?;
        assert_eq!(rt; shown.as_slice(), picture.as_bytes(), "at {words} {behind}");
        assert_eq!(rt; note.as_slice(), notes.as_bytes(), "at {words} {behind}");
        assert_eq!(rt; answer, status, "at {words} {behind}");
    }
    Ok(())
}

#[test]
fn a_pixmap_has_the_size_and_three_bytes_a_pixel(rt: HostRuntime) -> Result<(), Fail> {
    let alloc = rt.alloc();
    let stream =
        b"4.size,1.0,1.2,1.1;4.rect,1.0,1.1,1.0,1.1,1.1;5.cfill,2.14,1.0,2.65,2.66,2.67,3.255;4.sync,1.1;";
    let (picture, _notes, status) = told(alloc, "ppm", stream)?;
    assert_eq!(rt; picture.as_slice(), b"P6\n2 1\n255\n\0\0\0ABC".as_slice());
    assert_eq!(rt; status, 0);
    Ok(())
}
