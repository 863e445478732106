//! A desk of 80 columns and 24 rows, and the answers to a list of calls.

ghost use Rattle.std.specs.Prelude.{◌≡◌, ℕ, ◌<◌, ◌≤◌, ◌^◌, get_or, length, IfOk, OnOk};
ghost use Rattle.gate_model.specs.declared.event.Event.{Event as Calls};
ghost use Rattle.gate_model.specs.session.Calls.{MeetsCondition};

use anyhow::{Context, Result, bail};
use desk_core::{Answer, Desk, Event, JoinRefusal, NoMemory, Setup};
use gate_model::{Act, Acts, Asked, Bytes, Cause, Faces, Role, Share, Text};
use std::alloc::Global;
use try_words::{
    asked_of, bytes_of, first_word, is_size, push_escaped, push_hexadecimal, share_of, size,
};

/// The answers to calls, which stand apart by `; ` behind the share mode and the entries that the session
/// may have; then how many entries there are, the newest stamp, how many bytes wait for the host, and the
/// last bytes that were given.
pub fn answers(alloc: Global, input: &str) -> Result<String> {
    let (mode, rest) = first_word(input);
    let (entries, calls) = first_word(rest);
    let mode = share_of(mode)?;
    let entries = entries.parse::<u64>()?;
    let mut desk = opened(alloc, mode, entries)?;
    answers_to(&mut desk, alloc, calls)
}

fn answers_to(desk: &mut Desk, alloc: Global, calls: &str) -> Result<String> {
    let events = events_of(alloc, calls)?;
    answers_of(desk, alloc, &events)
}

fn answers_of(desk: &mut Desk, alloc: Global, events: &[Event]) -> Result<String>
    requires { (i : ℕ) (other : Calls) → i < length events.now → MeetsCondition (get_or events.now i other) }
{
    let mut given = Vec::new(alloc);
    let answers = desk
        .run(alloc, events, &mut given)
        .ok()
        .context("no memory")?;
    told(alloc, desk, answers.as_slice(), &given)
}

/// What is given by calls.
pub fn given(desk: &mut Desk, alloc: Global, calls: &str) -> Result<Vec<u8>> {
    let events = events_of(alloc, calls)?;
    let mut given = Vec::new(alloc);
    let _answers = desk
        .run(alloc, &events, &mut given)
        .ok()
        .context("no memory")?;
    Ok(given)
}

// The answers, what the desk tells then, and the end of what was given.
fn told(alloc: Global, desk: &Desk, answers: &[Answer], given: &[u8]) -> Result<String> {
    let mut text = String::new(alloc);
    for answer in answers {
        push_answer(&mut text, answer)?;
    }
    push_state(&mut text, desk)?;
    text.push_str(if given.is_empty() { "nothing" } else { "" })?;
    push_end(&mut text, given)?;
    Ok(text)
}

/// A desk that was opened so.
pub fn opened(alloc: Global, mode: Share, entries: u64) -> Result<Desk> {
    if entries < 1 || 1 << 40 < entries {
        bail!("no number of entries");
    }
    open(alloc, mode, entries).ok().context("no memory")
}

fn open(alloc: Global, mode: Share, entries: u64) -> Result<Desk, NoMemory>
    requires some { 1 ≤ entries }
    requires few { entries ≤ 2 ^ 40 }
{
    let term = Text::of(String::from_str(alloc, "linux")?);
    let setup = Setup {
        cols: 80,
        rows: 24,
        mode,
        term,
        faces: Faces::Ascii,
        entries,
    };
    Desk::start(alloc, setup, 0)
}

fn events_of(alloc: Global, calls: &str) -> Result<Vec<Event>>
    ensures { IfOk result (λ list. (i : ℕ) (other : Calls) → i < length list.items → MeetsCondition (get_or list.items i other)) }
{
    let mut list = Vec::new(alloc);
    for call in calls.split("; ") {
        add(&mut list, event_of(alloc, call)?)?;
    }
    Ok(list)
}

fn add(list: &mut Vec<Event>, event: Event) -> Result<()>
    requires meets { MeetsCondition event }
    requires all { (i : ℕ) (other : Calls) → i < length list.old.items → MeetsCondition (get_or list.old.items i other) }
    ensures all { OnOk result ((i : ℕ) (other : Calls) → i < length list.new.items → MeetsCondition (get_or list.new.items i other)) }
{
    list.push(event)?;
    Ok(())
}

fn event_of(alloc: Global, call: &str) -> Result<Event>
    ensures { IfOk result MeetsCondition }
{
    let (name, rest) = first_word(call);
    match name {
        "join" => join_of(rest),
        "feed" => feed_of(bytes_of(alloc, rest)?),
        "read" => read_of(rest),
        "write" => write_of(alloc, rest),
        "size" => size_of(rest),
        "take" => take_of(rest),
        "leave" => leave_of(rest),
        "close" => close_of(rest),
        _ => bail!("no call"),
    }
}

fn join_of(word: &str) -> Result<Event>
    ensures { IfOk result MeetsCondition }
{
    let asked = asked_of(word)?;
    Ok(Event::Join { asked })
}

fn read_of(word: &str) -> Result<Event>
    ensures { IfOk result MeetsCondition }
{
    let viewer = word.parse::<u32>()?;
    Ok(Event::Read { viewer })
}

// Another size: the viewer, the columns and the rows.
fn size_of(words: &str) -> Result<Event>
    ensures { IfOk result MeetsCondition }
{
    let (viewer, words) = first_word(words);
    let viewer = viewer.parse::<u32>()?;
    let (cols, rows, _end) = size(words)?;
    if !is_size(cols, rows) {
        bail!("no size");
    }
    Ok(Event::Resize { viewer, cols, rows })
}

fn take_of(word: &str) -> Result<Event>
    ensures { IfOk result MeetsCondition }
{
    let most = word.parse::<u64>()?;
    Ok(Event::Take { most })
}

fn leave_of(word: &str) -> Result<Event>
    ensures { IfOk result MeetsCondition }
{
    let viewer = word.parse::<u32>()?;
    Ok(Event::Leave { viewer })
}

fn close_of(word: &str) -> Result<Event>
    ensures { IfOk result MeetsCondition }
{
    let cause = cause_of(word)?;
    Ok(Event::Close { cause })
}

fn feed_of(bytes: Vec<u8>) -> Result<Event>
    ensures { IfOk result MeetsCondition }
{
    if bytes.is_empty() || 65536 < bytes.len() {
        bail!("no piece");
    }
    let bytes = Bytes::of(bytes);
    Ok(Event::Feed { bytes, now: 0 })
}

// A write of keys: the viewer, and keysyms, with `-` before a release.
fn write_of(alloc: Global, words: &str) -> Result<Event>
    ensures { IfOk result MeetsCondition }
{
    let (viewer, keys) = first_word(words);
    let viewer = viewer.parse::<u32>()?;
    let acts = acts_of(alloc, keys)?;
    if 4096 < acts.len() {
        bail!("too many acts");
    }
    let acts = Acts::of(acts);
    Ok(Event::Write { viewer, acts })
}

fn acts_of(alloc: Global, keys: &str) -> Result<Vec<Act>> {
    let mut acts = Vec::new(alloc);
    for key in keys.split_whitespace() {
        let act = act_of(key)?;
        acts.push(act)?;
    }
    Ok(acts)
}

fn act_of(key: &str) -> Result<Act> {
    if key == "nop" {
        return Ok(Act::Nop);
    }
    let digits = key.strip_prefix("-").unwrap_or(key);
    let keysym = digits.parse::<u32>()?;
    let pressed = digits.len() == key.len();
    Ok(Act::Key { keysym, pressed })
}

fn cause_of(word: &str) -> Result<Cause> {
    match word {
        "end" => Ok(Cause::ServerEnd),
        "fault" => Ok(Cause::LinkFault),
        "stop" => Ok(Cause::Stopped),
        "worn" => Ok(Cause::Worn),
        _ => bail!("no cause"),
    }
}

fn push_answer(text: &mut String, answer: &Answer) -> Result<()> {
    match answer {
        Answer::Feed(fed) => write!(text, "{fed:?}")?,
        Answer::Join(joined) => write!(text, "{joined:?}")?,
        Answer::Read(given) => write!(text, "{given:?}")?,
        Answer::Write(written) => write!(text, "{written:?}")?,
        Answer::Resize(sized) => write!(text, "{sized:?}")?,
        Answer::Leave(left) => write!(text, "{left:?}")?,
        Answer::Close(closed) => write!(text, "{closed:?}")?,
        Answer::Take { bytes, closed } => push_taken(text, bytes.as_slice(), *closed)?,
    }
    text.push_str("; ")?;
    Ok(())
}

fn push_taken(text: &mut String, bytes: &[u8], closed: bool) -> Result<()> {
    text.push_str(if closed { "took, closed, " } else { "took " })?;
    push_hexadecimal(text, bytes)?;
    text.push_str(if bytes.is_empty() { "-" } else { "" })?;
    Ok(())
}

fn push_state(text: &mut String, desk: &Desk) -> Result<()> {
    let (entries, stamp, pending) = (desk.entries(), desk.stamp(), desk.pending());
    write!(
        text,
        "{entries} entries, stamp {stamp}, {pending} wait, newest "
    )?;
    push_end(text, desk.newest_frame())?;
    text.push_str(", given ")?;
    Ok(())
}

// Adds the last bytes.
fn push_end(text: &mut String, bytes: &[u8]) -> Result<()> {
    let start = bytes.len().saturating_sub(14);
    push_escaped(text, bytes.get(start..).unwrap_or(&[]))
}

/// The roles that the desk tells of viewers that join under a share mode.
pub fn roles(alloc: Global, input: &str) -> Result<String> {
    let mode = share_of(input)?;
    let mut desk = opened(alloc, mode, 100)?;
    roles_of(&mut desk, alloc)
}

fn roles_of(desk: &mut Desk, alloc: Global) -> Result<String> {
    let mut text = String::new(alloc);
    for asked in [Asked::Owner, Asked::Control, Asked::View, Asked::Keep] {
        push_role(&mut text, role_of_joiner(desk, alloc, asked))?;
    }
    text.push_str("in all")?;
    Ok(text)
}

fn push_role(text: &mut String, role: Result<Role, JoinRefusal>) -> Result<()> {
    match role {
        Ok(role) => write!(text, "{role:?} ")?,
        Err(refusal) => write!(text, "{refusal:?} ")?,
    }
    Ok(())
}

// The role that the desk tells of a viewer that has just joined.
fn role_of_joiner(desk: &mut Desk, alloc: Global, asked: Asked) -> Result<Role, JoinRefusal> {
    // That the viewer is there follows from what the desk stands for, which this call tells.
    let _entries = desk.entries();
    let joined = desk.join(asked, &mut Vec::new(alloc))?;
    Ok(desk.role(joined.viewer))
}
