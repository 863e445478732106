//! Sessions that are shared, called through their passes, and end.

ghost use Rattle.std.specs.Prelude.{◌≡◌};

use crate::workers::type_key;
use anyhow::{Result, bail};
use gate_model::{Asked, Cause};
use shared_desk::{AnyPass, Closed, HostPass, Place, WriterPass, end_session};
use std::alloc::Global;
use std::sync::Wait;
use std::thread::{Threads, join_mut};
use try_sessions::{Screen, give_back, joined, opened};

// How many keys a viewer types.
const KEYS: u32 = 100;

/// Two viewers type 100 keys each, in two threads at one desk, and each key stands once in its history: how many
/// entries it has, how many bytes wait for the host, and how many of them are each viewer's.
pub fn two_writers<R: Threads + Wait + Sync>(rt: &R, alloc: Global) -> Result<String> {
    let mut host = opened(alloc, Screen::Small)?;
    let Ok((one, _first)) = joined(rt, alloc, &mut host, Asked::Owner) else {
        bail!("not joined");
    };
    let Ok((two, _first)) = joined(rt, alloc, &mut host, Asked::Control) else {
        bail!("not joined");
    };
    let (mut a, mut b) = (one.writer, two.writer);
    type_at_once(rt, alloc, &mut a, &mut b);
    give_back(&mut host, one.reader, a);
    give_back(&mut host, two.reader, b);
    told_at_end(rt, alloc, host)
}

// What the desk of a session that ends tells.
fn told_at_end<R: Wait>(rt: &R, alloc: Global, host: HostPass) -> Result<String> {
    let Ok(mut desk) = end_session(rt, host) else {
        bail!("a pass is out");
    };
    let (entries, pending) = (desk.entries(), desk.pending());
    let mut bytes = [0u8; 300];
    let count = desk.take(&mut bytes).count;
    let ones = bytes.iter().filter(|byte| **byte == b'a').count();
    let twos = bytes.iter().filter(|byte| **byte == b'b').count();
    Ok(format!(in alloc; "{entries} entries, {pending} pending, {count} taken, {ones} and {twos}")?)
}

// Types 100 keys.
fn type_often<R: Wait>(rt: &R, alloc: Global, pass: &mut WriterPass, keysym: u32)
    ensures { pass.new.session ≡ pass.old.session }
{
    for _ in 0..KEYS {
        let _ = type_key(rt, alloc, pass, keysym);
    }
}

// Types 100 keys at each pass, in two threads.
fn type_at_once<R: Threads + Wait + Sync>(
    rt: &R,
    alloc: Global,
    one: &mut WriterPass,
    two: &mut WriterPass,
)
    ensures one { one.new.session ≡ one.old.session }
    ensures two { two.new.session ≡ two.old.session }
{
    join_mut(
        rt,
        &mut || type_often(rt, alloc, one, 97),
        &mut || type_often(rt, alloc, two, 98),
    );
}

/// A session doesn't end while a reader's pass is out: how many are, and whether it ends once none is.
pub fn a_pass_still_out<R: Wait>(rt: &R, alloc: Global) -> Result<String> {
    let mut host = opened(alloc, Screen::Small)?;
    let Ok((place, _first)) = joined(rt, alloc, &mut host, Asked::Owner) else {
        bail!("not joined");
    };
    let Place {
        reader,
        writer,
        role: _,
    } = place;
    host.give(AnyPass::Writer(writer));
    let Err(mut still) = end_session(rt, host) else {
        bail!("the session has ended");
    };
    let out = still.out;
    still.host.give(AnyPass::Reader(reader));
    let ended = end_session(rt, still.host).is_ok();
    Ok(format!(in alloc; "{out} out, then ended: {ended}")?)
}

/// The passes of the link are given once.
pub fn a_second_link(alloc: Global) -> Result<String> {
    let mut host = opened(alloc, Screen::Small)?;
    let first = host.link().is_some();
    let second = host.link().is_some();
    Ok(format!(in alloc; "given: {first}, then {second}")?)
}

/// The first close counts.
pub fn a_second_close<R: Wait>(rt: &R, alloc: Global) -> Result<String> {
    let mut host = opened(alloc, Screen::Small)?;
    let first = host.close(rt, Cause::Stopped).is_ok();
    let Err(Closed { cause }) = host.close(rt, Cause::ServerEnd) else {
        bail!("closed twice");
    };
    Ok(format!(in alloc; "closed: {first}, then {cause:?}")?)
}
