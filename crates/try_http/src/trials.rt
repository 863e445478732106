//! Requests of random bytes: some of the tunnel's own, some changed at a few places, and some of any bytes.

use crate::exchange::exchange;
use crate::service::Service;
use crate::steps::begun;
use anyhow::{Context, Result};
use std::alloc::Global;
use std::str;
use std::sync::Wait;
use std::thread::Threads;
use try_words::{Random, numbers, split_at_first};

static METHODS: [&[u8]; 6] = [b"GET ", b"GET ", b"POST ", b"POST ", b"PUT ", b"G@T "];

static TARGETS: [&[u8]; 10] = [
    b"/tunnel?connect",
    b"/tunnel?connect",
    b"/tunnel?read:10111213-1415-4617-9819-1a1b1c1d1e1f",
    b"/tunnel?read:10111213-1415-4617-9819-1a1b1c1d1e1f:12",
    b"/tunnel?write:10111213-1415-4617-9819-1a1b1c1d1e1f",
    b"/tunnel?write:10111213-1415-4617-9819-1a1b1c1d1e1f",
    b"/tunnel?read:10111213-1415-4617-9819-1a1b1c1d1e20",
    b"/tunnel?write:1",
    b"/tunnel",
    b"/other",
];

static FIELDS: [&[u8]; 6] = [
    b"Host: localhost\r\n",
    b"Transfer-Encoding: chunked\r\n",
    b"Content-Length: x\r\n",
    b"Content-Length: 3\r\n",
    b"Content-Length: 1048577\r\n",
    b"a:b\r\na:b\r\na:b\r\na:b\r\na:b\r\na:b\r\na:b\r\na:b\r\na:b\r\na:b\r\n",
];

static BODIES: [&[u8]; 8] = [
    b"",
    b"hostname=localhost&port=23&sharing=control",
    b"hostname=localhost&port=0",
    b"id=$00010203-0405-4607-8809-0a0b0c0d0e0f",
    b"3.key,2.97,1.1;3.key,2.97,1.0;",
    b"5.mouse,1.1,1.2,1.0;4.sync,1.1;3.nop;",
    b"3.key,2.97,1.1;10.disconnect;",
    b"3.key,2.97,1.1",
];

/// How many of as many requests as the second number says, from the seed that is the first, are answered by one
/// whole response or by nothing.
pub fn trials<R: Threads + Wait + Copy + Send + 'static>(
    rt: &R,
    alloc: Global,
    input: &str,
) -> Result<String> {
    let (seed, count) = seed_and_count(alloc, input)?;
    let answered = try_all(rt, alloc, seed, count)?;
    Ok(format!(in alloc; "{answered}")?)
}

fn seed_and_count(alloc: Global, input: &str) -> Result<(u32, u32)> {
    let numbers = numbers(alloc, input)?;
    let seed = numbers.first().context("no seed")?;
    let count = numbers.get(1).context("no number")?;
    Ok((*seed, *count))
}

fn try_all<R: Threads + Wait + Copy + Send + 'static>(
    rt: &R,
    alloc: Global,
    seed: u32,
    count: u32,
) -> Result<u32> {
    let mut random = Random::new(u64::from(seed));
    let mut service = begun(rt, alloc, "control")?;
    let mut answered = 0u32;
    for _ in 0..count {
        if try_one(rt, alloc, &mut random, &mut service)? {
            answered = answered.saturating_add(1);
        }
    }
    Ok(answered)
}

// Whether one request is answered by one whole response or by nothing.
fn try_one<R: Threads + Wait + Copy + Send + 'static>(
    rt: &R,
    alloc: Global,
    random: &mut Random,
    service: &mut Service,
) -> Result<bool> {
    let bytes = bytes_to_try(alloc, random)?;
    let piece = random.below(100) as usize;
    match exchange(rt, alloc, service, &bytes, piece)? {
        Some(answered) => Ok(is_one_response(&answered.text)),
        None => Ok(true),
    }
}

fn is_one_response(text: &[u8]) -> bool {
    let Some((head, body)) = split_at_first(text, b"\r\n\r\n") else {
        return false;
    };
    let Some((_, length)) = split_at_first(head, b"\r\nContent-Length: ") else {
        return false;
    };
    let length = str::from_utf8(length)
        .ok()
        .and_then(|text| text.parse::<usize>().ok());
    head.starts_with(b"HTTP/1.1 ") && length == Some(body.len())
}

fn bytes_to_try(alloc: Global, random: &mut Random) -> Result<Vec<u8>> {
    let mut bytes = Vec::new(alloc);
    match random.below(8) {
        0 => push_any(&mut bytes, random)?,
        1 | 2 | 3 => {
            push_request(alloc, &mut bytes, random)?;
            change(&mut bytes, random);
        }
        _ => push_request(alloc, &mut bytes, random)?,
    }
    Ok(bytes)
}

// A request: one in four has a field that may be wrong, and one in eight no length of its body.
fn push_request(alloc: Global, bytes: &mut Vec<u8>, random: &mut Random) -> Result<()> {
    let body = BODIES[random.below(8) as usize];
    bytes.extend_from_slice(METHODS[random.below(6) as usize])?;
    bytes.extend_from_slice(TARGETS[random.below(10) as usize])?;
    bytes.extend_from_slice(b" HTTP/1.1\r\n")?;
    if random.below(4) == 0 {
        push_fields(bytes, random)?;
    }
    if random.below(8) > 0 {
        let size = body.len();
        let line = format!(in alloc; "Content-Length: {size}\r\n")?;
        bytes.extend_from_slice(line.as_str().as_bytes())?;
    }
    bytes.extend_from_slice(b"\r\n")?;
    bytes.extend_from_slice(body)?;
    Ok(())
}

// One field, up to eight times.
fn push_fields(bytes: &mut Vec<u8>, random: &mut Random) -> Result<()> {
    let field = FIELDS[random.below(6) as usize];
    for _ in 0..1 + random.below(8) {
        bytes.extend_from_slice(field)?;
    }
    Ok(())
}

// Up to 200 bytes.
fn push_any(bytes: &mut Vec<u8>, random: &mut Random) -> Result<()> {
    for _ in 0..random.below(200) {
        bytes.push(random.below(256) as u8)?;
    }
    Ok(())
}

// Changes up to four bytes, and cuts one in four.
fn change(bytes: &mut Vec<u8>, random: &mut Random) {
    for _ in 0..random.below(5) {
        let at = random.below(200) as usize;
        if let Some(byte) = bytes.get_mut(at) {
            *byte = random.below(256) as u8;
        }
    }
    if random.below(4) == 0 {
        bytes.truncate(random.below(200) as usize);
    }
}
