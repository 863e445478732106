use crate::{AddRefusal, IdTable, LockedShelf, PlainShelf, Shelf};
use gate_outside::MemDice;
use std::test::Fail;
use std::thread;
use uuid::Uuid;

// The bytes 00 to 0f, and the ID that is made of them (RFC 9562, section 5.4).
const DRAW: [u8; 16] = [0, 1, 2, 3, 4, 5, 6, 7, 8, 9, 10, 11, 12, 13, 14, 15];

const ID: &str = "00010203-0405-4607-8809-0a0b0c0d0e0f";

#[test]
fn four_equal_draws(rt: HostRuntime) -> Result<(), Fail> {
    let alloc = rt.alloc();
    let id = Uuid::parse_str(ID).ok().ok_or("no ID")?;
    let mut dice = MemDice::new([DRAW].to_vec(alloc)?);
    let mut table = IdTable::new(alloc);
    let first = table.add(&mut dice, 1u8).ok();
    let second = match table.add(&mut dice, 2) {
        Err(AddRefusal::Conflict(value, drawn)) => value == 2 && drawn == [id; 4],
        _ => false,
    };
    assert!(rt; second && first == Some(id) && table.get(&id) == Some(&1));
    Ok(())
}

#[test]
fn a_table_holds_what_was_added(rt: HostRuntime) -> Result<(), Fail> {
    let alloc = rt.alloc();
    let mut dice = MemDice::new([DRAW, [7; 16]].to_vec(alloc)?);
    let mut table = IdTable::new(alloc);
    let first = table.add(&mut dice, 1u8).ok().ok_or("not added")?;
    let second = table.add(&mut dice, 2).ok().ok_or("not added")?;
    if let Some(value) = table.get_mut(&second) {
        *value = 3;
    }
    let taken = (table.remove(&first), table.remove(&first));
    assert!(rt; taken == (Some(1), None) && table.get(&second) == Some(&3));
    Ok(())
}

#[test]
fn a_lent_value_is_still_there(rt: HostRuntime) -> Result<(), Fail> {
    let alloc = rt.alloc();
    let mut dice = MemDice::new([DRAW].to_vec(alloc)?);
    let mut shelf = PlainShelf::new(alloc);
    let id = shelf.add(&rt, &mut dice, 1u8).ok().ok_or("not added")?;
    let lent = shelf.lend(&rt, &id).ok_or("absent")?;
    let there = shelf.has(&rt, &id) && shelf.is_lent(&id);
    shelf.back(&rt, &id, lent + 1);
    assert!(rt; there && shelf.remove(&rt, &id) == Some(2) && !shelf.has(&rt, &id));
    Ok(())
}

#[test]
fn a_sweep_takes_the_least_that_is_done(rt: HostRuntime) -> Result<(), Fail> {
    let alloc = rt.alloc();
    let mut dice = MemDice::new([[9; 16], [7; 16], [5; 16], [3; 16]].to_vec(alloc)?);
    let mut shelf = PlainShelf::new(alloc);
    let _last = shelf.add(&rt, &mut dice, 9u8).ok().ok_or("not added")?;
    let least = shelf.add(&rt, &mut dice, 7).ok().ok_or("not added")?;
    let _even = shelf.add(&rt, &mut dice, 4).ok().ok_or("not added")?;
    let lent = shelf.add(&rt, &mut dice, 3).ok().ok_or("not added")?;
    let value = shelf.lend(&rt, &lent).ok_or("absent")?;
    let swept = shelf.sweep(|value| *value % 2 == 1);
    let rest = (shelf.has(&rt, &least), shelf.has(&rt, &lent));
    assert!(rt; value == 3 && swept == Some((least, 7)) && rest == (false, true));
    Ok(())
}

#[test]
fn a_sweep_under_the_lock(rt: HostRuntime) -> Result<(), Fail> {
    let alloc = rt.alloc();
    let mut dice = MemDice::new([DRAW].to_vec(alloc)?);
    let mut shelf = LockedShelf::new(alloc).ok().ok_or("no memory")?;
    let id = shelf.add(&rt, &mut dice, 7u8).ok().ok_or("not added")?;
    let swept = (
        shelf.sweep(&rt, |value| *value > 7),
        shelf.sweep(&rt, |value| *value > 6),
    );
    assert!(rt; swept == (None, Some((id, 7))) && !shelf.has(&rt, &id));
    Ok(())
}

#[test]
fn a_second_thread_waits_for_a_lent_value(rt: HostRuntime) -> Result<(), Fail> {
    let alloc = rt.alloc();
    let mut dice = MemDice::new([DRAW].to_vec(alloc)?);
    let mut shelf = LockedShelf::new(alloc).ok().ok_or("no memory")?;
    let id = shelf.add(&rt, &mut dice, 7u8).ok().ok_or("not added")?;
    let lent = shelf.lend(&rt, &id).ok_or("absent")?;
    let mut other = shelf.another();
    let inner = rt.clone()?;
    let waiting = thread::spawn(&rt, move || other.lend(&inner, &id))
        .ok()
        .ok_or("no thread")?;
    shelf.back(&rt, &id, lent.wrapping_add(1));
    assert_eq!(rt; waiting.join(&rt), Some(8));
    Ok(())
}
