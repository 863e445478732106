use crate::{LinkRefusal, LinkTable};
use gate_outside::MemDice;
use std::sync::Mutex;
use std::test::Fail;
use std::thread::join;
use uuid::Uuid;

// The bytes 20 to 2f.
const DRAW: [u8; 16] = [
    0x20, 0x21, 0x22, 0x23, 0x24, 0x25, 0x26, 0x27, 0x28, 0x29, 0x2a, 0x2b, 0x2c, 0x2d, 0x2e, 0x2f,
];

#[test]
fn of_two_threads_one_gets_the_use(rt: HostRuntime) -> Result<(), Fail> {
    let alloc = rt.alloc();
    let mut dice = MemDice::new([DRAW].to_vec(alloc)?);
    let mut table = LinkTable::new(alloc);
    let link = table
        .make(alloc, &mut dice, "$session", false, 1)
        .ok()
        .ok_or("not made")?;
    let links = Mutex::new(table);
    let (one, other) = join(
        &rt,
        || links.lock(&rt).take_use(&link),
        || links.lock(&rt).take_use(&link),
    );
    assert!(rt; one != other && !links.lock(&rt).take_use(&link));
    Ok(())
}

#[test]
fn four_equal_draws_make_no_second_link(rt: HostRuntime) -> Result<(), Fail> {
    let alloc = rt.alloc();
    let id = Uuid::parse_str("20212223-2425-4627-a829-2a2b2c2d2e2f")
        .ok()
        .ok_or("no ID")?;
    let mut dice = MemDice::new([DRAW].to_vec(alloc)?);
    let mut links = LinkTable::new(alloc);
    let first = links.make(alloc, &mut dice, "$session", true, 1).ok();
    let second = match links.make(alloc, &mut dice, "$session", true, 1) {
        Err(LinkRefusal::Conflict(drawn)) => drawn == [id; 4],
        _ => false,
    };
    assert!(rt; second && first == Some(id));
    Ok(())
}
