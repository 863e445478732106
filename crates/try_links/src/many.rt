//! Many links in one table.

use anyhow::{Context, Result};
use gate_outside::MemDice;
use share_links::LinkTable;
use std::alloc::Global;
use uuid::Uuid;

/// Makes so many links of two uses each, spends one use of each, revokes every second link, and spends again: how many
/// were made, how many different IDs they have, how many gave the first use and how many the second.
pub fn many(alloc: Global, input: &str) -> Result<String> {
    let count = input.parse::<u32>().context("no count")?;
    let mut links = LinkTable::new(alloc);
    let made = made(alloc, &mut links, count)?;
    let first = spent(&mut links, &made);
    revoke_others(&mut links, &made);
    let second = spent(&mut links, &made);
    let (made, different) = (made.len(), different(&made));
    Ok(format!(in alloc; "{made} made, {different} apart, {first} spent, {second} spent again")?)
}

fn made(alloc: Global, links: &mut LinkTable, count: u32) -> Result<Vec<Uuid>> {
    let mut made = Vec::new(alloc);
    for n in 0..count {
        made.push(made_by(alloc, links, n)?)?;
    }
    Ok(made)
}

// A link whose draw begins with this number.
fn made_by(alloc: Global, links: &mut LinkTable, number: u32) -> Result<Uuid> {
    let mut draw = [0u8; 16];
    draw[..4].copy_from_slice(&number.to_be_bytes());
    let mut dice = MemDice::new([draw].to_vec(alloc)?);
    links
        .make(alloc, &mut dice, "$session", false, 2)
        .ok()
        .context("not made")
}

fn spent(links: &mut LinkTable, made: &[Uuid]) -> usize {
    let mut count = 0usize;
    for link in made {
        count = count.saturating_add(usize::from(links.take_use(link)));
    }
    count
}

fn revoke_others(links: &mut LinkTable, made: &[Uuid]) {
    let mut stays = false;
    for link in made {
        if !stays {
            links.revoke(link);
        }
        stays = !stays;
    }
}

// How many IDs aren't that of the link before.
fn different(made: &[Uuid]) -> usize {
    let mut last = Uuid::max();
    let mut count = 0usize;
    for link in made {
        count = count.saturating_add(usize::from(*link != last));
        last = *link;
    }
    count
}
