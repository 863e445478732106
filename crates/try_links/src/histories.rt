//! What a list of calls leaves of one link.

use anyhow::{Context, Result, bail};
use gate_outside::MemDice;
use share_links::LinkTable;
use std::alloc::Global;
use try_words::first_word;
use uuid::Uuid;

// Every draw.
const DRAW: [u8; 16] = [7; 16];

// How often a link is spent at most, to find how many uses are left.
const MOST: u32 = 100;

/// What each call answers, how many uses are granted, and how many can be spent behind them. Before the calls stands with
/// how many uses the link was made: `spend`, `back`, which spends a use and gives it back, `revoke`, and `other`, which
/// spends a link that isn't there.
pub fn history(alloc: Global, input: &str) -> Result<String> {
    let (uses, calls) = first_word(input);
    let uses = uses.parse::<u32>().context("no uses")?;
    let mut links = LinkTable::new(alloc);
    let link = link_of(alloc, &mut links, uses)?;
    let mut text = String::new(alloc);
    let mut granted = 0u32;
    for call in calls.split(' ') {
        granted = granted.saturating_add(u32::from(take(&mut links, &link, call, &mut text)?));
    }
    let left = spent(&mut links, &link);
    write!(text, "granted {granted}, {left} left")?;
    Ok(text)
}

fn link_of(alloc: Global, links: &mut LinkTable, uses: u32) -> Result<Uuid> {
    if !(1..=1_000_000).contains(&uses) {
        bail!("uses out of range");
    }
    let mut dice = MemDice::new([DRAW].to_vec(alloc)?);
    links
        .make(alloc, &mut dice, "$session", true, uses)
        .ok()
        .context("not made")
}

// Whether a use is granted by this call and stays so.
fn take(links: &mut LinkTable, link: &Uuid, call: &str, text: &mut String) -> Result<bool> {
    let (answer, granted) = match call {
        "spend" => {
            let given = links.take_use(link);
            (given, given)
        }
        "back" => (back(links, link), false),
        "revoke" => (links.revoke(link), false),
        "other" => (links.take_use(&Uuid::nil()), false),
        _ => bail!("no such call"),
    };
    text.push_str(if answer { "yes " } else { "no " })?;
    Ok(granted)
}

// A use that is spent comes back.
fn back(links: &mut LinkTable, link: &Uuid) -> bool {
    let given = links.take_use(link);
    if given {
        links.give_back(link);
    }
    given
}

// How often the link can be spent.
fn spent(links: &mut LinkTable, link: &Uuid) -> u32 {
    let mut count = 0u32;
    for _ in 0..MOST {
        if !links.take_use(link) {
            break;
        }
        count = count.saturating_add(1);
    }
    count
}
