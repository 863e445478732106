//! The program `time_plain_fan`: the floor of what it costs to show one thing to many viewers, without a session. It hands all
//! viewers of a topic the same text, so many times a second, from one thread a viewer, and reads their acknowledgements
//! in another. `bench/service` measures it beside the service.
//!
//! Its words are the port, how many topics there are, how many viewers each has, how many bytes the text has, how often
//! a second it changes, and for how many seconds. Without words it says so.
#![tactic(auto)]

mod fan;
mod topic;
mod viewer;
mod words;

use crate::words::words_of;
use anyhow::Result;

fn main(rt: HostRuntime) -> Result<()> {
    match words_of(&rt)? {
        Some(words) => fan::serve(&rt, &words),
        None => {
            println!(rt; "time_plain_fan PORT TOPICS VIEWERS BYTES FRAMES SECONDS")?;
            Ok(())
        }
    }
}
