//! Runs of whole services, for the programs that try them: a service over a net, and what a viewer of it is shown.
#![tactic(auto)]

mod serving;
mod shown;

pub use serving::served;
pub use shown::{are_alike, colours};
