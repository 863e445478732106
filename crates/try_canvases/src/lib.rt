//! Instructions played on canvases, one by one or from their text, and canvases compared, for the programs that try what
//! draws (the Guacamole manual, "The Guacamole protocol").
#![tactic(auto)]

mod alike;
mod playing;
mod texts;

pub use alike::is_alike;
pub use playing::{play, play_all};
pub use texts::{played, played_past_others};
