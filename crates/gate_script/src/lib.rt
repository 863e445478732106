//! The commands that run over text: `draw`, which draws what a Telnet host would have sent, `script`, which does
//! the lines of a script, `play`, which tells of a recording (`specs/PlayTold.antt`, `specs/PlayOutcomes.antt`), and
//! `clip`, which types what is pasted (`specs/Clipping.antt`).
//!
//! `command` is the public call. Its contract says for each status what was read and written: the
//! answers and the frames are just what the lines that the input makes (`specs/Grammar.antt` of
//! script_grammar) tell of a legal and true history, and the bytes that the lines `take` print are the first
//! ones that the history sends to the Telnet host (`specs/Plays.antt`, `specs/Outcomes.antt`).
//!
//! A session's calls are made in memory, and tell what they tell to a reply. `Run::order` writes the reply
//! after each line: the line of the frames, and then the answer.
#![tactic(auto)]

mod clip;
mod commands;
mod halt;
mod input;
mod kind;
pub mod laws;
mod level;
mod load;
mod play;
mod play_told;
mod refused;
mod reply;
mod run;
mod seeing;
mod session;
mod sight;
mod state;
mod stop;

pub use commands::command;
