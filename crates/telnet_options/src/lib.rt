//! The answers to a Telnet peer's option negotiation (RFC 854 and 855). The gateway starts no negotiation: each option
//! is off at the start, and only what the peer asks for or offers is answered.
//!
//! `Options::take` appends the answer to one token, and its contract cites the definition: `option_answer` in
//! gate_model's `OptionAnswers`. Over a list of tokens its answers, joined, are `option_answers`.
//!
//! Which options are agreed to is this project's own: of those that the peer asks for, suppress go ahead (RFC 858), the
//! terminal type (RFC 1091) and the window size (RFC 1073); of those that it offers, echo (RFC 857) and suppress go ahead.
#![tactic(auto)]

mod codes;
mod options;
mod replies;

pub use options::Options;
