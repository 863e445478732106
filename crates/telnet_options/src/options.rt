ghost use Rattle.std.specs.Prelude.{◌≡◌, ◌++◌, OnOk, OnErr, true, false};
ghost use Rattle.gate_model.specs.Sequences.{BeginsWith};
ghost use Rattle.gate_model.specs.telnet.OptionAnswers.{all_off, if_off, if_on, reply, do_answer, dont_answer, will_answer, wont_answer, option_answer, own_set, size_text, peer_set, switches_after};

use crate::codes::{ECHO, SEND, SUPPRESS_GO_AHEAD, TERMINAL_TYPE, WINDOW_SIZE};
use crate::replies::{put_reply, put_size, put_terminal};
use gate_model::telnet_codes::{DO, DONT, WILL, WONT};
use gate_model::{NoMemory, Token};

/// Which Telnet options are on. It has a fixed size, and to copy it takes no memory.
#[derive(Clone, Copy, Debug, PartialEq, Eq)]
pub struct Options {
    own_ahead: bool,
    own_terminal: bool,
    own_size: bool,
    peer_echo: bool,
    peer_ahead: bool,
}

impl Options {
    ghost use Rattle.telnet_options.specs.Options.{switches};

    /// Each option is off.
    pub fn new() -> Options
        ensures off { switches result ≡ all_off }
    {
        Options {
            own_ahead: false,
            own_terminal: false,
            own_size: false,
            peer_echo: false,
            peer_ahead: false,
        }
    }

    /// Appends the answer to the token, for a screen of so many columns and rows and this terminal type (RFC 854, 855,
    /// 1073 and 1091). Refused for want of memory, it changes nothing.
    pub fn take(
        &mut self,
        token: &Token,
        cols: u16,
        rows: u16,
        term: &str,
        into: &mut Vec<u8>,
    ) -> Result<(), NoMemory>
        ensures appended { OnOk result (into.new.items ≡ into.old.items ++ option_answer cols rows term.now (switches self.old) token.now) }
        ensures state { OnOk result (switches self.new ≡ switches_after (switches self.old) token.now) }
        ensures unchanged { OnErr result ((self.new ≡ self.old) × (into.new.items ≡ into.old.items)) }
    {
        let before = into.len();
        let old = *self;
        let put = self.answer(token, cols, rows, term, into);
        if put.is_err() {
            *self = old;
            into.truncate(before);
        }
        put
    }

    /// Appends the window size, where it is told: where that option of this side is on (RFC 1073). Refused for want of
    /// memory, it appends nothing.
    pub fn resized(&self, cols: u16, rows: u16, into: &mut Vec<u8>) -> Result<(), NoMemory>
        ensures appended { OnOk result (into.new.items ≡ into.old.items ++ if_on (switches self.now).own_size (size_text cols rows)) }
        ensures unchanged { OnErr result (into.new.items ≡ into.old.items) }
    {
        if !self.own_size {
            return Ok(());
        }
        let before = into.len();
        let put = put_size(into, cols, rows);
        if put.is_err() {
            into.truncate(before);
        }
        put
    }

    // As `take`. Refused, it may have appended a front of the answer.
    fn answer(
        &mut self,
        token: &Token,
        cols: u16,
        rows: u16,
        term: &str,
        into: &mut Vec<u8>,
    ) -> Result<(), NoMemory>
        ensures appended { OnOk result (into.new.items ≡ into.old.items ++ option_answer cols rows term.now (switches self.old) token.now) }
        ensures state { OnOk result (switches self.new ≡ switches_after (switches self.old) token.now) }
        ensures front { BeginsWith into.new.items into.old.items }
    {
        match token {
            Token::Do(option) => self.begin(*option, cols, rows, into),
            Token::Dont(option) => self.stop(*option, into),
            Token::Will(option) => self.accept(*option, into),
            Token::Wont(option) => self.give_up(*option, into),
            Token::Sub(bytes) => match bytes.as_slice() {
                [TERMINAL_TYPE, SEND] if self.own_terminal => put_terminal(into, term),
                _ => Ok(()),
            },
            Token::Byte(_) | Token::Single(_) => Ok(()),
        }
    }

    // The peer asks for an option of this side.
    fn begin(
        &mut self,
        option: u8,
        cols: u16,
        rows: u16,
        into: &mut Vec<u8>,
    ) -> Result<(), NoMemory>
        ensures appended { OnOk result (into.new.items ≡ into.old.items ++ do_answer cols rows (switches self.old) option) }
        ensures state { switches self.new ≡ own_set true (switches self.old) option }
        ensures front { BeginsWith into.new.items into.old.items }
    {
        match option {
            SUPPRESS_GO_AHEAD => turn_on(&mut self.own_ahead, into, WILL, SUPPRESS_GO_AHEAD),
            TERMINAL_TYPE => turn_on(&mut self.own_terminal, into, WILL, TERMINAL_TYPE),
            WINDOW_SIZE => {
                let was_on = self.own_size;
                turn_on(&mut self.own_size, into, WILL, WINDOW_SIZE)?;
                if was_on {
                    return Ok(());
                }
                put_size(into, cols, rows)
            }
            _ => put_reply(into, WONT, option),
        }
    }

    // The peer asks to stop an option of this side.
    fn stop(&mut self, option: u8, into: &mut Vec<u8>) -> Result<(), NoMemory>
        ensures appended { OnOk result (into.new.items ≡ into.old.items ++ dont_answer (switches self.old) option) }
        ensures state { switches self.new ≡ own_set false (switches self.old) option }
        ensures front { BeginsWith into.new.items into.old.items }
    {
        match option {
            SUPPRESS_GO_AHEAD => turn_off(&mut self.own_ahead, into, WONT, SUPPRESS_GO_AHEAD),
            TERMINAL_TYPE => turn_off(&mut self.own_terminal, into, WONT, TERMINAL_TYPE),
            WINDOW_SIZE => turn_off(&mut self.own_size, into, WONT, WINDOW_SIZE),
            _ => Ok(()),
        }
    }

    // The peer offers an option of its side.
    fn accept(&mut self, option: u8, into: &mut Vec<u8>) -> Result<(), NoMemory>
        ensures appended { OnOk result (into.new.items ≡ into.old.items ++ will_answer (switches self.old) option) }
        ensures state { switches self.new ≡ peer_set true (switches self.old) option }
        ensures front { BeginsWith into.new.items into.old.items }
    {
        match option {
            ECHO => turn_on(&mut self.peer_echo, into, DO, ECHO),
            SUPPRESS_GO_AHEAD => turn_on(&mut self.peer_ahead, into, DO, SUPPRESS_GO_AHEAD),
            _ => put_reply(into, DONT, option),
        }
    }

    // The peer refuses or stops an option of its side.
    fn give_up(&mut self, option: u8, into: &mut Vec<u8>) -> Result<(), NoMemory>
        ensures appended { OnOk result (into.new.items ≡ into.old.items ++ wont_answer (switches self.old) option) }
        ensures state { switches self.new ≡ peer_set false (switches self.old) option }
        ensures front { BeginsWith into.new.items into.old.items }
    {
        match option {
            ECHO => turn_off(&mut self.peer_echo, into, DONT, ECHO),
            SUPPRESS_GO_AHEAD => turn_off(&mut self.peer_ahead, into, DONT, SUPPRESS_GO_AHEAD),
            _ => Ok(()),
        }
    }
}

// Turns the option on, and says so where it was off.
fn turn_on(is_on: &mut bool, into: &mut Vec<u8>, verb: u8, option: u8) -> Result<(), NoMemory>
    ensures appended { OnOk result (into.new.items ≡ into.old.items ++ if_off is_on.old (reply verb option)) }
    ensures on { is_on.new ≡ true }
    ensures front { BeginsWith into.new.items into.old.items }
{
    if *is_on {
        return Ok(());
    }
    *is_on = true;
    put_reply(into, verb, option)
}

// Turns the option off, and says so where it was on.
fn turn_off(is_on: &mut bool, into: &mut Vec<u8>, verb: u8, option: u8) -> Result<(), NoMemory>
    ensures appended { OnOk result (into.new.items ≡ into.old.items ++ if_on is_on.old (reply verb option)) }
    ensures off { is_on.new ≡ false }
    ensures front { BeginsWith into.new.items into.old.items }
{
    if !*is_on {
        return Ok(());
    }
    *is_on = false;
    put_reply(into, verb, option)
}
