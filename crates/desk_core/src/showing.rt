//! Data bytes of the Telnet host, on the screen.

ghost use Rattle.std.specs.Prelude.{◌≡◌, ◌≤◌, ◌++◌, ◌∷◌, [], ℕ, List, IfOk, IfSome, OnOk, length, take};
ghost use Rattle.std.specs.List.{cons_option};
ghost use Rattle.ecma_parser.specs.Held.{held_bytes};
ghost use Rattle.ecma_parser.specs.Parser.{HasRead};
ghost use Rattle.ecma_parser.specs.State.{control_by};
ghost use Rattle.gate_model.specs.terminal.Characters.{characters};
ghost use Rattle.gate_model.specs.terminal.Controls.{HasFewParameters, controls};
ghost use Rattle.gate_model.specs.terminal.Replies.{reports_from};
ghost use Rattle.gate_model.specs.terminal.Screens.{after_controls};
ghost use Rattle.gate_model.specs.telnet.TelnetTokens.{doubled};

use crate::host::Host;
use ecma_parser::{Completed, Parser};
use gate_model::{Control, NoMemory};
use telnet_wire::escape;
use vt_screen::{Reply, Screen};

impl Host {
    ghost use Rattle.desk_core.specs.Host.{Showed, ShowedSome};

    /// Shows data bytes, and appends their reports.
    pub fn show_run(&mut self, bytes: &[u8], into: &mut Vec<u8>) -> Result<(), NoMemory>
        ensures { OnOk result (Showed self.old self.new bytes.now into.old.items into.new.items) }
    {
        let mut at = 0;
        while at < bytes.len() {
            at += self.show_some(&bytes[at..], into)?;
        }
        Ok(())
    }

    // Shows some first bytes: printable text, or what completes the next control function.
    fn show_some(&mut self, bytes: &[u8], into: &mut Vec<u8>) -> Result<usize, NoMemory>
        requires { 1 ≤ length bytes.now }
        ensures { IfOk result (λ count. ShowedSome self.old self.new count bytes.now into.old.items into.new.items) }
    {
        if !self.parser.is_whole() {
            return self.show_byte(bytes, into);
        }
        let text = self.parser.text(bytes);
        if text.is_empty() {
            return self.show_next(bytes, into);
        }
        self.screen.print_run(text);
        Ok(text.len())
    }

    // Shows the bytes up to the next control function. The byte of a character that is cut or ill-formed
    // stands alone.
    fn show_next(&mut self, bytes: &[u8], into: &mut Vec<u8>) -> Result<usize, NoMemory>
        requires some { 1 ≤ length bytes.now }
        requires alone { held_bytes self.old.parser.held ≡ [] }
        ensures { IfOk result (λ count. ShowedSome self.old self.new count bytes.now into.old.items into.new.items) }
    {
        let (completed, count) = read_next(&mut self.parser, bytes);
        if count == 0 {
            return self.show_byte(bytes, into);
        }
        apply_completed(&self.parser, &mut self.screen, completed, into)?;
        Ok(count)
    }

    // Shows the control functions that a data byte completes, and appends their reports.
    fn show_byte(&mut self, bytes: &[u8], into: &mut Vec<u8>) -> Result<usize, NoMemory>
        requires { 1 ≤ length bytes.now }
        ensures { IfOk result (λ count. ShowedSome self.old self.new count bytes.now into.old.items into.new.items) }
    {
        let pair = self.parser.feed(bytes[0]);
        apply(&mut self.screen, pair.first, into)?;
        apply(&mut self.screen, pair.second, into)?;
        Ok(1)
    }
}

// Reads up to the next thing that is completed, where no byte is held; nothing where a character is cut or
// ill-formed.
fn read_next(parser: &mut Parser, bytes: &[u8]) -> (Completed, usize)
    requires some { 1 ≤ length bytes.now }
    requires alone { held_bytes parser.old.held ≡ [] }
    ensures within { result.1 ≤ length bytes.now }
    ensures controls { (heard : List ℕ) → HasRead parser.old heard → controls (characters (heard ++ take result.1 bytes.now)) ≡ controls (characters heard) ++ control_by result.0 parser.new.machine.sequence }
    ensures state { (heard : List ℕ) → HasRead parser.old heard → HasRead parser.new (heard ++ take result.1 bytes.now) }
{
    if bytes[0] < 0x80 {
        parser.read_ascii(bytes)
    } else {
        parser.read_char(bytes)
    }
}

// Does what was completed last says, and appends its report. The parameters of a control sequence stay where they were
// read.
fn apply_completed(
    parser: &Parser,
    screen: &mut Screen,
    completed: Completed,
    into: &mut Vec<u8>,
) -> Result<(), NoMemory>
    ensures screen { screen.new ≡ after_controls screen.old (control_by completed parser.now.machine.sequence) }
    ensures appended { OnOk result (into.new.items ≡ into.old.items ++ doubled (reports_from screen.old (control_by completed parser.now.machine.sequence))) }
{
    match completed {
        Completed::Nothing => Ok(()),
        Completed::Text(c) => {
            screen.print(c);
            Ok(())
        }
        Completed::ControlCharacter(code) => {
            screen.apply_character(code);
            Ok(())
        }
        Completed::EscapeSequence(last) => {
            screen.apply_final(last);
            Ok(())
        }
        Completed::ControlSequence(last) => {
            let reply = screen.apply_control(parser.is_private(), parser.params(), last);
            report(&reply, into)
        }
    }
}

// Appends a report, if there is one.
#[inline]
fn report(reply: &Reply, into: &mut Vec<u8>) -> Result<(), NoMemory>
    ensures { OnOk result (into.new.items ≡ into.old.items ++ doubled reply.now) }
{
    let bytes = reply.as_slice();
    if bytes.is_empty() {
        return Ok(());
    }
    escape(bytes, into)
}

// Does what the control function says, if there is one, and appends its report.
fn apply(screen: &mut Screen, control: Option<Control>, into: &mut Vec<u8>) -> Result<(), NoMemory>
    requires { IfSome control HasFewParameters }
    ensures screen { screen.new ≡ after_controls screen.old (cons_option control []) }
    ensures appended { OnOk result (into.new.items ≡ into.old.items ++ doubled (reports_from screen.old (cons_option control []))) }
{
    let Some(control) = control else {
        return Ok(());
    };
    let reply = screen.apply(&control);
    report(&reply, into)
}
