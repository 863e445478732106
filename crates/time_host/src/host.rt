//! A host whose bytes are heard as desk_core hears them.

ghost use Rattle.std.specs.Prelude.{◌≡◌, ◌≤◌, [], IfOk, IfSome, length};
ghost use Rattle.ecma_parser.specs.Held.{held_bytes};
ghost use Rattle.gate_model.specs.terminal.Controls.{HasFewParameters};

use ecma_parser::{Completed, Parser};
use gate_model::{Control, NoMemory, Shown, Token};
use std::alloc::Global;
use telnet_options::Options;
use telnet_wire::{Part, Wire, escape};
use vt_screen::{Reply, Screen};

const COLS: u16 = 80;

const ROWS: u16 = 24;

/// What a host's bytes have left, and what they were answered.
#[derive(Drop)]
pub struct Host {
    wire: Wire,
    options: Options,
    parser: Parser,
    screen: Screen,
    replies: Vec<u8>,
}

impl Host {
    /// A host that hasn't sent a byte. Refused for want of memory alone.
    pub fn new(alloc: Global) -> Result<Host, NoMemory> {
        let screen = Screen::new(alloc, COLS, ROWS)?;
        Ok(Host {
            wire: Wire::new(),
            options: Options::new(),
            parser: Parser::new(),
            screen,
            replies: Vec::new(alloc),
        })
    }

    /// What the screen shows. Refused for want of memory alone.
    pub fn shown(&self, alloc: Global) -> Result<Shown, NoMemory> {
        self.screen.shown(alloc)
    }

    /// Hears bytes. Refused for want of memory, it has heard some first ones.
    pub fn hear(&mut self, alloc: Global, bytes: &[u8]) -> Result<(), NoMemory> {
        let mut at = 0;
        while at < bytes.len() {
            let (part, count) = self.wire.next(alloc, &bytes[at..])?;
            at += count;
            self.take(&part)?;
        }
        Ok(())
    }

    fn take(&mut self, part: &Part<'_>) -> Result<(), NoMemory> {
        match part {
            Part::Run(run) => self.show(run),
            Part::One(token) => {
                self.options
                    .take(token, COLS, ROWS, "linux", &mut self.replies)?;
                match token {
                    Token::Byte(byte) => self.show(&[*byte]),
                    _ => Ok(()),
                }
            }
            Part::Nothing => Ok(()),
        }
    }

    fn show(&mut self, bytes: &[u8]) -> Result<(), NoMemory> {
        let mut at = 0;
        while at < bytes.len() {
            at += self.show_some(&bytes[at..])?;
        }
        Ok(())
    }

    fn show_some(&mut self, bytes: &[u8]) -> Result<usize, NoMemory>
        requires { 1 ≤ length bytes.now }
        ensures { IfOk result (λ count. (1 ≤ count) × (count ≤ length bytes.now)) }
    {
        if !self.parser.is_whole() {
            return self.show_byte(bytes);
        }
        let text = self.parser.text(bytes);
        if text.is_empty() {
            return self.show_next(bytes);
        }
        self.screen.print_run(text);
        Ok(text.len())
    }

    fn show_next(&mut self, bytes: &[u8]) -> Result<usize, NoMemory>
        requires some { 1 ≤ length bytes.now }
        requires alone { held_bytes self.old.parser.held ≡ [] }
        ensures { IfOk result (λ count. (1 ≤ count) × (count ≤ length bytes.now)) }
    {
        let (completed, count) = read_next(&mut self.parser, bytes);
        if count == 0 {
            return self.show_byte(bytes);
        }
        self.apply_completed(completed)?;
        Ok(count)
    }

    fn show_byte(&mut self, bytes: &[u8]) -> Result<usize, NoMemory>
        requires { 1 ≤ length bytes.now }
        ensures { IfOk result (λ count. count ≡ 1) }
    {
        let pair = self.parser.feed(bytes[0]);
        self.apply(pair.first)?;
        self.apply(pair.second)?;
        Ok(1)
    }

    fn apply_completed(&mut self, completed: Completed) -> Result<(), NoMemory> {
        match completed {
            Completed::Nothing => Ok(()),
            Completed::Text(c) => {
                self.screen.print(c);
                Ok(())
            }
            Completed::ControlCharacter(code) => {
                self.screen.apply_character(code);
                Ok(())
            }
            Completed::EscapeSequence(last) => {
                self.screen.apply_final(last);
                Ok(())
            }
            Completed::ControlSequence(last) => {
                let private = self.parser.is_private();
                let reply = self
                    .screen
                    .apply_control(private, self.parser.params(), last);
                report(&reply, &mut self.replies)
            }
        }
    }

    fn apply(&mut self, control: Option<Control>) -> Result<(), NoMemory>
        requires { IfSome control HasFewParameters }
    {
        let Some(control) = control else {
            return Ok(());
        };
        let reply = self.screen.apply(&control);
        report(&reply, &mut self.replies)
    }
}

#[inline]
fn report(reply: &Reply, into: &mut Vec<u8>) -> Result<(), NoMemory> {
    let bytes = reply.as_slice();
    if bytes.is_empty() {
        return Ok(());
    }
    escape(bytes, into)
}

fn read_next(parser: &mut Parser, bytes: &[u8]) -> (Completed, usize)
    requires some { 1 ≤ length bytes.now }
    requires alone { held_bytes parser.old.held ≡ [] }
    ensures { result.1 ≤ length bytes.now }
{
    if bytes[0] < 0x80 {
        parser.read_ascii(bytes)
    } else {
        parser.read_char(bytes)
    }
}
