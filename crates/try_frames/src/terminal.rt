//! The terminal that is fed.

ghost use Rattle.std.specs.Prelude.{IfSome};
ghost use Rattle.gate_model.specs.terminal.Controls.{HasFewParameters};

use anyhow::{Context, Result, bail};
use ecma_parser::Parser;
use gate_model::{Control, Shown};
use std::alloc::Global;
use try_words::is_size;
use vt_screen::Screen;

/// A parser of the host's bytes and the screen that they change.
#[derive(Drop)]
pub struct Terminal {
    parser: Parser,
    screen: Screen,
}

impl Terminal {
    /// One that has heard nothing.
    pub fn new(alloc: Global, cols: u16, rows: u16) -> Result<Terminal> {
        if !is_size(cols, rows) {
            bail!("no size");
        }
        let screen = Screen::new(alloc, cols, rows).ok().context("no memory")?;
        Ok(Terminal {
            parser: Parser::new(),
            screen,
        })
    }

    /// Gives the screen another size.
    pub fn resize(&mut self, alloc: Global, cols: u16, rows: u16) -> Result<()> {
        if !is_size(cols, rows) {
            bail!("no size");
        }
        self.screen
            .resize(alloc, cols, rows)
            .ok()
            .context("no memory")
    }

    /// Hears bytes, and answers by how many lines they scrolled the whole screen up.
    pub fn hear(&mut self, bytes: &[u8]) -> u32 {
        self.screen.clear_shift();
        for byte in bytes {
            let pair = self.parser.feed(*byte);
            self.apply(pair.first);
            self.apply(pair.second);
        }
        self.screen.shift()
    }

    fn apply(&mut self, control: Option<Control>)
        requires { IfSome control HasFewParameters }
    {
        if let Some(control) = control {
            let _reply = self.screen.apply(&control);
        }
    }

    /// What the screen shows.
    pub fn shown(&self, alloc: Global) -> Result<Shown> {
        self.screen.shown(alloc).ok().context("no memory")
    }
}
