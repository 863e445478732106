ghost use Rattle.std.specs.Prelude.{◌≡◌};
ghost use Rattle.gate_model.specs.terminal.Modes.{is_mode, mode_set, modes_set, names_mode};
ghost use Rattle.gate_model.specs.terminal.Terminal.{first_modes};

use std::marker::Model;

/// The modes: cursor keys (DECCKM), autowrap (DECAWM), cursor visible (DECTCEM) and insert (IRM).
#[derive(Clone, Copy)]
pub(crate) struct Modes {
    pub(crate) cursor_keys: bool,
    pub(crate) wrap: bool,
    pub(crate) visible: bool,
    pub(crate) insert: bool,
}

impl Model for Modes {
    ghost use Rattle.gate_model.specs.terminal.Terminal as terminal;

    ghost Value = { terminal.Modes };

    ghost view = { λ m. record { cursor_keys = m.cursor_keys; wrap = m.wrap; visible = m.visible; insert = m.insert } };

    ghost inverse = { λ v. record { cursor_keys = v.cursor_keys; wrap = v.wrap; visible = v.visible; insert = v.insert } };
}

impl Modes {
    // The modes of the start: autowrap and a visible cursor alone.
    pub(crate) fn first() -> Modes
        ensures { result ≡ first_modes }
    {
        Modes {
            cursor_keys: false,
            wrap: true,
            visible: true,
            insert: false,
        }
    }

    // SM and RM: each number in order sets or resets a mode.
    pub(crate) fn set(&mut self, private: bool, on: bool, numbers: &[u16])
        ensures { self.new ≡ modes_set private on numbers.now self.old }
    {
        for number in numbers {
            self.set_one(private, on, *number);
        }
    }

    // One number of SM or RM.
    fn set_one(&mut self, private: bool, on: bool, number: u16)
        ensures { self.new ≡ mode_set private on number self.old }
    {
        match (private, number) {
            (true, 1) => self.cursor_keys = on,
            (true, 7) => self.wrap = on,
            (true, 25) => self.visible = on,
            (false, 4) => self.insert = on,
            _ => {}
        }
    }
}

// Whether at least one of the numbers names a mode.
pub(crate) fn names_mode(private: bool, numbers: &[u16]) -> bool
    ensures { result ≡ names_mode private numbers.now }
{
    numbers.iter().any(|number| is_mode(private, *number))
}

fn is_mode(private: bool, number: u16) -> bool
    ensures { result ≡ is_mode private number }
{
    match private {
        true => matches!(number, 1 | 7 | 25),
        false => number == 4,
    }
}
