ghost use Rattle.std.specs.Prelude.{◌≡◌, ◌++◌, ◌∷◌, [], ◌<◌, ◌≤◌, All, length, slice_index, take, ℕ, List, None, IsTrue, ◌↔◌, true, false, IfSome};
ghost use Rattle.std.specs.List.{cons_option};
ghost use Rattle.gate_model.specs.terminal.Controls.{HasFewParameters, csi_after, escape_after, head_osc, head_palette, head_string, string_escape};
ghost use Rattle.ecma_parser.specs.Begun.{BeginsSequence};
ghost use Rattle.ecma_parser.specs.Sequence.{Holds, Continues};

use crate::kinds::{
    begins_sequence, begins_string, completed_by, ends_string, is_csi_final, is_escape_final,
    is_intermediate, is_parameter,
};
use crate::sequence::Sequence;
use crate::state::{Completed, State};
use gate_model::{Control, Params};

const ESC: char = '\x1B';

/// Reads characters. The methods that are named after states read one more character in that state.
#[derive(Clone, Copy, Debug, PartialEq, Eq)]
pub struct Machine {
    state: State,
    sequence: Sequence,
}

impl Machine {
    ghost use Rattle.ecma_parser.specs.declared.state.State.TheVariants.{Ground};
    ghost use Rattle.ecma_parser.specs.State.{Follows, Opened, Stands, Gives, control_by, csi_void, csi_void_end, palette_escape};

    /// A machine that has read nothing.
    pub fn new() -> Machine
        ensures { Stands result [] }
    {
        Machine {
            state: State::Ground,
            sequence: Sequence::new(false),
        }
    }

    /// True where nothing is unfinished.
    pub fn is_ground(&self) -> bool
        ensures { IsTrue result ↔ (self.now.state ≡ Ground) }
    {
        matches!(self.state, State::Ground)
    }

    /// Reads one more character.
    #[inline]
    pub fn read(&mut self, c: char) -> Completed
        ensures { (rest : List ℕ) → Stands self.old rest → Gives (rest ++ c ∷ []) (control_by result self.new.sequence) self.new }
    {
        // Most characters stand outside a sequence.
        if self.is_ground() {
            return self.outside(c);
        }
        self.read_within(c)
    }

    // The same within a sequence.
    #[inline(never)]
    fn read_within(&mut self, c: char) -> Completed
        ensures { (rest : List ℕ) → Stands self.old rest → Gives (rest ++ c ∷ []) (control_by result self.new.sequence) self.new }
    {
        match self.state {
            State::Ground => self.outside(c),
            State::Escape => self.escape(c),
            State::EscapeIntermediate => self.escape_intermediate(c),
            State::CsiEntry => self.csi_entry(c),
            State::CsiParam => self.csi_param(c),
            State::CsiIntermediate => self.csi_intermediate(c),
            State::CsiIgnore => self.csi_ignore(c),
            State::OscEntry => self.osc_entry(c),
            State::OscPalette(left) => self.osc_palette(c, left),
            State::OscPaletteEscape(left) => self.osc_palette_escape(c, left),
            State::OscString => self.string(c, true),
            State::SosPmApcString => self.string(c, false),
            State::StringEscape => self.string_escape(c),
        }
    }

    /// Reads bytes below 0x80 until one completes something or comes seldom, and answers how many it has read.
    pub fn read_ascii(&mut self, piece: &[u8]) -> (Completed, usize)
        ensures within { result.1 ≤ length piece.now }
        ensures progress { 0 < length piece.now → slice_index piece.now 0 < 0x80 → 0 < result.1 }
        ensures ascii { All (λ b. b ≤ 0x7F) (take result.1 piece.now) }
        ensures gives { (rest : List ℕ) → Stands self.old rest → Gives (rest ++ take result.1 piece.now) (control_by result.0 self.new.sequence) self.new }
    {
        if self.is_ground() && begins_sequence(piece) {
            return self.read_sequence(piece);
        }
        self.read_each(piece)
    }

    // Reads a control sequence from its ESC on, to its end or to what comes seldom in one.
    fn read_sequence(&mut self, piece: &[u8]) -> (Completed, usize)
        requires begins { BeginsSequence piece.now }
        ensures within { result.1 ≤ length piece.now }
        ensures progress { 0 < result.1 }
        ensures ascii { All (λ b. b ≤ 0x7F) (take result.1 piece.now) }
        ensures gives { Gives (take result.1 piece.now) (control_by result.0 self.new.sequence) self.new }
    {
        let start = self.open(piece);
        let at = start + self.sequence.push_front(&piece[start..]);
        self.state = if at == 2 {
            State::CsiEntry
        } else {
            State::CsiParam
        };
        if at == piece.len() || !is_csi_final(piece[at] as char) {
            return (Completed::Nothing, at);
        }
        self.state = State::Ground;
        (Completed::ControlSequence(piece[at]), at + 1)
    }

    // Reads `ESC [`, and `?` where that comes next, and answers how many bytes these are.
    fn open(&mut self, piece: &[u8]) -> usize
        requires begins { BeginsSequence piece.now }
        ensures { Opened result piece.now self.new.sequence }
    {
        if 3 <= piece.len() && piece[2] == b'?' {
            self.sequence = Sequence::new(true);
            return 3;
        }
        self.sequence = Sequence::new(false);
        2
    }

    // Reads bytes below 0x80, one after the other, until one completes something, and answers how many it has read.
    fn read_each(&mut self, piece: &[u8]) -> (Completed, usize)
        ensures within { result.1 ≤ length piece.now }
        ensures progress { 0 < length piece.now → slice_index piece.now 0 < 0x80 → 0 < result.1 }
        ensures ascii { All (λ b. b ≤ 0x7F) (take result.1 piece.now) }
        ensures gives { (rest : List ℕ) → Stands self.old rest → Gives (rest ++ take result.1 piece.now) (control_by result.0 self.new.sequence) self.new }
    {
        for (i, byte) in piece.iter().enumerate() {
            if 0x80 <= *byte {
                return (Completed::Nothing, i);
            }
            let completed = self.read(*byte as char);
            match completed {
                Completed::Nothing => {}
                _ => return (completed, i + 1),
            }
        }
        (Completed::Nothing, piece.len())
    }

    /// Whether the control sequence that was completed last is private.
    pub fn is_private(&self) -> bool
        ensures { result ≡ self.now.sequence.private }
    {
        self.sequence.is_private()
    }

    /// Its parameters, lent.
    pub fn params(&self) -> &Params
        ensures params { result.now ≡ self.now.sequence.params }
        ensures few { result.now.count ≤ 16 }
    {
        self.sequence.params()
    }

    /// The control function that the last character completed.
    #[inline]
    pub fn control(&self, completed: Completed) -> Option<Control>
        ensures control { control_by completed self.now.sequence ≡ cons_option result [] }
        ensures few { IfSome result HasFewParameters }
    {
        match completed {
            Completed::Nothing => None,
            Completed::Text(c) => Some(Control::Print(c)),
            Completed::ControlCharacter(code) => Some(Control::Code(code)),
            Completed::EscapeSequence(last) => Some(Control::Esc(last)),
            Completed::ControlSequence(last) => Some(self.sequence.control(last)),
        }
    }

    /// Reads one more character, where one came, and gives the control function that it completes.
    pub fn read_any(&mut self, c: Option<char>) -> Option<Control>
        ensures control { (rest : List ℕ) → Stands self.old rest → Gives (rest ++ cons_option c []) (cons_option result []) self.new }
        ensures few { IfSome result HasFewParameters }
    {
        match c {
            Some(c) => {
                let completed = self.read(c);
                self.control(completed)
            }
            None => None,
        }
    }

    // In `Ground`, or where a sequence was abandoned.
    #[inline]
    fn outside(&mut self, c: char) -> Completed
        ensures { Gives (c ∷ []) (control_by result self.new.sequence) self.new }
    {
        if c == ESC {
            self.state = State::Escape;
            return Completed::Nothing;
        }
        self.state = State::Ground;
        completed_by(c)
    }

    fn escape(&mut self, c: char) -> Completed
        ensures { Gives (0x1B ∷ c ∷ []) (control_by result self.new.sequence) self.new }
    {
        if c == '[' {
            self.sequence = Sequence::new(false);
            self.state = State::CsiEntry;
            Completed::Nothing
        } else if c == ']' {
            self.state = State::OscEntry;
            Completed::Nothing
        } else if begins_string(c) {
            self.state = State::SosPmApcString;
            Completed::Nothing
        } else if is_intermediate(c) {
            self.state = State::EscapeIntermediate;
            Completed::Nothing
        } else if is_escape_final(c) {
            self.state = State::Ground;
            Completed::EscapeSequence(c as u8)
        } else {
            self.outside(c)
        }
    }

    fn escape_intermediate(&mut self, c: char) -> Completed
        ensures { (rest : List ℕ) → Follows rest c escape_after → Gives (rest ++ c ∷ []) (control_by result self.new.sequence) self.new }
    {
        if is_intermediate(c) {
            self.state = State::EscapeIntermediate;
            Completed::Nothing
        } else if is_escape_final(c) {
            self.state = State::Ground;
            Completed::Nothing
        } else {
            self.outside(c)
        }
    }

    fn csi_entry(&mut self, c: char) -> Completed
        ensures { (rest : List ℕ) → Holds self.old.sequence [] → Follows rest c (csi_after []) → Gives (rest ++ c ∷ []) (control_by result self.new.sequence) self.new }
    {
        if c == '?' {
            self.sequence = Sequence::new(true);
            self.state = State::CsiParam;
            return Completed::Nothing;
        }
        self.csi_param(c)
    }

    fn csi_param(&mut self, c: char) -> Completed
        ensures { (rest text : List ℕ) → Holds self.old.sequence text → Continues text c → Follows rest c (csi_after text) → Gives (rest ++ c ∷ []) (control_by result self.new.sequence) self.new }
    {
        if is_parameter(c) {
            let has_effect = self.sequence.push(c);
            self.state = if has_effect {
                State::CsiParam
            } else {
                State::CsiIgnore
            };
            Completed::Nothing
        } else if is_intermediate(c) {
            self.state = State::CsiIntermediate;
            Completed::Nothing
        } else if is_csi_final(c) {
            self.state = State::Ground;
            Completed::ControlSequence(c as u8)
        } else {
            self.outside(c) // abandons the sequence
        }
    }

    // The sequence has no effect, but its form still tells where it ends.
    fn csi_ignore(&mut self, c: char) -> Completed
        ensures { (rest : List ℕ) → Follows rest c csi_void → Gives (rest ++ c ∷ []) (control_by result self.new.sequence) self.new }
    {
        if is_parameter(c) {
            self.state = State::CsiIgnore;
            Completed::Nothing
        } else {
            self.csi_intermediate(c)
        }
    }

    fn csi_intermediate(&mut self, c: char) -> Completed
        ensures { (rest : List ℕ) → Follows rest c csi_void_end → Gives (rest ++ c ∷ []) (control_by result self.new.sequence) self.new }
    {
        if is_intermediate(c) {
            self.state = State::CsiIntermediate;
            Completed::Nothing
        } else if is_csi_final(c) {
            self.state = State::Ground;
            Completed::Nothing
        } else {
            self.outside(c)
        }
    }

    fn osc_entry(&mut self, c: char) -> Completed
        ensures { (rest : List ℕ) → Follows rest c head_osc → Gives (rest ++ c ∷ []) (control_by result self.new.sequence) self.new }
    {
        if c == 'R' {
            self.state = State::Ground;
            Completed::Nothing
        } else if c == 'P' {
            self.state = State::OscPalette(7);
            Completed::Nothing
        } else {
            self.string(c, true)
        }
    }

    fn osc_palette(&mut self, c: char, left: u8) -> Completed
        ensures { (rest : List ℕ) → 0 < left → Follows rest c (head_palette left) → Gives (rest ++ c ∷ []) (control_by result self.new.sequence) self.new }
    {
        if left <= 1 {
            self.state = State::Ground;
        } else if c == ESC {
            self.state = State::OscPaletteEscape(left - 1);
        } else {
            self.state = State::OscPalette(left - 1);
        }
        Completed::Nothing
    }

    fn osc_palette_escape(&mut self, c: char, left: u8) -> Completed
        ensures { (rest : List ℕ) → 0 < left → Follows rest c (palette_escape left) → Gives (rest ++ c ∷ []) (control_by result self.new.sequence) self.new }
    {
        if c != '\\' {
            return self.escape(c);
        }
        if left <= 1 {
            self.state = State::Ground;
        } else {
            self.state = State::OscPalette(left - 1);
        }
        Completed::Nothing
    }

    // In `OscString`, where BEL ends the string, and in `SosPmApcString`, where it doesn't.
    fn string(&mut self, c: char, by_bell: bool) -> Completed
        ensures { (rest : List ℕ) → Follows rest c (head_string by_bell) → Gives (rest ++ c ∷ []) (control_by result self.new.sequence) self.new }
    {
        if ends_string(c, by_bell) {
            self.state = State::Ground;
        } else if c == ESC {
            self.state = State::StringEscape;
        } else if by_bell {
            self.state = State::OscString;
        } else {
            self.state = State::SosPmApcString;
        }
        Completed::Nothing
    }

    // `\` ends the string. Before any other character the ESC began an escape sequence.
    fn string_escape(&mut self, c: char) -> Completed
        ensures { (rest : List ℕ) → Follows rest c string_escape → Gives (rest ++ c ∷ []) (control_by result self.new.sequence) self.new }
    {
        if c != '\\' {
            return self.escape(c);
        }
        self.state = State::Ground;
        Completed::Nothing
    }
}
