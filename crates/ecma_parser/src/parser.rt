ghost use Rattle.std.specs.Prelude.{◌≡◌, ◌<◌, ◌≤◌, ◌++◌, ◌∷◌, [], ℕ, List, IfSome, IsTrue, ◌↔◌, All, length, map, slice_index, take};
ghost use Rattle.std.specs.List.{cons_option};
ghost use Rattle.gate_model.specs.terminal.Characters.{characters};
ghost use Rattle.gate_model.specs.terminal.Controls.{controls, HasFewParameters};
ghost use Rattle.ecma_parser.specs.Past.{HaveRead};
ghost use Rattle.gate_model.specs.terminal.Printing.{IsPrintable};

use crate::held::Held;
use crate::machine::Machine;
use crate::state::Completed;
use gate_model::{Control, Params};

/// The control functions that one byte completes, in order.
#[derive(Clone, Copy, Debug, PartialEq, Eq)]
pub struct Pair {
    pub first: Option<Control>,
    pub second: Option<Control>,
}

// The number of bytes of printable ASCII at the front.
fn text_length(piece: &[u8]) -> usize
    ensures few { result ≤ length piece.now }
    ensures printable { All IsPrintable (take result piece.now) }
{
    for (i, byte) in piece.iter().enumerate() {
        if *byte < b' ' || b'~' < *byte {
            return i;
        }
    }
    piece.len()
}

/// Reads a stream of bytes as control functions (ECMA-48; characters by the Unicode Standard, section 3.9). It has a
/// fixed size and takes no memory.
#[derive(Clone, Copy, Debug, PartialEq, Eq)]
pub struct Parser {
    held: Held,
    machine: Machine,
    ghost past: { ∥ ((bytes : List ℕ) × HaveRead held machine bytes) ∥₁ },
}

impl Parser {
    ghost use Rattle.ecma_parser.specs.Held.{held_bytes};
    ghost use Rattle.ecma_parser.specs.Parser.{HasRead, listed};
    ghost use Rattle.gate_model.specs.declared.control.Control.TheVariants.{Print};
    ghost use Rattle.ecma_parser.specs.State.{control_by};

    /// A parser that has read nothing.
    pub fn new() -> Parser
        ensures { HasRead result [] }
    {
        Parser {
            held: Held::new(),
            machine: Machine::new(),
        }
    }

    /// Reads one more byte, and gives the control functions that it completes. The byte after one that may begin a
    /// character can complete two: one for U+FFFD and one of its own.
    #[inline]
    pub fn feed(&mut self, byte: u8) -> Pair
        ensures controls { (bytes : List ℕ) → HasRead self.old bytes → controls (characters (bytes ++ byte ∷ [])) ≡ controls (characters bytes) ++ listed result }
        ensures state { (bytes : List ℕ) → HasRead self.old bytes → HasRead self.new (bytes ++ byte ∷ []) }
        ensures few { IfSome result.first HasFewParameters × IfSome result.second HasFewParameters }
    {
        if !self.held.is_empty() || 0x80 <= byte {
            return self.feed_part(byte);
        }
        // Most bytes are printable ASCII outside a sequence.
        if self.machine.is_ground() && b' ' <= byte && byte <= b'~' {
            return Pair {
                first: Some(Control::Print(byte as char)),
                second: None,
            };
        }
        self.feed_ascii(byte)
    }

    /// No byte is held that may still become a character with the next.
    pub fn is_whole(&self) -> bool
        ensures { IsTrue result ↔ (held_bytes self.now.held ≡ []) }
    {
        self.held.is_empty()
    }

    /// The printable ASCII at the front of the piece, where it is printed as it stands; nothing within a sequence.
    pub fn text<'a>(&self, piece: &'a [u8]) -> &'a [u8]
        requires alone { held_bytes self.now.held ≡ [] }
        ensures front { (n : ℕ) × (n ≤ length piece.now) × (result.now ≡ take n piece.now) }
        ensures printable { All IsPrintable result.now }
        ensures controls { (bytes : List ℕ) → HasRead self.now bytes → controls (characters (bytes ++ result.now)) ≡ controls (characters bytes) ++ map Print result.now }
        ensures state { (bytes : List ℕ) → HasRead self.now bytes → HasRead self.now (bytes ++ result.now) }
    {
        if !self.machine.is_ground() {
            return &piece[..0];
        }
        &piece[..text_length(piece)]
    }

    /// Reads bytes below 0x80, where no other is held, until one completes something or comes seldom, and answers how many
    /// it has read.
    pub fn read_ascii(&mut self, piece: &[u8]) -> (Completed, usize)
        requires alone { held_bytes self.old.held ≡ [] }
        ensures within { result.1 ≤ length piece.now }
        ensures progress { 0 < length piece.now → slice_index piece.now 0 < 0x80 → 0 < result.1 }
        ensures controls { (bytes : List ℕ) → HasRead self.old bytes → controls (characters (bytes ++ take result.1 piece.now)) ≡ controls (characters bytes) ++ control_by result.0 self.new.machine.sequence }
        ensures state { (bytes : List ℕ) → HasRead self.old bytes → HasRead self.new (bytes ++ take result.1 piece.now) }
    {
        self.machine.read_ascii(piece)
    }

    /// Reads a whole character at the front of the piece, where no byte is held, and answers what it completes
    /// and how many bytes it has. Where no whole character stands there it reads nothing, and answers 0.
    pub fn read_char(&mut self, piece: &[u8]) -> (Completed, usize)
        requires alone { held_bytes self.old.held ≡ [] }
        ensures within { result.1 ≤ length piece.now }
        ensures controls { (bytes : List ℕ) → HasRead self.old bytes → controls (characters (bytes ++ take result.1 piece.now)) ≡ controls (characters bytes) ++ control_by result.0 self.new.machine.sequence }
        ensures state { (bytes : List ℕ) → HasRead self.old bytes → HasRead self.new (bytes ++ take result.1 piece.now) }
    {
        let (found, size) = bstr::decode_utf8(piece);
        match found {
            Some(c) => (self.machine.read(c), size),
            None => (Completed::Nothing, 0),
        }
    }

    /// The control function that was completed last.
    #[inline]
    pub fn control(&self, completed: Completed) -> Option<Control>
        ensures control { control_by completed self.now.machine.sequence ≡ cons_option result [] }
        ensures few { IfSome result HasFewParameters }
    {
        self.machine.control(completed)
    }

    /// Whether the control sequence that was completed last is private.
    pub fn is_private(&self) -> bool
        ensures { result ≡ self.now.machine.sequence.private }
    {
        self.machine.is_private()
    }

    /// The parameters of the control sequence that was completed last, lent.
    pub fn params(&self) -> &Params
        ensures params { result.now ≡ self.now.machine.sequence.params }
        ensures few { result.now.count ≤ 16 }
    {
        self.machine.params()
    }

    // Reads a byte that is a character by itself.
    #[inline(never)]
    fn feed_ascii(&mut self, byte: u8) -> Pair
        requires ascii { byte < 0x80 }
        requires alone { held_bytes self.old.held ≡ [] }
        ensures controls { (bytes : List ℕ) → HasRead self.old bytes → controls (characters (bytes ++ byte ∷ [])) ≡ controls (characters bytes) ++ listed result }
        ensures state { (bytes : List ℕ) → HasRead self.old bytes → HasRead self.new (bytes ++ byte ∷ []) }
        ensures few { IfSome result.first HasFewParameters × IfSome result.second HasFewParameters }
    {
        let completed = self.machine.read(byte as char);
        // Most bytes of a sequence complete nothing.
        if let Completed::Nothing = completed {
            return Pair {
                first: None,
                second: None,
            };
        }
        Pair {
            first: self.machine.control(completed),
            second: None,
        }
    }

    // Reads a byte of a character of more than one byte, or one after such a byte.
    #[inline(never)]
    fn feed_part(&mut self, byte: u8) -> Pair
        ensures controls { (bytes : List ℕ) → HasRead self.old bytes → controls (characters (bytes ++ byte ∷ [])) ≡ controls (characters bytes) ++ listed result }
        ensures state { (bytes : List ℕ) → HasRead self.old bytes → HasRead self.new (bytes ++ byte ∷ []) }
        ensures few { IfSome result.first HasFewParameters × IfSome result.second HasFewParameters }
    {
        let (first, second) = self.held.push(byte);
        let first = self.machine.read_any(first);
        let second = self.machine.read_any(second);
        Pair { first, second }
    }
}
