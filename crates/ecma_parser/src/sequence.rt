ghost use Rattle.std.specs.Prelude.{◌≡◌, ◌+◌, ◌++◌, ◌∷◌, [], ℕ, List, IsTrue, IsFalse, ◌≤◌, ◌<◌, All, length, min, take};

use crate::values::{DEFAULT, MOST_PARAMETERS, add_digit, is_plain, next_value};
use gate_model::{Control, Params};

const MOST_CHARACTERS: u16 = 256;

/// The parameters of a control sequence so far.
#[derive(Clone, Copy, Debug, PartialEq, Eq)]
pub struct Sequence {
    private: bool,
    // The number of characters after `ESC [`.
    length: u16,
    // The number of separators, at most sixteen: the place of the parameter that is being read.
    place: usize,
    params: Params,
    ghost few: { params.count ≤ 16 },
}

impl Sequence {
    ghost use Rattle.gate_model.specs.terminal.Controls.{HasFewParameters};
    ghost use Rattle.ecma_parser.specs.Sequence.{Holds, HoldsBut, opening, Continues, IsVoid, IsPlain, csi_of, longer, value_at, with_value};

    /// After `ESC [`, or after `ESC [ ?` where it is private.
    pub fn new(private: bool) -> Sequence
        ensures { Holds result (opening private) }
    {
        Sequence {
            private,
            length: if private { 1 } else { 0 },
            place: 0,
            params: Params {
                values: [DEFAULT; 16],
                count: 1,
            },
        }
    }

    /// Reads one more parameter character. False says that the sequence has no effect, whatever follows.
    pub fn push(&mut self, c: char) -> bool
        ensures kept { IsTrue result → (text : List ℕ) → Holds self.old text → Continues text c → Holds self.new (text ++ c ∷ []) }
        ensures void { IsFalse result → (text : List ℕ) → Holds self.old text → Continues text c → IsVoid (text ++ c ∷ []) }
    {
        if self.length >= MOST_CHARACTERS {
            return false;
        }
        match c {
            '0'..='9' => {
                self.push_digit(c as u8);
                true
            }
            ';' => {
                self.push_separator();
                true
            }
            _ => false,
        }
    }

    /// Reads the digits and separators at the front of the piece, but none that is too many, and answers how many.
    pub fn push_front(&mut self, piece: &[u8]) -> usize
        ensures within { result ≤ length piece.now }
        ensures plain { All IsPlain (take result piece.now) }
        ensures holds { (text : List ℕ) → Holds self.old text → Holds self.new (text ++ take result piece.now) }
    {
        if self.length >= MOST_CHARACTERS {
            return 0;
        }
        let room = (MOST_CHARACTERS - self.length) as usize;
        let count = self.push_values(&piece[..room.min(piece.len())]);
        self.length += count as u16;
        count
    }

    // The same of a piece that there is room for, but the characters aren't counted yet.
    fn push_values(&mut self, front: &[u8]) -> usize
        requires room { self.old.length + length front.now ≤ 256 }
        ensures within { result ≤ length front.now }
        ensures plain { All IsPlain (take result front.now) }
        ensures length { self.new.length ≡ self.old.length }
        ensures holds { (text : List ℕ) → Holds self.old text → Holds (longer result self.new) (text ++ take result front.now) }
    {
        // The value at the place stays out of memory until its last digit is read.
        let mut value = self.value();
        for (i, byte) in front.iter().enumerate() {
            if !is_plain(*byte) {
                self.keep(value);
                return i;
            }
            value = self.push_plain(*byte, value);
        }
        self.keep(value);
        front.len()
    }

    // Reads a digit or a separator where this value belongs at the place, and answers the one that does then. The
    // character isn't counted.
    #[inline]
    fn push_plain(&mut self, byte: u8, value: u16) -> u16
        requires plain { IsPlain byte }
        ensures length { self.new.length ≡ self.old.length }
        ensures holds { (text : List ℕ) (n : ℕ) → self.old.length + n < 256 → HoldsBut value (longer n self.old) text → HoldsBut result (longer (n + 1) self.new) (text ++ byte ∷ []) }
    {
        if byte == b';' {
            self.keep(value);
            self.next_place();
            return self.value();
        }
        next_value(value, (byte - b'0') as u32)
    }

    // The value at the place, and a default past the last.
    #[inline]
    fn value(&self) -> u16
        ensures { result ≡ value_at self.now.place self.now.params.values }
    {
        if self.place < MOST_PARAMETERS {
            self.params.values[self.place]
        } else {
            DEFAULT
        }
    }

    // The value comes to the place, or to none past the last.
    #[inline]
    fn keep(&mut self, value: u16)
        ensures { self.new ≡ record self.old { params = record self.old.params { values = with_value self.old.place value self.old.params.values } } }
    {
        if self.place < MOST_PARAMETERS {
            self.params.values[self.place] = value;
        }
    }

    #[inline]
    fn push_digit(&mut self, byte: u8)
        requires from { 48 ≤ byte }
        requires to { byte ≤ 57 }
        requires room { self.old.length < 256 }
        ensures { (text : List ℕ) → Holds self.old text → Holds self.new (text ++ byte ∷ []) }
    {
        self.length += 1;
        add_digit(&mut self.params.values, self.place, (byte - b'0') as u32);
    }

    #[inline]
    fn push_separator(&mut self)
        requires room { self.old.length < 256 }
        ensures { (text : List ℕ) → Holds self.old text → Holds self.new (text ++ 59 ∷ []) }
    {
        self.length += 1;
        self.next_place();
    }

    // The next parameter is read.
    #[inline]
    fn next_place(&mut self)
        ensures place { self.new.place ≡ min 16 (self.old.place + 1) }
        ensures count { self.new.params.count ≡ min 16 (self.new.place + 1) }
        ensures same { (self.new.private ≡ self.old.private) × (self.new.length ≡ self.old.length) × (self.new.params.values ≡ self.old.params.values) }
    {
        self.place = self.place.saturating_add(1).min(MOST_PARAMETERS);
        self.params.count = (self.place + 1).min(MOST_PARAMETERS) as u8;
    }

    /// Whether the sequence is private.
    pub fn is_private(&self) -> bool
        ensures { result ≡ self.now.private }
    {
        self.private
    }

    /// The parameters so far, lent.
    pub fn params(&self) -> &Params
        ensures params { result.now ≡ self.now.params }
        ensures few { result.now.count ≤ 16 }
    {
        &self.params
    }

    /// The control sequence with this final character.
    pub fn control(&self, last: u8) -> Control
        ensures control { result ≡ csi_of self.now last }
        ensures few { HasFewParameters result }
    {
        Control::Csi {
            private: self.private,
            params: self.params,
            last,
        }
    }
}
