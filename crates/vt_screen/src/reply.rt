ghost use Rattle.std.specs.Prelude.{◌≡◌, ◌+◌, ◌%◌, ◌<◌, ◌≤◌, [], ◌++◌, length, decimal};

use std::marker::Model;

/// What a screen reports to the Telnet host after a control function: nothing, or one report of at
/// most 10 bytes. Contracts see its bytes.
#[derive(Drop)]
pub struct Reply {
    bytes: [u8; 10],
    count: u8,
}

impl Model for Reply {
    ghost use Rattle.std.specs.Prelude.{ℕ, List, ◌≤◌, take};

    ghost Value = { List ℕ };

    ghost view = { λ r. take r.count r.bytes };

    ghost invariant = { λ r. r.count ≤ 10 };
}

impl Reply {
    // No report.
    pub(crate) fn none() -> Reply
        ensures { result ≡ [] }
    {
        Reply {
            bytes: [0; 10],
            count: 0,
        }
    }

    // Appends the bytes.
    pub(crate) fn append(&mut self, bytes: &[u8])
        requires { length self.old + length bytes.now ≤ 10 }
        ensures { self.new ≡ self.old ++ bytes.now }
    {
        let start = self.count as usize;
        let end = start + bytes.len();
        self.bytes[start..end].copy_from_slice(bytes);
        self.count = end as u8;
    }

    // Appends the decimal digits of a number of at most three.
    #[tactic(auto, using(crate::proofs::Decimals::one_digit, crate::proofs::Decimals::two_digits, crate::proofs::Decimals::three_digits))]
    pub(crate) fn append_number(&mut self, number: u16)
        requires small { number < 1000 }
        requires room { length self.old + 3 ≤ 10 }
        ensures exact { self.new ≡ self.old ++ decimal number }
        ensures few { length self.new ≤ length self.old + 3 }
    {
        match number {
            0..=9 => self.append(&[digit(number)]),
            10..=99 => self.append(&[digit(number / 10), digit(number)]),
            _ => self.append(&[digit(number / 100), digit(number / 10), digit(number)]),
        }
    }

    /// The report's bytes, lent, or none; at most 10.
    pub fn as_slice(&self) -> &[u8]
        ensures exact { result.now ≡ self.now }
        ensures few { length result.now ≤ 10 }
    {
        &self.bytes[..self.count as usize]
    }
}

// The last decimal digit of a number.
fn digit(number: u16) -> u8
    ensures { result ≡ 48 + number % 10 }
{
    b'0' + (number % 10) as u8
}
