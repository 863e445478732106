use gate_outside::{Failed, Source};

/// A source that gives a nine at each read, and never ends or fails.
#[derive(Drop)]
pub struct Nines;

impl Source for Nines {
    ghost use Rattle.std.specs.Prelude.{None};

    ghost left = { λ _. None };

    ghost faults = { λ _. 0 };

    fn read(&mut self, into: &mut [u8]) -> Result<usize, Failed> {
        into[0] = b'9';
        Ok(1)
    }
}
