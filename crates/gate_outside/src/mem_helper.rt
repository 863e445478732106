ghost use Rattle.gate_outside.specs.declared.mem_helper.MemHelper.{out-MemHelper};

use crate::{
    Clock, Counted, DialFault, Dialer, Dice, Helper, MemClock, MemDialer, MemDice, MemSink,
    MemSource, MemSpawner, Spawner, Way,
};
use gate_model::NoMemory;
use std::alloc::Global;

/// A helper of four parts in memory, which hands out others in order and then has none.
#[derive(Drop)]
pub struct MemHelper {
    dialer: MemDialer,
    spawner: MemSpawner,
    clock: MemClock,
    dice: MemDice,
    // The last comes first.
    others: Vec<MemHelper>,
}

impl MemHelper {
    /// A helper that dials, starts, tells moments and draws by these four, and hands out `others`.
    pub fn new(
        dialer: MemDialer,
        spawner: MemSpawner,
        clock: MemClock,
        dice: MemDice,
        mut others: Vec<MemHelper>,
    ) -> MemHelper {
        others.reverse();
        MemHelper {
            dialer,
            spawner,
            clock,
            dice,
            others,
        }
    }
}

impl Counted for MemHelper {
    ghost helper = { λ s. record { dial_faults = (⟦<MemDialer as Counted>⟧.helper (out-MemHelper s).dialer).dial_faults; start_faults = (⟦<MemSpawner as Counted>⟧.helper (out-MemHelper s).spawner).start_faults; draws = (⟦<MemDice as Counted>⟧.helper (out-MemHelper s).dice).draws } };
}

impl Dialer for MemHelper {
    type Input = MemSource;

    type Output = MemSink;

    fn dial(
        &mut self,
        alloc: Global,
        host: &str,
        port: u16,
    ) -> Result<(MemSource, MemSink), DialFault> {
        self.dialer.dial(alloc, host, port)
    }
}

impl Spawner for MemHelper {
    ghost refuses = { λ s. ⟦<MemSpawner as Spawner>⟧.refuses (out-MemHelper s).spawner };

    fn way(&mut self) -> Way {
        self.spawner.way()
    }

    fn note(&mut self) {
        self.spawner.note();
    }
}

impl Clock for MemHelper {
    fn now(&mut self) -> u64 {
        self.clock.now()
    }
}

impl Dice for MemHelper {
    fn bytes(&mut self) -> [u8; 16] {
        self.dice.bytes()
    }
}

impl Helper for MemHelper {
    fn another(&mut self, _alloc: Global) -> Result<MemHelper, NoMemory> {
        self.others.pop().ok_or(NoMemory)
    }
}
