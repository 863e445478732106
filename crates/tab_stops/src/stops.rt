ghost use Rattle.std.specs.Prelude.{◌≡◌, ◌<◌, ◌≤◌, length, slice_set, true, IfOk};
ghost use Rattle.gate_model.specs.terminal.TabStops.{stop_above, stop_below, stops_above, stops_below, stops_cleared, stops_resized};
ghost use Rattle.gate_model.specs.terminal.Terminal.{first_stops, is_first_stop};

use gate_model::NoMemory;
use std::alloc::Global;
use std::marker::Model;

/// The tab stops of a line. Contracts see a list with a flag for each column: whether a stop is there.
#[derive(Drop)]
pub struct TabStops {
    held: Vec<bool>,
}

impl Model for TabStops {
    ghost use Rattle.std.specs.Prelude.{List, Bool};

    ghost Value = { List Bool };

    ghost view = { λ s. s.held.items };
}

impl TabStops {
    /// The stops of a line of so many columns at the start: one at every eighth column but the first (this project's
    /// own rule). Refused for want of memory alone.
    pub fn new(alloc: Global, columns: u16) -> Result<TabStops, NoMemory>
        ensures { IfOk result (λ s. s ≡ first_stops columns) }
    {
        let held = vec![in alloc; false; columns as usize]?;
        let mut stops = TabStops { held };
        stops.reset();
        Ok(stops)
    }

    /// The same stops. Refused for want of memory alone, and then nothing changed.
    pub fn copy(&self, alloc: Global) -> Result<TabStops, NoMemory>
        ensures { IfOk result (λ s. s ≡ self.now) }
    {
        let held = Vec::from_slice(alloc, &self.held)?;
        Ok(TabStops { held })
    }

    /// The stops of so many columns: those that are there stay, and the columns that come in have the stops of the start
    /// (this project's own rule). Refused for want of memory alone.
    pub fn resized(&self, alloc: Global, columns: u16) -> Result<TabStops, NoMemory>
        ensures { IfOk result (λ s. s ≡ stops_resized columns self.now) }
    {
        let first = TabStops::new(alloc, columns)?;
        let kept = self.held.len().min(first.held.len());
        let mut held = Vec::from_slice(alloc, &self.held[..kept])?;
        held.extend_from_slice(&first.held[kept..])?;
        Ok(TabStops { held })
    }

    /// The stops of the start, for as many columns.
    pub fn reset(&mut self)
        ensures { self.new ≡ first_stops (length self.old) }
    {
        let held = &mut self.held;
        for column in 0..held.len() {
            held[column] = is_first_stop(column);
        }
    }

    /// HTS (ECMA-48): a stop at column `x`, counted from 0.
    pub fn set(&mut self, x: u16)
        requires { x < length self.old }
        ensures { self.new ≡ slice_set self.old x true }
    {
        self.held[x as usize] = true;
    }

    /// TBC (ECMA-48): at 0 the stop at column `x` goes, at 3 all go, and any other value changes nothing.
    pub fn clear(&mut self, which: u16, x: u16)
        requires { x < length self.old }
        ensures { self.new ≡ stops_cleared which x self.old }
    {
        match which {
            0 => self.held[x as usize] = false,
            3 => self.held.fill(false),
            _ => {}
        }
    }

    /// HT and CHT (ECMA-48): the column that `n` moves from column `x` lead to, each to the first stop above, or to the
    /// last column where there is none.
    pub fn above(&self, n: u16, x: u16) -> u16
        requires on_line { x < length self.now }
        requires few { length self.now ≤ 512 }
        ensures exact { result ≡ stops_above self.now n x }
        ensures on_line { result < length self.now }
    {
        let last = self.held.len() - 1;
        let mut column = x as usize;
        let mut left = n;
        while left > 0 && column < last {
            column = self.next_above(column);
            left -= 1;
        }
        column as u16
    }

    /// CBT (ECMA-48): the column that `n` moves from column `x` lead to, each to the last stop below, or to the first
    /// column where there is none.
    pub fn below(&self, n: u16, x: u16) -> u16
        requires { x < length self.now }
        ensures exact { result ≡ stops_below self.now n x }
        ensures on_line { result ≤ x }
    {
        let mut column = x;
        let mut left = n;
        while left > 0 && column > 0 {
            column = self.next_below(column);
            left -= 1;
        }
        column
    }

    // The first stop above column `x`, or the last column.
    fn next_above(&self, x: usize) -> usize
        requires { x < length self.now }
        ensures exact { result ≡ stop_above self.now x }
        ensures on_line { result < length self.now }
    {
        let last = self.held.len() - 1;
        let mut column = x + 1;
        while column < last && !self.held[column] {
            column += 1;
        }
        column.min(last)
    }

    // The last stop below column `x`, or the first column.
    fn next_below(&self, x: u16) -> u16
        requires { x < length self.now }
        ensures exact { result ≡ stop_below self.now x }
        ensures on_line { result ≤ x }
    {
        let mut column = x;
        while column > 0 && !self.held[column as usize - 1] {
            column -= 1;
        }
        column.saturating_sub(1)
    }
}

fn is_first_stop(column: usize) -> bool
    ensures { result ≡ is_first_stop column }
{
    column > 0 && column % 8 == 0
}
