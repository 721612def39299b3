//! What every cell keeps, as a law.
ghost use Rattle.log_cells.specs.Keeps.{CellState, IsMoment, CellKeeps, StepsGoOn, StepsCount};

use crate::cell::Cell;
use link_logs::{Log, Story};

impl<S: Story> Cell<S> {
    /// What this cell keeps between any two steps of any two threads, at a moment at which its log is as `log` is (`CellKeeps`), what a step of an
    /// end leaves of what that end knows (`StepsGoOn`), and what it counts (`StepsCount`), of `Rattle.log_cells.specs.Keeps`. It does nothing. See
    /// docs/inside/LOOKAHEAD_INSIDE.md.
    pub fn keeps(&self, log: &Log<S>)
        ensures keeps { (s : CellState S.Run) → IsMoment self.now s log.now → CellKeeps S.entries_at self.now s log.now }
        ensures steps { StepsGoOn S.Run }
        ensures counts { StepsCount S.Run }
    {
        // What every log keeps is told where its entries are read.
        let _entries = log.entries();
    }
}
