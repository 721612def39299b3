//! Where a line stops to have a form.
ghost use Rattle.std.specs.Prelude.{◌≡◌, option_to_list, IfOk, OnOk};
ghost use Rattle.explain_model.specs.Forms.{spot_of_stop, with_stop};
ghost use Rattle.explain_model.specs.Spots.{spot_at};
ghost use Rattle.marked_lines.specs.Stops.{stop_of_kept, spot_of_kept};

use crate::wants::add_wants;
use explain_model::Want;
use std::alloc::{AllocError, Global};

/// Where a line stops to have a form: the place of the first token that does not fit, or behind the last where all do; and what may stand there,
/// None where the line has the whole form.
#[derive(Clone, Copy)]
pub struct Stop {
    pub at: usize,
    pub all_fit: bool,
    pub want: Option<Want>,
}

/// The place where the forms of a line stop that go farthest, and all that may stand there.
#[derive(Drop)]
pub struct Spot {
    pub at: usize,
    pub all_fit: bool,
    pub wants: Vec<Want>,
}

impl Spot {
    /// A place where this may stand, if something may. The error is want of memory, here and below.
    pub fn new(alloc: Global, at: usize, want: Option<Want>) -> Result<Spot, AllocError>
        ensures { IfOk result (λ spot. spot_of_kept spot ≡ spot_at at (option_to_list want)) }
    {
        let mut wants = Vec::new(alloc);
        if let Some(want) = want {
            wants.push(want)?;
        }
        Ok(Spot {
            at,
            all_fit: false,
            wants,
        })
    }

    /// The place where one form stops.
    pub fn of_stop(alloc: Global, stop: Stop) -> Result<Spot, AllocError>
        ensures { IfOk result (λ spot. spot_of_kept spot ≡ spot_of_stop (stop_of_kept stop)) }
    {
        let mut wants = Vec::new(alloc);
        add_wants(&mut wants, stop.want)?;
        Ok(Spot {
            at: stop.at,
            all_fit: stop.all_fit,
            wants,
        })
    }

    /// Takes one form more into account.
    pub fn add_stop(&mut self, stop: Stop) -> Result<(), AllocError>
        ensures spot { OnOk result (spot_of_kept self.new ≡ with_stop (spot_of_kept self.old) (stop_of_kept stop)) }
    {
        if stop.at < self.at {
            return Ok(());
        }
        if self.at < stop.at {
            self.wants.clear();
        }
        self.at = stop.at;
        self.all_fit = stop.all_fit;
        add_wants(&mut self.wants, stop.want)
    }
}
