ghost use Rattle.std.specs.Prelude.{◌≡◌, OnOk};
ghost use Rattle.uug_sim_ladder.specs.Rungs.{added, ladder_shown, no_rungs, what_shown};

use crate::rung::{Fate, Rung, What};
use std::alloc::{AllocError, Allocator};
use uug_line::Side;

/// The occurrences in the sessions of a script.
#[derive(Drop)]
pub struct Ladder<A: Allocator> {
    /// The rungs, in order.
    pub rungs: Vec<Rung<A>, A>,
    /// The fate of what each of them sends.
    pub fates: Vec<Fate, A>,
}

impl<A: Allocator + Copy> Ladder<A> {
    /// Makes an empty ladder.
    pub(crate) fn new(alloc: A) -> Self
        ensures { ladder_shown result ≡ no_rungs }
    {
        Ladder {
            rungs: Vec::new(alloc),
            fates: Vec::new(alloc),
        }
    }
}

impl<A: Allocator> Ladder<A> {
    /// Adds a rung after the others.
    pub(crate) fn add(
        &mut self,
        event: Option<usize>,
        side: Side,
        what: What<A>,
    ) -> Result<(), AllocError>
        ensures { OnOk result (ladder_shown self.new
            ≡ added event side (what_shown what) (ladder_shown self.old)) }
    {
        self.rungs.push(Rung { event, side, what })?;
        self.fates.push(Fate::OnTheWay)?;
        Ok(())
    }
}
