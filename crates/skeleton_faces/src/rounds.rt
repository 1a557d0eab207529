// Going round faces from side to side.
ghost use Rattle.std.specs.Prelude.{◌≡◌, ◌+◌, ◌*◌, ◌^◌, ◌<◌, false, length, AllPairs, IfOk, OnOk, slice_index_or};
ghost use Rattle.exact_predicates.specs.Candidates.{EdgePrecedes};
ghost use Rattle.skeleton_faces.specs.Rounds.{AreClosed, AreFollowing, AreTraced, IsRound, IsStart};

use crate::sides::start;
use exact_predicates::Edge;
use std::alloc::{AllocError, Global};

// The faces so far: which sides are in one of them, the starts of these face after face, and where
// each face begins there and the last one ends.
#[derive(Drop)]
pub(crate) struct Rounds {
    pub(crate) done: Vec<bool>,
    pub(crate) starts: Vec<u32>,
    pub(crate) bounds: Vec<usize>,
}

// Goes from the side `first` from side to side until one is done, and appends the starts.
fn go_round(
    edges: &[Edge],
    nexts: &[usize],
    first: usize,
    done: &mut [bool],
    starts: &mut Vec<u32>,
) -> Result<(), AllocError>
    requires following { AreFollowing edges.now nexts.now }
    requires one_each { length done.old ≡ length nexts.now }
    requires closed { AreClosed nexts.now done.old }
    requires first_in { first < length nexts.now }
    requires fresh { slice_index_or done.old first false ≡ false }
    ensures { OnOk result (IsRound edges.now nexts.now first done.old starts.old.items done.new starts.new.items) }
{
    let mut side = first;
    while !done[side] {
        done[side] = true;
        starts.push(start(edges, side))?;
        side = nexts[side];
    }
    Ok(())
}

impl Rounds {
    // No face so far, of so many sides.
    pub(crate) fn none(alloc: Global, sides: usize) -> Result<Rounds, AllocError>
        ensures { IfOk result (λ rounds. IsStart sides rounds) }
    {
        let mut bounds = Vec::new(alloc);
        bounds.push(0)?;
        Ok(Rounds {
            done: Vec::from_elem(alloc, false, sides)?,
            starts: Vec::new(alloc),
            bounds,
        })
    }

    // Takes the edge with this number: if its side forward is in no face so far, it is the least one of
    // the next face.
    pub(crate) fn take(
        &mut self,
        edges: &[Edge],
        nexts: &[usize],
        edge: usize,
    ) -> Result<(), AllocError>
        requires ascending { AllPairs EdgePrecedes edges.now }
        requires few { length edges.now < 2 ^ 32 }
        requires edge_in { edge < length edges.now }
        requires following { AreFollowing edges.now nexts.now }
        requires traced { AreTraced edges.now nexts.now edge self.old }
        ensures { OnOk result (AreTraced edges.now nexts.now (edge + 1) self.new) }
    {
        let first = 2 * edge;
        if !self.done[first] {
            go_round(edges, nexts, first, &mut self.done, &mut self.starts)?;
            self.bounds.push(self.starts.len())?;
        }
        Ok(())
    }
}
