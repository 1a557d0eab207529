// What the parts of faces cost.
ghost use Rattle.std.specs.Prelude.{◌≡◌, IfOk};
ghost use Rattle.face_optimum.specs.Cuts.{AreCosts};
ghost use Rattle.face_optimum.specs.Sites.{IsSite, faces_of};

use crate::site::Site;
use std::alloc::{AllocError, Global};

// Of each live edge outside the skeleton, what the part that it cuts off its face costs with it, at
// best, and the triangle that stands on it there. The cost of any other edge is 0.
#[derive(Drop)]
pub(crate) struct Costs {
    pub(crate) costs: Vec<u64>,
    pub(crate) choices: Vec<u32>,
}

impl<'a> Site<'a> {
    // The costs and choices, by nearer places first.
    pub(crate) fn costs(&self, alloc: Global) -> Result<Costs, AllocError>
        requires { IsSite self.now }
        ensures { IfOk result (λ c. AreCosts self.now.net.now self.now.flags.now self.now.skeleton.now (faces_of self.now)
            self.now.edge_seats.now self.now.tri_seats.now c.costs.items c.choices.items) }
    {
        let edges = self.net.edges() as usize;
        let mut costs = Vec::from_elem(alloc, 0, edges)?;
        let mut choices = Vec::from_elem(alloc, 0, edges)?;
        let order = self.order(alloc)?;
        for e in &order {
            let (from, to) = self.base(*e);
            let cut = self.cut_on(&costs, *e, from, to);
            costs[*e as usize] = self.net.weight(*e) + cut.sum;
            choices[*e as usize] = cut.tri;
        }
        Ok(Costs { costs, choices })
    }
}
