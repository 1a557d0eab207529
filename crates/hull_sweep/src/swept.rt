// The two chains and the triangles between them, point by point.
ghost use Rattle.std.specs.Prelude.{◌+◌, ◌<◌, length, OnOk, IfOk};
ghost use Rattle.exact_predicates.specs.PointSet.{IsPointSet, point_at};
ghost use Rattle.hull_sweep.specs.Swept.{IsSwept};

use crate::chain::Chain;
use crate::join::join;
use exact_predicates::{Points, Tri};
use mwt_base::NoMemory;
use std::alloc::Global;

/// What the sweep has made of the points so far: their hull as two chains, and the triangles.
#[derive(Drop)]
pub(crate) struct Swept {
    pub(crate) lower: Vec<u32>,
    pub(crate) upper: Vec<u32>,
    pub(crate) tris: Vec<Tri>,
}

impl Swept {
    /// All points swept.
    pub(crate) fn of(alloc: Global, points: &Points) -> Result<Swept, NoMemory>
        ensures valid { IsPointSet points.now.points }
        ensures swept { IfOk result (λ s.
            IsSwept (point_at points.now.points) (length points.now.points) s.lower.items s.upper.items s.tris.items) }
    {
        let count = points.len();
        let mut swept = Swept {
            lower: Vec::new(alloc),
            upper: Vec::new(alloc),
            tris: Vec::new(alloc),
        };
        swept.lower.push(0)?;
        swept.upper.push(0)?;
        for q in 1..count {
            swept.add(points, q)?;
        }
        Ok(swept)
    }

    /// Sweeps the next point `q`: joins it to both chains, pops what it hides, and puts it on top.
    fn add(&mut self, points: &Points, q: u32) -> Result<(), NoMemory>
        requires points { IsPointSet points.now.points }
        requires q_in { q < length points.now.points }
        requires swept { IsSwept (point_at points.now.points) q
            self.old.lower.items self.old.upper.items self.old.tris.items }
        ensures { OnOk result (IsSwept (point_at points.now.points) (q + 1)
            self.new.lower.items self.new.upper.items self.new.tris.items) }
    {
        let low = join(points, Chain::Lower, q, &self.lower, &mut self.tris)?;
        let high = join(points, Chain::Upper, q, &self.upper, &mut self.tris)?;
        self.lower.truncate(low);
        self.lower.push(q)?;
        self.upper.truncate(high);
        self.upper.push(q)?;
        Ok(())
    }
}
