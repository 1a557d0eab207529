// The pairs of a hull, ready for queries.
ghost use Rattle.std.specs.Prelude.{◌≡◌, ◌↔◌, map, Contains, IsTrue, IfOk, IsPermutation};
ghost use Rattle.exact_predicates.specs.Hull.{ring_pairs};
ghost use Rattle.dual_checker.specs.HalfEdges.{side_of};

use crate::half_edges::Side;
use exact_predicates::next_on_hull;
use std::alloc::{AllocError, Global};
use std::marker::Model;

/// The pairs of a hull, in the order of sides.
#[derive(Drop)]
pub struct Rim {
    sides: Vec<Side>,
}

impl Model for Rim {
    ghost use Rattle.std.specs.Prelude.{List};
    ghost use Rattle.std.specs.List.Sorted.{IsSorted};
    ghost use Rattle.dual_checker.specs.declared.half_edges.Side.{Side};
    ghost use Rattle.dual_checker.specs.HalfEdges.{side_cmp};

    ghost Value = { List Side };

    ghost view = { λ r. r.sides.items };

    ghost invariant = { λ r. IsSorted side_cmp r.sides.items };
}

impl Rim {
    /// The pairs of this hull. For n of them it takes time n log n.
    pub fn of(alloc: Global, hull: &[u32]) -> Result<Rim, AllocError>
        ensures { IfOk result (λ rim. IsPermutation (map side_of (ring_pairs hull.now)) rim) }
    {
        let mut sides = Vec::new(alloc);
        for (k, &from) in hull.iter().enumerate() {
            let to = next_on_hull(hull, k);
            sides.push(Side { from, to })?;
        }
        sides.sort_unstable();
        Ok(Rim { sides })
    }

    /// All of them.
    pub fn as_slice(&self) -> &[Side]
        ensures { result.now ≡ self.now }
    {
        &self.sides
    }

    /// Whether a side is one of them.
    pub fn has(&self, side: Side) -> bool
        ensures { IsTrue result ↔ Contains self.now side }
    {
        self.sides.binary_search(&side).is_ok()
    }
}
