// Sides, ready for queries.
ghost use Rattle.std.specs.Prelude.{◌≡◌, ℕ, IfOk};
ghost use Rattle.svg_picture.specs.Edges.{has_side, joins};

use std::alloc::{AllocError, Global};
use std::marker::Model;

/// A side, from its first end to its second, by the numbers of the points.
pub type Side = (u32, u32);

/// Some sides in the order of their ends.
#[derive(Drop)]
pub struct SideSet {
    sides: Vec<Side>,
}

impl Model for SideSet {
    ghost use Rattle.std.specs.Prelude.{List, ℕ};
    ghost use Rattle.std.specs.List.Sorted.{IsSorted};
    ghost use Rattle.svg_picture.specs.Edges.{side_cmp};

    ghost Value = { List (ℕ × ℕ) };

    ghost view = { λ s. s.sides.items };

    ghost invariant = { λ s. IsSorted side_cmp s.sides.items };
}

impl SideSet {
    /// The set of these sides. For n of them it takes time n log n.
    pub fn of(alloc: Global, sides: &[Side]) -> Result<SideSet, AllocError>
        ensures { IfOk result (λ set. (u v : ℕ) → has_side set u v ≡ has_side sides.now u v) }
    {
        let mut sides = Vec::from_slice(alloc, sides)?;
        sides.sort_unstable();
        Ok(SideSet { sides })
    }

    /// Whether the side is in the set. The time is logarithmic.
    pub fn has(&self, u: u32, v: u32) -> bool
        ensures { result ≡ has_side self.now u v }
    {
        self.sides.binary_search(&(u, v)).is_ok()
    }

    /// Whether a side in the set joins these two, in one direction or the other.
    pub fn joins(&self, u: u32, v: u32) -> bool
        ensures { result ≡ joins self.now (u, v) }
    {
        self.has(u, v) || self.has(v, u)
    }
}
