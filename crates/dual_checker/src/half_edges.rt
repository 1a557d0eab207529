// The half-edges of a list of triangles, and those of one side.
ghost use Rattle.std.specs.Prelude.{◌≡◌, filter, count_by, IfOk, IsPermutation};
ghost use Rattle.std.specs.Ordering.{is_lt, is_le};
ghost use Rattle.dual_checker.specs.HalfEdges.{half_edge, half_edges, half_edges_of, is_on, side_cmp};

use exact_predicates::Tri;
use std::alloc::{AllocError, Global};
use std::marker::Model;

/// A side of a triangle, in its direction.
#[derive(Clone, Copy, PartialEq, Eq, PartialOrd, Ord)]
pub struct Side {
    pub from: u32,
    pub to: u32,
}

impl Side {
    /// The same in the other direction.
    pub fn reversed(self) -> Side
        ensures { result ≡ record { from = self.to; to = self.from } }
    {
        Side {
            from: self.to,
            to: self.from,
        }
    }
}

/// A side of a triangle with the corner opposite to it.
#[derive(Clone, Copy)]
pub struct HalfEdge {
    pub side: Side,
    pub apex: u32,
}

/// The half-edges of a list of triangles, in the order of their sides.
#[derive(Drop)]
pub struct HalfEdges {
    items: Vec<HalfEdge>,
}

impl Model for HalfEdges {
    ghost use Rattle.std.specs.Prelude.{List};
    ghost use Rattle.dual_checker.specs.declared.half_edges.HalfEdge.{HalfEdge};
    ghost use Rattle.dual_checker.specs.HalfEdges.{AreBySide};

    ghost Value = { List HalfEdge };

    ghost view = { λ h. h.items.items };

    ghost invariant = { λ h. AreBySide h.items.items };
}

impl HalfEdges {
    /// The half-edges of these triangles. For n triangles it takes time n log n.
    pub fn of(alloc: Global, tris: &[Tri]) -> Result<HalfEdges, AllocError>
        ensures { IfOk result (λ halves. IsPermutation (half_edges tris.now) halves) }
    {
        let mut items = Vec::new(alloc);
        for tri in tris {
            items.extend_from_slice(&half_edges_of(*tri))?;
        }
        items.sort_unstable_by_key(|half: &HalfEdge| half.side);
        Ok(HalfEdges { items })
    }

    /// All of them.
    pub fn as_slice(&self) -> &[HalfEdge]
        ensures { result.now ≡ self.now }
    {
        &self.items
    }

    /// Those of one side.
    pub fn on(&self, side: Side) -> &[HalfEdge]
        ensures { result.now ≡ filter (is_on side) self.now }
    {
        let from = self.items.partition_point(
            |half: &HalfEdge| -> bool
                ensures { result ≡ is_lt (side_cmp half.now.side side) }
            { half.side.cmp(&side).is_lt() },
        );
        let to = self.items.partition_point(
            |half: &HalfEdge| -> bool
                ensures { result ≡ is_le (side_cmp half.now.side side) }
            { half.side.cmp(&side).is_le() },
        );
        &self.items[from..to]
    }

    /// How many there are of one side.
    pub fn count(&self, side: Side) -> usize
        ensures { result ≡ count_by (is_on side) self.now }
    {
        self.on(side).len()
    }
}

// The half-edges of a triangle.
fn half_edges_of(tri: Tri) -> [HalfEdge; 3]
    ensures { result ≡ half_edges_of tri }
{
    [
        half_edge(tri.a, tri.b, tri.c),
        half_edge(tri.b, tri.c, tri.a),
        half_edge(tri.c, tri.a, tri.b),
    ]
}

fn half_edge(from: u32, to: u32, apex: u32) -> HalfEdge
    ensures { result ≡ half_edge from to apex }
{
    HalfEdge {
        side: Side { from, to },
        apex,
    }
}
