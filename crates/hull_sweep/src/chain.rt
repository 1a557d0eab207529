// The two sides of a hull: its lower and its upper chain.
ghost use Rattle.std.specs.Prelude.{◌≡◌, ◌<◌, length};
ghost use Rattle.exact_predicates.specs.PointSet.{point_at};

use exact_predicates::{Points, Tri, orient};

/// One of the two chains of a hull. Both go from point 0 up to the newest point.
#[derive(Clone, Copy)]
pub(crate) enum Chain {
    Lower,
    Upper,
}

impl Chain {
    ghost use Rattle.hull_sweep.specs.Chain.{turn};
    ghost use Rattle.hull_sweep.specs.Join.{HasTriangle};

    /// Where `r` lies from the chain's pair with the lower end `p` and the higher end `q`: positive
    /// is inside the hull, 0 on the line of the pair, and negative outside, from where it is visible.
    pub(crate) fn turn(self, points: &Points, p: u32, q: u32, r: u32) -> i128
        requires p_in { p < length points.now.points }
        requires q_in { q < length points.now.points }
        requires r_in { r < length points.now.points }
        ensures { let ps = points.now.points in result ≡ turn self (point_at ps p) (point_at ps q) (point_at ps r) }
    {
        match self {
            Chain::Lower => orient(points.at(p), points.at(q), points.at(r)),
            Chain::Upper => orient(points.at(q), points.at(p), points.at(r)),
        }
    }

    /// The triangle of `q` with the chain's pair from `y` up to `x`, which is visible from `q`.
    pub(crate) fn triangle(self, y: u32, x: u32, q: u32) -> Tri
        requires up { y < x }
        requires later { x < q }
        ensures { HasTriangle self y x q result }
    {
        match self {
            Chain::Lower => Tri { a: y, b: q, c: x },
            Chain::Upper => Tri { a: y, b: x, c: q },
        }
    }
}
