// An edge between two numbered points.
ghost use Rattle.std.specs.Prelude.{◌≡◌, ◌≢◌, ◌<◌, min, max};

/// The segment between the points with the numbers `a` and `b`, of which `a` is the less.
/// Edges are ordered by `a` and then by `b`.
#[derive(Clone, Copy, Debug, PartialEq, Eq, PartialOrd, Ord)]
pub struct Edge {
    pub a: u32,
    pub b: u32,
    pub ghost ascending: { a < b },
}

impl Edge {
    /// The edge with these two ends, in either order.
    pub fn of(u: u32, v: u32) -> Edge
        requires { u ≢ v }
        ensures lesser { result.a ≡ min u v }
        ensures greater { result.b ≡ max u v }
    {
        if u < v {
            Edge { a: u, b: v }
        } else {
            Edge { a: v, b: u }
        }
    }
}
