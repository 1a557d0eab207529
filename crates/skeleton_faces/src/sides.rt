// The sides of edges by number.
ghost use Rattle.std.specs.Prelude.{◌≡◌, ◌*◌, ◌^◌, ◌<◌, length};
ghost use Rattle.skeleton_faces.specs.Sides.{side_start, twin};

use exact_predicates::Edge;

/// The start of the side with this number.
pub(crate) fn start(edges: &[Edge], side: usize) -> u32
    requires { side < 2 * length edges.now }
    ensures { result ≡ side_start edges.now side }
{
    let edge = edges[side / 2];
    if side % 2 == 1 { edge.b } else { edge.a }
}

/// The other side of the edge.
pub(crate) fn other_side(side: usize) -> usize
    requires { side < 2 ^ 40 }
    ensures { result ≡ twin side }
{
    if side % 2 == 1 { side - 1 } else { side + 1 }
}
