// Which edges cross.
ghost use Rattle.std.specs.Prelude.{◌↔◌, ◌<◌, length, All, Any, IsTrue};
ghost use Rattle.lmt_network.specs.Skeleton.{AreCrossing};

use exact_predicates::{Edge, Points, crosses};

// Whether the two edges cross.
fn are_crossing(points: &Points, e: &Edge, f: &Edge) -> bool
    requires e_in { e.now.b < length points.now.points }
    requires f_in { f.now.b < length points.now.points }
    ensures { IsTrue result ↔ AreCrossing points.now.points e.now f.now }
{
    crosses(
        points.at(e.a),
        points.at(e.b),
        points.at(f.a),
        points.at(f.b),
    )
}

/// Whether the edge crosses one of the others.
pub(crate) fn crosses_one(points: &Points, edge: &Edge, others: &[Edge]) -> bool
    requires edge_in { edge.now.b < length points.now.points }
    requires others_in { All (λ f. f.b < length points.now.points) others.now }
    ensures { IsTrue result ↔ Any (AreCrossing points.now.points edge.now) others.now }
{
    for other in others {
        if are_crossing(points, edge, other) {
            return true;
        }
    }
    false
}
