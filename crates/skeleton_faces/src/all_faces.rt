// The faces of a list of edges.
ghost use Rattle.std.specs.Prelude.{IfOk};
ghost use Rattle.skeleton_faces.specs.Faces.{AreClear, AreFaces};

use crate::face_list::Faces;
use crate::rays::sides_round;
use crate::rounds::Rounds;
use crate::turns::nexts;
use exact_predicates::{Edges, Points};
use mwt_base::NoMemory;
use std::alloc::Global;

/// The faces of the edges. The side after u to v is v to x, where x is the first neighbour of v that
/// is met when one turns clockwise at v from the direction of u, and u where v has no other. A face
/// is a cycle of this rule. Each begins at its least side, and they come in the order of their first
/// sides; no edges have no face. Where no two edges cross, a face lies on the left of its sides.
/// `NoMemory` is the only error. For n edges it takes time n log n.
pub fn faces(alloc: Global, points: &Points, skeleton: &Edges) -> Result<Faces, NoMemory>
    requires { AreClear points.now.points skeleton.now }
    ensures { IfOk result (λ faces. AreFaces points.now.points skeleton.now faces) }
{
    let edges = skeleton.as_slice();
    let order = sides_round(alloc, points.as_slice(), edges)?;
    let nexts = nexts(alloc, edges, &order)?;
    let mut rounds = Rounds::none(alloc, nexts.len())?;
    // The least side of a face goes along its edge from the lesser end to the greater.
    for edge in 0..edges.len() {
        rounds.take(edges, &nexts, edge)?;
    }
    let Rounds { starts, bounds, .. } = rounds;
    Ok(Faces { starts, bounds })
}
