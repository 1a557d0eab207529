// Whether edges join all points, by groups of points that are joined.
ghost use Rattle.std.specs.Prelude.{◌≡◌, ◌↔◌, ℕ, ◌<◌, ◌≤◌, length, All, IfOk, IsTrue, List, slice_index};
ghost use Rattle.exact_predicates.specs.declared.edge.Edge.{Edge};
ghost use Rattle.exact_predicates.specs.Candidates.{HasEdge};
ghost use Rattle.skeleton_faces.specs.Groups.{AreJoinedParents, AreLesser, IsCoarser, IsNaming};
ghost use Rattle.skeleton_faces.specs.Walks.{AreJoined, IsConnected};

use exact_predicates::{Edges, Points};
use mwt_base::NoMemory;
use std::alloc::Global;

/// Whether the edges join all points: whether a walk along them leads from each point to each other
/// one. `NoMemory` is the only error. For n points and edges it takes time n log n at most.
pub fn connected(alloc: Global, points: &Points, skeleton: &Edges) -> Result<bool, NoMemory>
    requires { All (λ e. e.b < length points.now.points) skeleton.now }
    ensures { IfOk result (λ joined. IsTrue joined ↔ IsConnected points.now.points skeleton.now) }
{
    let mut parents = Vec::new(alloc);
    for p in 0..points.len() {
        parents.push(p)?;
    }
    for edge in skeleton.as_slice() {
        join(&mut parents, edge.a, edge.b);
    }
    Ok(is_one_group(&parents))
}

// The least point of the group of p. A point's parent is a lesser point of its group, and the least
// one is its own parent. On the way each second point gets the parent of its parent, which keeps
// later ways short.
fn least(parents: &mut [u32], p: u32) -> u32
    requires p_in { p < length parents.old }
    requires lesser { AreLesser parents.old }
    ensures lesser { AreLesser parents.new }
    ensures own { slice_index parents.new result ≡ result }
    ensures bound { result ≤ p }
    ensures joined { (es : List Edge) → AreJoinedParents es parents.old → AreJoinedParents es parents.new × AreJoined es p result }
    ensures named { (name : ℕ → ℕ) → IsNaming parents.old name → IsNaming parents.new name × (name p ≡ result) }
{
    let mut at = p;
    while parents[at as usize] < at {
        let next = parents[parents[at as usize] as usize];
        parents[at as usize] = next;
        at = next;
    }
    at
}

// Makes one group of the groups of u and v.
fn join(parents: &mut [u32], u: u32, v: u32)
    requires u_in { u < length parents.old }
    requires v_in { v < length parents.old }
    requires lesser { AreLesser parents.old }
    ensures lesser { AreLesser parents.new }
    ensures joined { (es : List Edge) → HasEdge es u v → AreJoinedParents es parents.old → AreJoinedParents es parents.new }
    ensures named { (name : ℕ → ℕ) → IsNaming parents.old name → (coarser : ℕ → ℕ) × IsNaming parents.new coarser × IsCoarser name coarser × (coarser u ≡ coarser v) }
{
    let a = least(parents, u);
    let b = least(parents, v);
    parents[a.max(b) as usize] = a.min(b);
}

// Whether all points are in one group.
fn is_one_group(parents: &[u32]) -> bool
    ensures { IsTrue result ↔ ((p : ℕ) → 0 < p → p < length parents.now → slice_index parents.now p < p) }
{
    for p in 1..parents.len() {
        if parents[p] as usize >= p {
            return false;
        }
    }
    true
}
