// The skeleton of the live edges.
ghost use Rattle.std.specs.Prelude.{◌≡◌, ◌↔◌, ◌<◌, ℕ, List, false, true, length, All, Any, IfOk, slice_index_or};
ghost use Rattle.std.specs.List.{items_where_true};
ghost use Rattle.exact_predicates.specs.declared.diamond.Diamond.{Diamond};
ghost use Rattle.exact_predicates.specs.declared.tri.Tri.{Tri};
ghost use Rattle.lmt_network.specs.Edges.{HasCandidateEdges, IsEdgeOf};
ghost use Rattle.lmt_network.specs.Flags.{live_edges};
ghost use Rattle.lmt_network.specs.FlipMinimal.{IsFlipMinimalTriangulation};
ghost use Rattle.lmt_network.specs.Live.{IsLive};
ghost use Rattle.lmt_network.specs.Network.{edge_at};
ghost use Rattle.lmt_network.specs.Skeleton.{AreCrossing, AreSkeleton};

use crate::bare::bare_edges;
use crate::crossings::crosses_one;
use crate::fans::uncovered;
use exact_predicates::{Edge, Edges, Points};
use lmt_network::{Flags, Network};
use mwt_base::NoMemory;
use std::alloc::{AllocError, Global};

/// The skeleton of the live edges: those that no other live edge crosses, ascending. `NoMemory` is the
/// only error. An edge is crossed where a live triangle has it in its angle at a corner, and else only
/// where one crosses it that lacks a live triangle on one of its sides, of which the live list has
/// none. So for the live list of n edges and m triangles it takes time n log n + m. Where the edges
/// are the live list, each skeleton edge is an edge of every flip-minimal triangulation of candidate
/// edges. After M. T. Dickerson and M. H. Montague, "A (usually?) connected subgraph of the minimum
/// weight triangulation" (1996).
pub fn skeleton(
    alloc: Global,
    points: &Points,
    net: &Network,
    flags: &Flags,
) -> Result<Edges, NoMemory>
    requires same_points { net.now.points ≡ points.now.points }
    requires one_each { length flags.now ≡ length net.now.edges }
    ensures skeleton { IfOk result (λ skeleton. AreSkeleton points.now.points (live_edges net.now flags.now) skeleton) }
    ensures in_flip_minimal { IfOk result (λ skeleton. (diamond : Diamond) (tris : List Tri)
        → IsLive net.now.points net.now.hull diamond (live_edges net.now flags.now)
        → IsFlipMinimalTriangulation net.now.points net.now.hull tris → HasCandidateEdges net.now.points net.now.hull diamond tris
        → All (IsEdgeOf net.now.hull tris) skeleton) }
{
    let mut uncrossed = uncovered(alloc, points, net, flags)?;
    let bare = bare_edges(alloc, net, flags)?;
    drop_crossed(points, net, &bare, &mut uncrossed);
    let skeleton = chosen(alloc, net, &uncrossed)?;
    Ok(Edges::of(skeleton))
}

// Lets fall the flags of the edges that one of the others crosses.
fn drop_crossed(points: &Points, net: &Network, others: &[Edge], flags: &mut [bool])
    requires same_points { net.now.points ≡ points.now.points }
    requires one_each { length flags.old ≡ length net.now.edges }
    requires others_in { All (λ f. f.b < length points.now.points) others.now }
    ensures one_each { length flags.new ≡ length net.now.edges }
    ensures uncrossed { (e : ℕ) → e < length net.now.edges → (slice_index_or flags.new e false ≡ true)
        ↔ ((slice_index_or flags.old e false ≡ true) × (¬ Any (AreCrossing points.now.points (edge_at net.now e)) others.now)) }
{
    for e in 0..net.edges() {
        if flags[e as usize] && crosses_one(points, &net.edge(e), others) {
            flags[e as usize] = false;
        }
    }
}

// The edges of which the flag is set.
fn chosen(alloc: Global, net: &Network, flags: &[bool]) -> Result<Vec<Edge>, AllocError>
    requires { length flags.now ≡ length net.now.edges }
    ensures { IfOk result (λ chosen. chosen.items ≡ items_where_true flags.now net.now.edges) }
{
    let mut chosen = Vec::new(alloc);
    for e in 0..net.edges() {
        if flags[e as usize] {
            chosen.push(net.edge(e))?;
        }
    }
    Ok(chosen)
}
