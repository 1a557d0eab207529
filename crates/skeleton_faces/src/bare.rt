// The live edges that lack a live triangle on one of their sides.
ghost use Rattle.std.specs.Prelude.{◌≡◌, ◌↔◌, ◌<◌, length, All, Any, Contains, IfOk, IsTrue};
ghost use Rattle.exact_predicates.specs.declared.edge.Edge.{Edge};
ghost use Rattle.lmt_network.specs.Flags.{live_edges};
ghost use Rattle.lmt_network.specs.Network.{IsNetwork, edge_at};
ghost use Rattle.skeleton_faces.specs.Fans.{IsBareEdge};
ghost use Rattle.skeleton_faces.specs.Reaches.{IsLiveTri};

use crate::reaches::is_live;
use exact_predicates::Edge;
use lmt_network::{Flags, Network};
use std::alloc::{AllocError, Global};

// Whether one of these triangles is live.
fn is_faced(net: &Network, flags: &Flags, row: &[u32]) -> bool
    requires one_each { length flags.now ≡ length net.now.edges }
    requires row_in { All (λ t. t < length net.now.tris) row.now }
    requires network { IsNetwork net.now }
    ensures { IsTrue result ↔ Any (IsLiveTri net.now flags.now) row.now }
{
    for t in row {
        if is_live(net, flags, *t) {
            return true;
        }
    }
    false
}

// Whether the edge is no edge of the hull and has no live triangle on one of its sides.
fn is_bare(net: &Network, flags: &Flags, e: u32) -> bool
    requires one_each { length flags.now ≡ length net.now.edges }
    requires e_in { e < length net.now.edges }
    requires network { IsNetwork net.now }
    ensures { IsTrue result ↔ IsBareEdge net.now.points net.now.hull (live_edges net.now flags.now) (edge_at net.now e) }
{
    if net.is_hull(e) {
        return false;
    }
    !is_faced(net, flags, net.left(e)) || !is_faced(net, flags, net.right(e))
}

/// The live edges that are no edges of the hull and have no live triangle on one of their sides. The
/// live list has none, since each of its edges has a support.
pub(crate) fn bare_edges(
    alloc: Global,
    net: &Network,
    flags: &Flags,
) -> Result<Vec<Edge>, AllocError>
    requires one_each { length flags.now ≡ length net.now.edges }
    requires network { IsNetwork net.now }
    ensures { IfOk result (λ bare. (e : Edge) → Contains bare.items e
        ↔ (Contains (live_edges net.now flags.now) e × IsBareEdge net.now.points net.now.hull (live_edges net.now flags.now) e)) }
{
    let mut bare = Vec::new(alloc);
    for e in 0..net.edges() {
        if flags.live(e) && is_bare(net, flags, e) {
            bare.push(net.edge(e))?;
        }
    }
    Ok(bare)
}
