// The live edges that no live triangle has in its angle.
ghost use Rattle.std.specs.Prelude.{◌≡◌, ◌↔◌, ◌<◌, ℕ, true, false, length, All, Contains, IfOk, slice_index, slice_index_or};
ghost use Rattle.lmt_network.specs.Flags.{live_edges};
ghost use Rattle.lmt_network.specs.Network.{IsNetwork, edge_at};
ghost use Rattle.skeleton_faces.specs.Fans.{IsCovered};

use crate::rays::edges_round;
use crate::reaches::Reaches;
use exact_predicates::Points;
use lmt_network::{Flags, Network};
use std::alloc::{AllocError, Global};

// Of each number, its place in the order.
fn places(alloc: Global, numbers: usize, order: &[usize]) -> Result<Vec<usize>, AllocError>
    requires { All (λ e. e < numbers) order.now }
    ensures one_each { IfOk result (λ places. length places.items ≡ numbers) }
    ensures inside { IfOk result (λ places. (e : ℕ) → Contains order.now e → slice_index places.items e < length order.now) }
    ensures there { IfOk result (λ places. (e : ℕ) → Contains order.now e → slice_index order.now (slice_index places.items e) ≡ e) }
{
    let mut places = Vec::from_elem(alloc, 0, numbers)?;
    for (place, e) in order.iter().enumerate() {
        places[*e] = place;
    }
    Ok(places)
}

/// Of each edge, whether it is live and not covered: no live triangle has it in its angle at the
/// edge's lesser end. A triangle that reaches from one place of the order to another covers those
/// between, so one pass along the order finds what is covered.
pub(crate) fn uncovered(
    alloc: Global,
    points: &Points,
    net: &Network,
    flags: &Flags,
) -> Result<Vec<bool>, AllocError>
    requires same_points { net.now.points ≡ points.now.points }
    requires one_each { length flags.now ≡ length net.now.edges }
    ensures network { IsNetwork net.now }
    ensures one_each { IfOk result (λ flags. length flags.items ≡ length net.now.edges) }
    ensures uncovered { IfOk result (λ uncovered. (e : ℕ) → e < length net.now.edges → (slice_index_or uncovered.items e false ≡ true)
        ↔ ((slice_index_or flags.now e false ≡ true) × (¬ IsCovered net.now.points (live_edges net.now flags.now) (edge_at net.now e)))) }
{
    let order = edges_round(alloc, points, net, flags)?;
    let places = places(alloc, net.edges() as usize, &order)?;
    let reaches = Reaches::of(alloc, points, net, flags, &order, &places)?;
    let mut uncovered = Vec::from_elem(alloc, false, net.edges() as usize)?;
    let mut far = 0;
    for (place, e) in order.iter().enumerate() {
        let from = net.edge(*e as u32).a;
        uncovered[*e] = !reaches.cover(from, place, far);
        far = far.max(reaches.spans[place]);
    }
    Ok(uncovered)
}
