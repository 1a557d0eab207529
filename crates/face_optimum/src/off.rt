// The live edges outside the skeleton.
ghost use Rattle.std.specs.Prelude.{◌≡◌, ◌<◌, All, AllPairs, Contains, IfOk, length};
ghost use Rattle.lmt_network.specs.Flags.{live_edges};
ghost use Rattle.lmt_network.specs.Network.{IsNetwork};
ghost use Rattle.face_optimum.specs.Seats.{AreOff};

use crate::number::number;
use exact_predicates::Edges;
use lmt_network::{Flags, Network};
use std::alloc::{AllocError, Global};

// Of each edge, whether it is live.
fn live(alloc: Global, net: &Network, flags: &Flags) -> Result<Vec<bool>, AllocError>
    requires { length flags.now ≡ length net.now.edges }
    ensures live { IfOk result (λ live. live.items ≡ flags.now) }
    ensures valid { IsNetwork net.now }
{
    let mut live = Vec::with_capacity(alloc, net.edges() as usize)?;
    for e in 0..net.edges() {
        live.push(flags.live(e))?;
    }
    Ok(live)
}

/// Of each edge, whether it is a live edge outside the skeleton.
pub(crate) fn off_skeleton(
    alloc: Global,
    net: &Network,
    flags: &Flags,
    skeleton: &Edges,
) -> Result<Vec<bool>, AllocError>
    requires one_each { length flags.now ≡ length net.now.edges }
    requires live { All (Contains (live_edges net.now flags.now)) skeleton.now }
    ensures off { IfOk result (λ off. AreOff net.now flags.now skeleton.now off.items) }
    ensures valid { IsNetwork net.now }
{
    let mut off = live(alloc, net, flags)?;
    for edge in skeleton.as_slice() {
        off[number(net, edge.a, edge.b) as usize] = false;
    }
    Ok(off)
}
