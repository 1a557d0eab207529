// The network of a set of points, and which of its edges are live.
ghost use Rattle.std.specs.Prelude.{◌≡◌, ◌≤◌, ℕ, List, length, IfOk, OnOk, IsErrOf};
ghost use Rattle.mwt_base.specs.Limits.{most_edges, most_triangles};
ghost use Rattle.exact_predicates.specs.declared.diamond.Diamond.{Diamond as diamond_type};
ghost use Rattle.exact_predicates.specs.declared.point.Point.{Point as point_type};
ghost use Rattle.exact_predicates.specs.Candidates.{AreCandidates, AreTrianglesOver};
ghost use Rattle.exact_predicates.specs.Hull.{IsHull};
ghost use Rattle.lmt_network.specs.Flags.{live_numbers};
ghost use Rattle.dual_checker.specs.Elimination.{HasTooManyEdges, HasTooManyTriangles, IsElimination, IsNetworkOf, IsWithinLimits};

use crate::stop::CheckStop;
use diamond_edges::{EdgeStop, candidates};
use empty_triangles::{TriStop, triangles};
use exact_predicates::{Diamond, Edges, Hull, Points, Tris};
use lmt_network::{Flags, Network, plain_settle};
use mwt_base::NoMemory;
use point_grid::Grid;
use std::alloc::{AllocError, Global};
use std::thread::Threads;

/// The network of a set of points, and which of its edges are live.
#[derive(Drop)]
pub struct Elimination {
    pub net: Network,
    pub flags: Flags,
}

impl Elimination {
    /// Finds the live edges of these points by plain elimination, on this thread alone. The answers
    /// `DenseEdges` and `DenseTriangles` come as from `network_of`.
    pub fn of<R: Threads + Sync>(
        rt: &R,
        alloc: Global,
        points: &Points,
        hull: &Hull,
        diamond: Diamond,
    ) -> Result<Elimination, CheckStop>
        requires { IsHull points.now.points hull.now }
        ensures eliminated { IfOk result (λ e. IsElimination points.now.points hull.now diamond e.net e.flags) }
        ensures dense_edges { IsErrOf result CheckStop.DenseEdges → HasTooManyEdges points.now.points diamond }
        ensures dense_triangles { IsErrOf result CheckStop.DenseTriangles → HasTooManyTriangles points.now.points diamond }
        ensures within { OnOk result (IsWithinLimits points.now.points diamond) }
    {
        let net = network_of(rt, alloc, points, hull, diamond)?;
        Ok(Elimination::of_network(alloc, net)?)
    }

    /// Finds the live edges of the points of a network by plain elimination.
    pub fn of_network(alloc: Global, net: Network) -> Result<Elimination, NoMemory>
        ensures { IfOk result (λ e. (ps : List point_type) (hull : List ℕ) (diamond : diamond_type)
            → IsNetworkOf ps hull diamond net → IsElimination ps hull diamond e.net e.flags) }
    {
        let count = net.edges();
        let mut flags = Flags::all(alloc, count)?;
        plain_settle(&net, &mut flags);
        Ok(Elimination { net, flags })
    }

    /// The numbers of the live edges, ascending.
    pub fn live_numbers(&self, alloc: Global) -> Result<Vec<u32>, AllocError>
        requires { length self.now.flags ≡ length self.now.net.edges }
        ensures { IfOk result (λ numbers. numbers.items ≡ live_numbers self.now.flags) }
    {
        let mut numbers = Vec::new(alloc);
        for e in 0..self.net.edges() {
            if self.flags.live(e) {
                numbers.push(e)?;
            }
        }
        Ok(numbers)
    }
}

/// The network of the candidate edges of these points and of the empty triangles between them, by
/// threads. `DenseEdges` says that there are more than 400,000 candidate edges, and `DenseTriangles`
/// that there are no more, but more than 4,000,000 empty triangles.
pub fn network_of<R: Threads + Sync>(
    rt: &R,
    alloc: Global,
    points: &Points,
    hull: &Hull,
    diamond: Diamond,
) -> Result<Network, CheckStop>
    requires { IsHull points.now.points hull.now }
    ensures network { IfOk result (λ net. IsNetworkOf points.now.points hull.now diamond net) }
    ensures dense_edges { IsErrOf result CheckStop.DenseEdges → HasTooManyEdges points.now.points diamond }
    ensures dense_triangles { IsErrOf result CheckStop.DenseTriangles → HasTooManyTriangles points.now.points diamond }
    ensures within { OnOk result (IsWithinLimits points.now.points diamond) }
{
    let grid = Grid::new(alloc, points)?;
    let edges = edges_of(rt, alloc, points, &grid, hull, diamond)?;
    let tris = triangles_of(rt, alloc, points, &grid, hull, diamond, &edges)?;
    Ok(Network::build(alloc, points, hull, edges, tris)?)
}

// The candidate edges.
fn edges_of<R: Threads + Sync>(
    rt: &R,
    alloc: Global,
    points: &Points,
    grid: &Grid,
    hull: &Hull,
    diamond: Diamond,
) -> Result<Edges, CheckStop>
    requires grid { grid.now ≡ points.now.points }
    requires hull { IsHull points.now.points hull.now }
    ensures listed { IfOk result (λ es. AreCandidates points.now.points hull.now diamond es) }
    ensures few { IfOk result (λ es. length es ≤ most_edges) }
    ensures dense_edges { IsErrOf result CheckStop.DenseEdges → HasTooManyEdges points.now.points diamond }
    ensures dense_triangles { result ≡ Err CheckStop.DenseTriangles → ⊥ }
{
    match candidates(rt, alloc, points, grid, hull, diamond) {
        Ok(edges) => Ok(edges),
        Err(EdgeStop::Dense) => Err(CheckStop::DenseEdges),
        Err(EdgeStop::NoMemory) => Err(CheckStop::NoMemory),
    }
}

// The empty triangles over the candidate edges.
fn triangles_of<R: Threads + Sync>(
    rt: &R,
    alloc: Global,
    points: &Points,
    grid: &Grid,
    hull: &Hull,
    diamond: Diamond,
    edges: &Edges,
) -> Result<Tris, CheckStop>
    requires grid { grid.now ≡ points.now.points }
    requires hull { IsHull points.now.points hull.now }
    requires candidates { AreCandidates points.now.points hull.now diamond edges.now }
    requires few_edges { length edges.now ≤ most_edges }
    ensures listed { IfOk result (λ ts. AreTrianglesOver points.now.points edges.now ts) }
    ensures few { IfOk result (λ ts. length ts ≤ most_triangles) }
    ensures dense_triangles { IsErrOf result CheckStop.DenseTriangles → HasTooManyTriangles points.now.points diamond }
    ensures dense_edges { result ≡ Err CheckStop.DenseEdges → ⊥ }
{
    match triangles(rt, alloc, points, grid, edges) {
        Ok(tris) => Ok(tris),
        Err(TriStop::Dense) => Err(CheckStop::DenseTriangles),
        Err(TriStop::NoMemory) => Err(CheckStop::NoMemory),
    }
}
