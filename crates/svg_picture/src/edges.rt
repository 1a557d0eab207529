// Which edges are drawn.
ghost use Rattle.std.specs.Prelude.{◌≡◌, ℕ, IfOk, flat_map, map, filter};
ghost use Rattle.exact_predicates.specs.Triangulation.{sides};
ghost use Rattle.svg_picture.specs.Edges.{edges_once, ends, has_side, is_other};

use crate::side_set::{Side, SideSet};
use cert_text::{PriceLine, Report};
use exact_predicates::{Edge, Tri};
use std::alloc::{AllocError, Global};

/// The edges that are drawn: of the triangulation and the skeleton, and the live edges that are in neither.
#[derive(Drop)]
pub struct Drawn {
    pub others: Vec<Side>,
    pub triangulation: Vec<Side>,
    pub skeleton: Vec<Side>,
}

impl Drawn {
    ghost use Rattle.svg_picture.specs.Edges.{other_edges, skeleton_edges, tri_sides};

    /// The edges of a report that are drawn.
    pub fn of(alloc: Global, report: &Report) -> Result<Drawn, AllocError>
        ensures others { IfOk result (λ drawn. drawn.others.items ≡ other_edges report.now) }
        ensures triangulation { IfOk result (λ drawn. drawn.triangulation.items ≡ edges_once (tri_sides report.now)) }
        ensures skeleton { IfOk result (λ drawn. drawn.skeleton.items ≡ skeleton_edges report.now) }
    {
        let sides = tri_sides(alloc, report.tris.as_slice())?;
        let skeleton = ends(alloc, report.skeleton.as_slice())?;
        let side_set = SideSet::of(alloc, &sides)?;
        let skeleton_set = SideSet::of(alloc, &skeleton)?;
        let others = other_edges(alloc, report.live.as_slice(), &skeleton_set, &side_set)?;
        let triangulation = edges_once(alloc, &sides, &side_set)?;
        Ok(Drawn {
            others,
            triangulation,
            skeleton,
        })
    }
}

// The sides of some triangles.
fn tri_sides(alloc: Global, tris: &[Tri]) -> Result<Vec<Side>, AllocError>
    ensures { IfOk result (λ all. all.items ≡ flat_map sides tris.now) }
{
    let mut all = Vec::new(alloc);
    for t in tris {
        all.extend_from_slice(&[(t.a, t.b), (t.b, t.c), (t.c, t.a)])?;
    }
    Ok(all)
}

// Each edge of some triangles once, by their sides and the set of these.
fn edges_once(alloc: Global, all: &[Side], set: &SideSet) -> Result<Vec<Side>, AllocError>
    requires { (u v : ℕ) → has_side set.now u v ≡ has_side all.now u v }
    ensures { IfOk result (λ once. once.items ≡ edges_once all.now) }
{
    let mut once = Vec::new(alloc);
    for &(u, v) in all {
        if u < v || !set.has(v, u) {
            once.push((u, v))?;
        }
    }
    Ok(once)
}

// Some edges, by their ends.
fn ends(alloc: Global, edges: &[Edge]) -> Result<Vec<Side>, AllocError>
    ensures { IfOk result (λ all. all.items ≡ map ends edges.now) }
{
    let mut all = Vec::new(alloc);
    for e in edges {
        all.push((e.a, e.b))?;
    }
    Ok(all)
}

// The live edges that none of these two sets joins.
fn other_edges(
    alloc: Global,
    live: &[PriceLine],
    skeleton: &SideSet,
    sides: &SideSet,
) -> Result<Vec<Side>, AllocError>
    ensures { IfOk result (λ others.
        others.items ≡ filter (is_other skeleton.now sides.now) (map (λ l. ends l.edge) live.now)) }
{
    let mut others = Vec::new(alloc);
    for line in live {
        let e = line.edge;
        if !skeleton.joins(e.a, e.b) && !sides.joins(e.a, e.b) {
            others.push((e.a, e.b))?;
        }
    }
    Ok(others)
}
