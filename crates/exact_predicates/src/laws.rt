// The laws of hulls, of the edges of triangulations, of roots, and of the order of edges and triangles.
ghost use Rattle.std.specs.Prelude.{◌≡◌, ◌↔◌};
ghost use Rattle.exact_predicates.specs.declared.edge.Edge.{Edge};
ghost use Rattle.exact_predicates.specs.declared.tri.Tri.{Tri};
ghost use Rattle.exact_predicates.specs.Candidates.{EdgePrecedes, TriPrecedes};
ghost use Rattle.exact_predicates.specs.Laws.{EdgeCount, OneHull, OneTriangleList, RootsAreRoots};

use crate::{Edge, Tri};
use std::cmp::Ordering;

/// The laws that a set of points has one hull, that a triangulation of `n` points with `h` of them on
/// the hull has `3n - 3 - h` edges, and that there is one list of the empty triangles over some edges.
/// It does nothing: its contract says them.
pub fn triangulation_laws()
    ensures one_hull { OneHull }
    ensures edges { EdgeCount }
    ensures one_triangle_list { OneTriangleList }
{}

/// The law that the roots of the definitions are whole square roots, rounded down and up. It does
/// nothing: its contract says it.
pub fn root_laws()
    ensures { RootsAreRoots }
{}

/// The laws that edges and triangles are listed in the order of their types. It does nothing: its
/// contract says them.
pub fn order_laws()
    ensures edges { (e f : Edge) → (⟦<Edge as Ord>⟧.cmp e f ≡ Ordering.Less) ↔ EdgePrecedes e f }
    ensures tris { (s t : Tri) → (⟦<Tri as Ord>⟧.cmp s t ≡ Ordering.Less) ↔ TriPrecedes s t }
{}
