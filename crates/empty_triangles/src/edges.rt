// Reading an ascending list of edges.
ghost use Rattle.std.specs.Prelude.{◌≡◌, ◌≢◌, ◌<◌, ◌≤◌, ◌+◌, ◌↔◌, ℕ, IsTrue, length, vec_len, slice_index, slice_index_or, AllPairs, Contains, IfOk, OnOk};
ghost use Rattle.mwt_base.specs.Limits.{most_points};
ghost use Rattle.exact_predicates.specs.Candidates.{EdgePrecedes, HasEdge};
ghost use Rattle.empty_triangles.specs.Enumeration.{IsStartOf, AreStarts, IsRow};

use exact_predicates::{Edge, place_of_edge};
use mwt_base::NoMemory;
use std::alloc::Global;

/// Where the edges of each lesser end begin, and where the last of them end. It goes once through the edges.
pub(crate) fn starts(alloc: Global, edges: &[Edge], count: u32) -> Result<Vec<usize>, NoMemory>
    requires ascending { AllPairs EdgePrecedes edges.now }
    requires few { count ≤ most_points }
    ensures count { IfOk result (λ starts. vec_len starts ≡ count + 1) }
    ensures are { IfOk result (λ starts. AreStarts edges.now starts.items) }
{
    let mut starts = Vec::with_capacity(alloc, count as usize + 1)?;
    let mut place = 0;
    for a in 0..count + 1 {
        place = start_of(edges, place, a);
        starts.push(place)?;
    }
    Ok(starts)
}

// The place of the first edge whose lesser end is `a` or a greater one, where there is none before `from`.
fn start_of(edges: &[Edge], from: usize, a: u32) -> usize
    requires ascending { AllPairs EdgePrecedes edges.now }
    requires from_in { from ≤ length edges.now }
    requires before { (i : ℕ) (d : Edge) → i < from → (slice_index_or edges.now i d).a < a }
    ensures { IsStartOf edges.now a result }
{
    let mut place = from;
    while place < edges.len() && edges[place].a < a {
        place += 1;
    }
    place
}

/// Puts the greater ends of the edges whose lesser end is `a` in place of what the row had.
pub(crate) fn fill_row(
    edges: &[Edge],
    starts: &[usize],
    a: u32,
    row: &mut Vec<u32>,
) -> Result<(), NoMemory>
    requires starts { AreStarts edges.now starts.now }
    requires a_in { a + 1 < length starts.now }
    ensures { OnOk result (IsRow edges.now a row.new.items) }
{
    row.clear();
    for k in starts[a as usize]..starts[a as usize + 1] {
        row.push(edges[k].b)?;
    }
    Ok(())
}

/// Whether the edge with these ends is among the edges. It looks only at those with the same lesser end.
pub(crate) fn has_edge(edges: &[Edge], starts: &[usize], u: u32, v: u32) -> bool
    requires starts { AreStarts edges.now starts.now }
    requires u_in { u + 1 < length starts.now }
    requires apart { u ≢ v }
    ensures { IsTrue result ↔ HasEdge edges.now u v }
{
    let a = u.min(v) as usize;
    let from = starts[a];
    let to = starts[a + 1];
    place_of_edge(&edges[from..to], u, v).is_some()
}

/// Whether a number is in an ascending list.
pub(crate) fn has_number(numbers: &[u32], number: u32) -> bool
    requires { (j k : ℕ) → j ≤ k → k < length numbers.now → slice_index numbers.now j ≤ slice_index numbers.now k }
    ensures { IsTrue result ↔ Contains numbers.now number }
{
    numbers.binary_search(&number).is_ok()
}
