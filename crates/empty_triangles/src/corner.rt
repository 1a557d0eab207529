// First corners of triangles.
ghost use Rattle.std.specs.Prelude.{◌≡◌, ◌≢◌, ◌↔◌, ◌+◌, ◌<◌, IsTrue, length, slice_index, All, AllPairs, IfOk, OnOk};
ghost use Rattle.exact_predicates.specs.Candidates.{HasEdge};
ghost use Rattle.empty_triangles.specs.Enumeration.{AreStarts, IsRow};
ghost use Rattle.empty_triangles.specs.Corners.{AreMarked, IsCorner};
ghost use Rattle.empty_triangles.specs.Rays.{AreLists};

use crate::edges::{fill_row, has_edge, has_number};
use crate::rays::fill_heads;
use crate::sights::seen_places;
use crate::window::window_around;
use exact_predicates::{Edge, Points};
use mwt_base::NoMemory;
use point_grid::{Grid, SightList, by_direction};
use std::alloc::Global;

// Lists of what is seen hold a place for each head and for so many edges of the row, on average, and no more
// than so many for each head.
const EDGES_A_PLACE: usize = 16;

const LISTED: usize = 32;

/// A first corner: the greater ends of its edges, ascending; the first points on the rays from it, from
/// left to right, as far as points there can lie in a triangle with two of these ends, with a mark for each
/// that is such an end; and for the first of these points, as many as are worth a list, the earlier ones that
/// each sees past all between.
#[derive(Drop)]
pub(crate) struct Corner {
    pub(crate) a: u32,
    pub(crate) row: Vec<u32>,
    pub(crate) heads: Vec<u32>,
    pub(crate) marks: Vec<bool>,
    pub(crate) seen: Vec<Vec<usize>>,
    // What the next corner needs no more, but for its memory.
    numbers: Vec<u32>,
    sights: SightList,
}

impl Corner {
    /// No corner yet.
    pub(crate) fn none(alloc: Global) -> Corner {
        Corner {
            a: 0,
            row: Vec::new(alloc),
            heads: Vec::new(alloc),
            marks: Vec::new(alloc),
            seen: Vec::new(alloc),
            numbers: Vec::new(alloc),
            sights: SightList::none(alloc),
        }
    }

    /// The corner `a`, in the memory of another.
    pub(crate) fn turned_to(
        self,
        alloc: Global,
        points: &Points,
        grid: &Grid,
        edges: &[Edge],
        starts: &[usize],
        a: u32,
    ) -> Result<Corner, NoMemory>
        requires grid { grid.now ≡ points.now.points }
        requires starts { AreStarts edges.now starts.now }
        requires count { length starts.now ≡ length points.now.points + 1 }
        requires within { All (λ e. e.b < length points.now.points) edges.now }
        requires a_in { a < length points.now.points }
        ensures a { IfOk result (λ corner. corner.a ≡ a) }
        ensures is { IfOk result (λ corner. IsCorner points.now.points edges.now a corner.row.items corner.heads.items) }
        ensures marked { IfOk result (λ corner. AreMarked corner.row.items corner.heads.items corner.marks.items) }
        ensures lists { IfOk result (λ corner. AreLists points.now.points corner.heads.items (length corner.seen.items) corner.seen.items) }
    {
        // The proof takes from `len` that these are the points of a problem.
        prove!(a < points.len());
        let Corner {
            a: _,
            mut row,
            mut heads,
            mut marks,
            seen: _,
            mut numbers,
            mut sights,
        } = self;
        fill_row(edges, starts, a, &mut row)?;
        let window = window_around(points, a, &row);
        grid.in_window(points, window, &mut numbers)?;
        let order = by_direction(alloc, points, a, &numbers, &mut sights)?;
        fill_heads(points, a, &order, &mut heads)?;
        fill_marks(&row, &heads, &mut marks)?;
        let most = most_listed(row.len(), heads.len());
        let seen = seen_places(alloc, points, a, &heads, most)?;
        Ok(Corner {
            a,
            row,
            heads,
            marks,
            seen,
            numbers,
            sights,
        })
    }

    /// Whether the sides to the head at the place `k` from the corner and from `b` are edges.
    pub(crate) fn joins(&self, edges: &[Edge], starts: &[usize], b: u32, k: usize) -> bool
        requires starts { AreStarts edges.now starts.now }
        requires row { IsRow edges.now self.now.a self.now.row.items }
        requires marked { AreMarked self.now.row.items self.now.heads.items self.now.marks.items }
        requires k_in { k < length self.now.heads.items }
        requires b_in { b + 1 < length starts.now }
        requires later { self.now.a < slice_index self.now.heads.items k }
        requires apart { b ≢ slice_index self.now.heads.items k }
        ensures { let c = slice_index self.now.heads.items k in
            IsTrue result ↔ (HasEdge edges.now self.now.a c × HasEdge edges.now b c) }
    {
        self.marks[k] && has_edge(edges, starts, b, self.heads[k])
    }
}

// Puts a mark for each of the heads, which says whether it is in the row, in place of what was there.
fn fill_marks(row: &[u32], heads: &[u32], marks: &mut Vec<bool>) -> Result<(), NoMemory>
    requires { AllPairs ◌<◌ row.now }
    ensures { OnOk result (AreMarked row.now heads.now marks.new.items) }
{
    marks.clear();
    for k in 0..heads.len() {
        marks.push(has_number(row, heads[k]))?;
    }
    Ok(())
}

// How many places lists of what is seen may hold. A list is found by those before it, so that all of them
// are made, and each place takes a bisection; a pass over the heads for each edge takes less where there are
// few edges. So lists that grow too long are left, after less time than the passes take.
fn most_listed(edges: usize, heads: usize) -> usize {
    heads.saturating_mul((edges / EDGES_A_PLACE).min(LISTED))
}
