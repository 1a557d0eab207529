// The points of a problem, ready for queries.
ghost use Rattle.std.specs.Prelude.{◌≡◌, ◌≢◌, ◌<◌, ◌≤◌, ◌<ℤ◌, pos, length, IfOk, OnOk};
ghost use Rattle.exact_predicates.specs.Plane.{orient, IsBetween, IsInClosedTriangle, IsInLeftDiamond};
ghost use Rattle.exact_predicates.specs.PointSet.{point_at};
ghost use Rattle.exact_predicates.specs.Root.{IsRootUp};
ghost use Rattle.exact_predicates.specs.Triangulation.{IsCorner};
ghost use Rattle.point_grid.specs.Cells.{IsCell, IsCellNumber};
ghost use Rattle.point_grid.specs.First.{IsFirst};
ghost use Rattle.point_grid.specs.Tree.{AreSpotsOf};
ghost use Rattle.point_grid.specs.Windows.{AreAllIn};

use crate::box_tree::BoxTree;
use crate::cells::Cells;
use crate::gathering::Reach;
use crate::region::Region;
use crate::search::first_in;
use crate::window::Window;
use exact_predicates::{Point, Points, Tri};
use mwt_base::NoMemory;
use std::alloc::Global;
use std::marker::Model;

/// The points of a problem, ready for queries, in a square array of cells and in a tree. A query is
/// given the same points again.
#[derive(Drop)]
pub struct Grid {
    points: Vec<Point>,
    cells: Cells,
    tree: BoxTree,
}

impl Model for Grid {
    ghost use Rattle.std.specs.Prelude.{List};
    ghost use Rattle.exact_predicates.specs.declared.point.Point.{Point};
    ghost use Rattle.exact_predicates.specs.PointSet.{IsPointSet};
    ghost use Rattle.point_grid.specs.Cells.{AreCells};
    ghost use Rattle.point_grid.specs.Tree.{AreSpotsOf};

    ghost Value = { List Point };

    ghost view = { λ g. g.points.items };

    ghost invariant = { λ g. IsPointSet g.points.items × AreCells g.points.items g.cells × AreSpotsOf g.points.items g.tree };
}

impl Grid {
    /// A grid of these points. For n points it takes time n log n.
    pub fn new(alloc: Global, points: &Points) -> Result<Grid, NoMemory>
        ensures { IfOk result (λ grid. grid ≡ points.now.points) }
    {
        let tree = BoxTree::new(alloc, points)?;
        let cells = Cells::new(alloc, points)?;
        let points = Vec::from_slice(alloc, points.as_slice())?;
        Ok(Grid {
            points,
            cells,
            tree,
        })
    }

    /// How many cells are on each side of the square array: the least number whose square is at least
    /// that of the points.
    pub fn side(&self) -> u32
        ensures { IsRootUp (length self.now) result }
    {
        self.cells.side
    }

    /// The numbers of the points in the cell `c`, ascending. The cells are numbered row by row; a point is in the
    /// column `(x - x0) * side / (x1 - x0 + 1)`, rounded down, where `x0` and `x1` are the least and the
    /// greatest `x`, and in the row that `y` gives likewise.
    pub fn cell(&self, c: u32) -> &[u32]
        requires { IsCellNumber (length self.now) c }
        ensures { IsCell self.now c result.now }
    {
        &self.cells.lists[c as usize]
    }

    /// The points in a tree of frames.
    pub fn tree(&self) -> &BoxTree
        ensures { AreSpotsOf self.now result.now }
    {
        &self.tree
    }

    /// The least number of a point strictly between the points `p` and `q`, or none.
    pub fn any_between(&self, points: &Points, p: u32, q: u32) -> Option<u32>
        requires made { self.now ≡ points.now.points }
        requires p_in { p < length points.now.points }
        requires q_in { q < length points.now.points }
        requires apart { p ≢ q }
        ensures { let at = point_at points.now.points in
            IsFirst (length points.now.points) (λ r. IsBetween (at p) (at q) (at r)) result }
    {
        let region = Region::Segment(*points.at(p), *points.at(q));
        first_in(&self.points, &self.cells, &region)
    }

    /// The least number of a point that is no corner of `t` and lies in it or on its rim, or none.
    pub fn any_in_closed_triangle(&self, points: &Points, t: Tri) -> Option<u32>
        requires made { self.now ≡ points.now.points }
        requires b_in { t.b < length points.now.points }
        requires c_in { t.c < length points.now.points }
        requires turns_left { let at = point_at points.now.points in pos 0 <ℤ orient (at t.a) (at t.b) (at t.c) }
        ensures { let at = point_at points.now.points in
            IsFirst (length points.now.points) (λ r. (¬ IsCorner t r) × IsInClosedTriangle (at t.a) (at t.b) (at t.c) (at r)) result }
    {
        let region = Region::Triangle(t, *points.at(t.a), *points.at(t.b), *points.at(t.c));
        first_in(&self.points, &self.cells, &region)
    }

    /// The least number of a point in the left diamond of `p` to `q`, or none.
    pub fn any_in_diamond(&self, points: &Points, p: u32, q: u32) -> Option<u32>
        requires made { self.now ≡ points.now.points }
        requires p_in { p < length points.now.points }
        requires q_in { q < length points.now.points }
        requires apart { p ≢ q }
        ensures { let at = point_at points.now.points in
            IsFirst (length points.now.points) (λ r. IsInLeftDiamond (at p) (at q) (at r)) result }
    {
        let region = Region::Diamond(*points.at(p), *points.at(q));
        first_in(&self.points, &self.cells, &region)
    }

    /// Puts the numbers of the points in a window in place of what was there, each once. Parts of the tree
    /// that do not meet the window are passed over.
    pub fn in_window(
        &self,
        points: &Points,
        window: Window,
        numbers: &mut Vec<u32>,
    ) -> Result<(), NoMemory>
        requires made { self.now ≡ points.now.points }
        requires window_in { window.to ≤ length points.now.points }
        ensures { OnOk result (AreAllIn points.now.points window numbers.new.items) }
    {
        if window.to <= window.from {
            numbers.clear();
            return Ok(());
        }
        let reach = Reach {
            window,
            left: points.at(window.from).x,
            right: points.at(window.to - 1).x,
        };
        self.tree.gather(&reach, numbers)?;
        numbers.sort_unstable();
        numbers.dedup();
        Ok(())
    }
}
