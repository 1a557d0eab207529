// The points of a window, gathered from the tree.
ghost use Rattle.std.specs.Prelude.{◌<◌, ◌≤◌, ◌≤ℤ◌, IsTrue, length, IfOk, OnOk};
ghost use Rattle.exact_predicates.specs.declared.point.Point.{Point};
ghost use Rattle.point_grid.specs.Frames.{IsInFrame};
ghost use Rattle.point_grid.specs.Gathered.{AreColumns, AreGathered};

use crate::box_tree::BoxTree;
use crate::frame::Frame;
use crate::spot::Entry;
use crate::window::Window;
use mwt_base::NoMemory;

/// A window, and the columns of its first and of its last point.
#[derive(Clone, Copy)]
pub(crate) struct Reach {
    pub(crate) window: Window,
    pub(crate) left: i64,
    pub(crate) right: i64,
}

impl Reach {
    // Whether a point between the two columns, and as high as the window, may lie in the frame.
    fn meets(&self, frame: &Frame) -> bool
        ensures { (p : Point) → IsInFrame frame.now p → self.now.left ≤ℤ p.x → p.x ≤ℤ self.now.right →
            self.now.window.low ≤ℤ p.y → p.y ≤ℤ self.now.window.high → IsTrue result }
    {
        let in_columns = self.left <= frame.right && frame.left <= self.right;
        in_columns && self.window.low <= frame.high && frame.low <= self.window.high
    }
}

impl BoxTree {
    /// Puts the numbers of the points of the window in place of what was there, in any order. Frames that do
    /// not meet it are passed over.
    pub(crate) fn gather(&self, reach: &Reach, numbers: &mut Vec<u32>) -> Result<(), NoMemory>
        requires { AreColumns self.now reach.now }
        ensures { OnOk result (AreGathered self.now reach.now.window 0 numbers.new.items) }
    {
        numbers.clear();
        let mut end = self.entries.len();
        while end > 0 {
            end = self.gather_before(reach, end, numbers)?;
        }
        Ok(())
    }

    // Gathers what the entry before `end` has, and answers where it begins.
    fn gather_before(
        &self,
        reach: &Reach,
        end: usize,
        numbers: &mut Vec<u32>,
    ) -> Result<usize, NoMemory>
        requires columns { AreColumns self.now reach.now }
        requires some { 0 < end }
        requires within { end ≤ length self.now }
        requires gathered { AreGathered self.now reach.now.window end numbers.old.items }
        ensures less { IfOk result (λ next. next < end) }
        ensures gathered { IfOk result (λ next. AreGathered self.now reach.now.window next numbers.new.items) }
    {
        match self.entries[end - 1] {
            Entry::Leaf(spot) => {
                if reach.window.has(&spot) {
                    numbers.push(spot.number)?;
                    return Ok(end - 1);
                }
                Ok(end - 1)
            }
            Entry::Fork(frame, start) => {
                if reach.meets(&frame) {
                    return Ok(end - 1);
                }
                Ok(start)
            }
        }
    }
}
