// Points with their numbers, and the entries of a tree.
ghost use Rattle.exact_predicates.specs.Plane.{IsInRange};

use crate::frame::Frame;
use exact_predicates::Point;

/// A point with its number.
#[derive(Clone, Copy)]
pub struct Spot {
    pub number: u32,
    pub point: Point,
    pub ghost in_range: { IsInRange point },
}

/// An entry of a tree: a point, or a frame round all points from the entry `start` on, up to itself.
#[derive(Clone, Copy)]
pub enum Entry {
    Leaf(Spot),
    Fork(Frame, usize),
}
