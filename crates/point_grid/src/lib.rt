//! Emptiness queries on a set of points: is there a point on this segment, in this triangle, in this
//! diamond? Each answers the least number of such a point, or none, by the cells of a square array that
//! meet a box round the place. One more lists a window.
//!
//! Beside the queries stand the points in a tree of frames, and the order in which a point sees points
//! after it. They serve the enumerations of candidate edges and of empty triangles, and no other crate.
#![tactic(auto)]

mod blocking;
mod bounds;
mod box_tree;
mod cells;
mod direction;
mod flat;
mod forms;
mod frame;
mod framing;
mod gathering;
mod grid;
mod region;
mod search;
mod sight;
mod spot;
mod window;

pub use blocking::{blocks_left_of_all, blocks_right_of_all};
pub use box_tree::BoxTree;
pub use direction::{SightList, by_direction, is_first_on_ray, is_left};
pub use frame::Frame;
pub use grid::Grid;
pub use spot::{Entry, Spot};
pub use window::Window;
