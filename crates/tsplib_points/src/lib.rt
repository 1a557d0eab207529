//! The reader of point files: TSPLIB95 files of points in the plane, read to exact whole coordinates.
//! What a file is, why it is refused and what it holds stand in `specs/`.
#![tactic(auto)]

mod cuts;
mod decimal;
mod digits;
mod file;
mod gather;
mod header;
mod lines;
mod node;
mod numbers;
mod reader;
mod reals;
mod reason;
mod scaling;

pub use file::{File, FileStop, Refusal};
pub use reader::read_points;
