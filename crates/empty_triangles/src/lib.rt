//! The empty triangles whose three sides stand in a list of edges, in ascending order.
#![tactic(auto)]

mod blocks;
mod corner;
mod edges;
mod fan;
mod rays;
mod row;
mod rows;
mod sights;
mod stop;
mod window;

pub use rows::triangles;
pub use stop::TriStop;
