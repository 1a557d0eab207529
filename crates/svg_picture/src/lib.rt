//! The picture of a report as SVG 1.1: its points, its hull, its skeleton, its triangulation and its other
//! live edges, each a layer of its own. What the text is stands in `specs/Picture.antt`.
#![tactic(auto)]

mod answer;
mod edges;
mod frame;
mod laws;
mod layers;
mod picture;
mod refusal;
mod side_set;
mod text;
mod top;

pub use laws::refused_alike_law;
pub use picture::write_picture;
pub use top::draw;

#[cfg(test)]
mod tests;
