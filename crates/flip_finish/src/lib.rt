//! Shortening flips: a triangulation is made shorter, edge by edge, until no flip makes it shorter.
//!
//! A mesh has its triangles, and a slot for each edge. A flip exchanges the edge of a slot for the
//! other diagonal of the two triangles on it, in constant time: each triangle knows the slots of its
//! sides, and each slot the triangles on its edge. So one flip changes two triangles, its own slot, and
//! the slots of the two sides that pass from one triangle to the other.
#![tactic(auto)]

mod across;
mod build;
mod face;
mod halves;
mod mesh;
mod passes;
mod slot;

pub use mesh::Mesh;
pub use passes::shorten;
pub use slot::Slot;
