//! The diamond theorem, so far as it is proved: of the walk from an edge to a point of its diamond.
#![tactic(auto)]

mod laws;

pub use laws::{disc_laws, length_laws, sleeve_laws, step_laws, walk_laws};
