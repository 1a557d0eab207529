// What sits where on the bounded faces of a skeleton.
use crate::rings::Rings;
use crate::seat::{EdgeSeat, TriSeat};

/// What sits where on the bounded faces of a skeleton.
#[derive(Drop)]
pub(crate) struct Seats {
    /// The bounded faces.
    pub(crate) rings: Rings,
    /// Of each edge, whether it is a live edge outside the skeleton.
    pub(crate) off: Vec<bool>,
    /// The seat of each of these.
    pub(crate) edges: Vec<Option<EdgeSeat>>,
    /// The seat of each live triangle.
    pub(crate) tris: Vec<TriSeat>,
}
