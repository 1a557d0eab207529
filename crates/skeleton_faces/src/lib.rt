//! The skeleton of the live edges, its faces, and whether it joins all points.
//!
//! The skeleton is found by the angles of live triangles: of the edges that cross a given one, the one
//! that it meets first has that edge's end as the third corner of its triangle, or has no triangle there.
//! Faces are the cycles of one rule, which of two sides follows which: the sides are sorted once, start
//! by start and round each start, so that the next side is a neighbour in this list. The definitions of
//! walk, next side and face stand in `specs/`.
#![tactic(auto)]

mod all_faces;
mod bare;
mod crossings;
mod face_list;
mod fans;
mod law;
mod live_skeleton;
mod ray;
mod rays;
mod reaches;
mod rounds;
mod sides;
mod turns;
mod union;

pub use all_faces::faces;
pub use face_list::Faces;
pub use law::unique_faces_law;
pub use live_skeleton::skeleton;
pub use union::connected;
