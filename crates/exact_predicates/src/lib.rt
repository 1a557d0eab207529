//! Points of the plane with whole coordinates, the exact tests on them, and the lists that the
//! crates above speak of: a set of points, its hull, its triangles.
//! The definitions of hull, triangulation and length stand in `specs/`.
#![tactic(auto)]

mod diamond;
mod edge;
mod laws;
mod lists;
mod point;
mod points;
mod relations;
mod staying;
mod tri;

pub use diamond::Diamond;
pub use edge::Edge;
pub use laws::{order_laws, root_laws, triangulation_laws};
pub use lists::{Edges, Hull, PointList, Tris, next_on_hull, place_of_edge};
pub use point::{Point, d2, dot, in_range, orient, product};
pub use points::{Points, PointsStop};
pub use relations::{
    blocks, crosses, in_closed_triangle, in_left_diamond, is_below_base_angle, strictly_between,
    strictly_convex,
};
pub use tri::Tri;
