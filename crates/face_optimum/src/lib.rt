//! The shortest triangulation with live edges, where the skeleton of these cuts the inside of the hull
//! into faces: whether it does, interval programming on each face (P. D. Gilbert, "New results in planar
//! triangulations", 1979; G. T. Klincsek, "Minimal triangulations of polygonal domains", 1980), and prices
//! that prove the result. To take the faces of the skeleton one by one is the plan of A. Haas, "Solving
//! large-scale minimum-weight triangulation instances to provable optimality" (2018). When the skeleton
//! decomposes is said in `specs/Decomposition.antt`, and the rule on its faces in `specs/FaceRule.antt`.
#![tactic(auto)]

mod angle;
mod between;
mod bounded;
mod chosen;
mod costs;
mod cut;
mod decide;
mod edge_seats;
mod face_prices;
mod law;
mod legs;
mod links;
mod live;
mod number;
mod off;
mod optimum;
mod order;
mod rim;
mod rings;
mod seat;
mod side_seats;
mod site;
mod solve;
mod table;
mod tri_seats;

pub use law::face_law;
pub use solve::{FaceEnd, solve_faces};
