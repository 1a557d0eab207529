//! The candidate edges of a set of points, in ascending order.
#![tactic(auto)]

mod blocks;
mod link;
mod row;
mod rows;
mod sector;
mod seen;
mod slots;
mod stop;
mod walk;

pub use exact_predicates::Diamond;
pub use rows::candidates;
pub use stop::EdgeStop;
