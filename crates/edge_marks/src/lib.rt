//! Marks on the edges of a network, which threads kill with no lock. Between any two steps of any
//! threads no killed edge lies in closed edges; a pass that finds no kill under way and none begun
//! meanwhile shows that the edges that are left are the live ones.
#![tactic(auto)]

mod answer;
mod calls;
mod close;
mod examine;
mod handles;
mod open;
mod plays;
mod settle;
mod supports;
mod view;

pub use answer::{Found, Kill, Look, Settle};
pub use handles::{Marks, Seat};
pub use view::{About, Known, Loaded, Made, MarksRule, Pass, Phase};
