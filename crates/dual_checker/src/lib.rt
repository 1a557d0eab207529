//! Decides whether a report is right about its points, from the points and the diamond word alone. The
//! definition of the good report stands in `specs/`.
#![tactic(auto)]

mod bound;
mod corners;
mod derivations;
mod elimination;
mod flips;
mod half_edges;
mod judge;
mod laws;
mod ledger;
mod length;
mod lists;
mod marks;
mod points;
mod rim;
mod shares;
mod stop;
mod triangulation;
mod verdict;

pub use derivations::derivation;
pub use elimination::{Elimination, network_of};
pub use judge::check;
pub use laws::good_report_laws;
pub use stop::CheckStop;
pub use verdict::Verdict;
