//! Workers that kill the edges without a support, each in a thread of its own. A worker examines the edges
//! that wait in its own row, steals groups of them from the others where none waits there, and ends once a
//! pass over all edges has found the marks quiet, or a kill of another worker under way.
#![tactic(auto)]

mod answer;
mod dealing;
mod due;
mod examining;
mod hand;
mod laws;
mod running;
mod settling;
mod supply;
mod tasks;
mod team;
mod worker;

pub use answer::RunEnd;
pub use dealing::Dealing;
pub use laws::settled_law;
pub use settling::{Settled, settle_all};
pub use worker::WorkerState;
