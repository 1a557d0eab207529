//! Kill tickets: marks on the edges of a network, in which each killed edge has a rank. A kill draws a
//! ticket from a counter and makes the rank one more, so the edges that broke its pairs have lower ranks.
//! Threads kill with no lock, and between any two steps the ranks are a derivation, which one pass can
//! check again.
#![tactic(auto)]

mod answer;
mod calls;
mod close;
mod examine;
mod finishing;
mod handles;
mod open;
mod plays;
mod support;
mod team;
mod view;

pub use answer::{Rank, TicketFound, TicketKill};
pub use finishing::finish;
pub use handles::{TicketMarks, TicketSeat};
pub use team::rank_all;
pub use view::{About, Drawn, Known, Made, Ranked, TicketRule};
