//! Claims: threads claim the triangles of a mesh for the slots that they want to flip. A slot claims its
//! two triangles, and a triangle goes to the least slot that claims it. So the slots that are left with
//! both of their triangles share none, and their edges can all be flipped. There is no lock: each claim is
//! one atomic step on a word of the triangle. A triangulation is made shorter in rounds of such flips.
#![tactic(auto)]

mod answer;
mod calls;
mod close;
mod handles;
mod laws;
mod near;
mod open;
mod plays;
mod rounds;
mod team;
mod view;
mod winners;

pub use answer::Claim;
pub use close::ClaimWords;
pub use handles::{ClaimSeat, Claims};
pub use laws::one_descendant_law;
pub use rounds::{round, shorten_claimed};
pub use view::{About, ClaimRule, Claimed, Known, Made};
