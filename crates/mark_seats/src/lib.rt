//! What the seats at a table of marks have in common, whatever a mark is: their notes, and their number; the
//! edges that each has tried, a bit for each; and sums over their views.
#![tactic(auto)]

mod bits;
mod closing;
mod rows;

pub use bits::{edge_bit, is_set, mask, set_bit};
pub use closing::put_away;
pub use rows::{COUNTER_STEP, NOTE_STEP, blank_rows};
