//! Prices of live edges, and anchors that add up to a lower bound: start, sweeps, tightening. Prices and
//! anchors are a dual solution of the linear program over triangles (G. B. Dantzig, A. J. Hoffman and
//! T. C. Hu, "Triangulations (tilings) and certain block triangular matrices", 1985), made better by one
//! edge after the other. The definitions of each step stand in `specs/Ascent.antt`.
#![tactic(auto)]

mod ascent;
mod bound;
mod entry;
mod law;
mod number;
mod prices;
mod put;
mod raise;
mod slacks;
mod start;
mod sweep;
mod tighten;

pub use law::ascent_law;
pub use prices::Prices;
