//! Tests of the whole library, from its top call down to single calls, over the public calls of its
//! crates. Expected values are worked out by hand, or by another program from the rules.
#![tactic(auto)]

#[cfg(test)]
mod by_definition;
#[cfg(test)]
mod callers;
#[cfg(test)]
mod cells;
#[cfg(test)]
mod claimed_flips;
#[cfg(test)]
mod enumeration;
#[cfg(test)]
mod faults;
#[cfg(test)]
mod generator;
#[cfg(test)]
mod hard_sets;
#[cfg(test)]
mod helpers;
#[cfg(test)]
mod known_skeletons;
#[cfg(test)]
mod live_edges;
#[cfg(test)]
mod many_points;
#[cfg(test)]
mod marks;
#[cfg(test)]
mod modes;
#[cfg(test)]
mod optima;
#[cfg(test)]
mod parts;
#[cfg(test)]
mod point_files;
#[cfg(test)]
mod prices;
#[cfg(test)]
mod ranks;
#[cfg(test)]
mod refusals;
#[cfg(test)]
mod sets;
#[cfg(test)]
mod skeletons;
#[cfg(test)]
mod slow_prices;
#[cfg(test)]
mod solve_teams;
#[cfg(test)]
mod stolen;
#[cfg(test)]
mod streams;
#[cfg(test)]
mod workers;
