//! The network of candidate edges and empty triangles, the plain elimination that leaves the live
//! edges, ranks that explain an elimination, and the laws of live edges, skeletons, prices and
//! minimum-weight triangulations. The definitions of support, closed list, live list, derivation,
//! skeleton and price split stand in `specs/`.
#![tactic(auto)]

mod flags;
mod laws;
mod network;
mod ranks;
mod settle;
mod tables;

pub use flags::Flags;
pub use laws::{
    bound_laws, derivation_laws, flip_minimal_laws, live_edges_suffice, minimum_laws, number_laws,
    price_table_laws, skeleton_laws, unique_list_laws,
};
pub use network::Network;
pub use ranks::Ranks;
pub use settle::plain_settle;
