//! The top call of the program: from the words of the command line and a source to a sink and a
//! status. Its contract is what the program promises.
#![tactic(auto)]

mod answer;
mod checking;
mod command;
mod explainer;
mod generator;
mod kills;
mod laws;
mod options;
mod price_lines;
mod priced;
mod refusal;
mod shortening;
mod solution;
mod solver;
mod solving;
mod summary;
mod top;
mod words;

pub use generator::generate;
pub use laws::{one_file_law, round_trip_law};
pub use solver::{Settings, solve};
pub use top::{run, run_in_memory};
