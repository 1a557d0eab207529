//! The text of a report: what it is, writing it, and reading it.
#![tactic(auto)]

mod fields;
mod found;
mod laws;
mod limits;
mod lines;
mod numbers;
mod parts;
mod prices;
mod reader;
mod refusal;
mod report;
mod rows;
mod text;
mod whole;
mod words;
mod writer;

pub use laws::report_text_laws;
pub use refusal::{Refusal2, ReportStop};
pub use report::{LineKind, Method, PriceLine, PriceLines, Report};
pub use whole::read_report;
pub use writer::write_report;

#[cfg(test)]
mod tests;
