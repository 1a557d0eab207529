// What a report is found to be.

/// What a report is found to be.
#[derive(Clone, Copy, Debug, PartialEq, Eq)]
pub enum Verdict {
    /// Each part holds.
    Valid,
    /// The first part that fails, by its number from 1.
    Broken(u32),
}
