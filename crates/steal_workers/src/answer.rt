// How a run ends.

/// How a run of a worker ended.
#[derive(Clone, Copy, Debug, PartialEq, Eq)]
pub enum RunEnd {
    /// The edges that are not killed are the live list.
    Quiet,
    /// Kills of other workers were under way, as the two counts show that its last two steps loaded.
    InFlight { begun: u64, finished: u64 },
}
