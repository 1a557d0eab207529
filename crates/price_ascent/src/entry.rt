// What is kept of one edge.

/// What is kept of one edge of the network, in millionths.
#[derive(Clone, Copy)]
pub struct PriceEntry {
    /// The anchor of a hull edge, the price of another live edge, and 0 of a killed one.
    pub value: i64,
    /// The anchor of the side from the lesser end to the greater.
    pub left: i64,
    /// The anchor of the side from the greater end to the lesser.
    pub right: i64,
    /// The share of the side from the lesser end to the greater.
    pub up: i64,
    /// The share of the side from the greater end to the lesser.
    pub down: i64,
    pub live: bool,
    /// Whether the two sides of the edge have anchors of their own.
    pub anchored: bool,
}
