// What the ranges of a report's lines depend on.

/// The version of a report, and how many points it has.
#[derive(Clone, Copy)]
pub struct Limits {
    pub version: u32,
    pub points: u32,
}

/// The most decimals that a coordinate may need.
pub const MOST_UNIT: u64 = 6;

/// The most points of a report.
pub const MOST_POINTS: u64 = 10_000;

/// The most candidate edges, and so the most live edges and skeleton edges.
pub const MOST_EDGES: u64 = 400_000;

/// The most triangles of a report.
pub const MOST_TILES: u64 = 20_000;
