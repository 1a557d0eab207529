// What a report says.

use exact_predicates::{Diamond, Edge, Edges, Hull, PointList, Tris};
use mwt_base::ItemList;

/// What is known of a live edge: it is an edge of the hull; one of the skeleton with an anchor on each of
/// its sides; or any other.
#[derive(Clone, Copy, Debug, PartialEq, Eq)]
pub enum LineKind {
    Hull,
    Inner,
    Skeleton,
}

/// A live edge with its amounts, in millionths of the unit: `value` is the anchor of an edge of the hull
/// and the price of any other; `left` and `right` are the anchors of an edge of the kind `Skeleton`, else 0.
#[derive(Clone, Copy, Debug)]
pub struct PriceLine {
    pub edge: Edge,
    pub kind: LineKind,
    pub value: i64,
    pub left: i64,
    pub right: i64,
}

/// The live edges of a report.
pub type PriceLines = ItemList<PriceLine>;

/// How a triangulation was found: by flips that shorten it; or face by face of the skeleton, each by interval
/// programming.
#[derive(Clone, Copy, Debug, PartialEq, Eq)]
pub enum Method {
    Flips,
    Faces,
}

/// A set of points in order, its hull, how many candidate edges it has, its live edges with a price split,
/// its skeleton, a triangulation, the two ends between which its length lies, a lower bound for the length
/// of every triangulation, and the gap between the two. Lengths are in millionths of the unit.
#[derive(Drop)]
pub struct Report {
    pub version: u32,
    pub diamond: Diamond,
    pub unit: u32,
    pub merged: u32,
    pub points: PointList,
    pub hull: Hull,
    pub candidates: u32,
    pub live: PriceLines,
    pub skeleton: Edges,
    pub tris: Tris,
    pub method: Method,
    pub lo: u128,
    pub hi: u128,
    pub bound: i128,
    pub gap: i128,
}
