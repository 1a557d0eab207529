// The parts of a report.

use crate::report::{Method, PriceLines};
use exact_predicates::{Diamond, Edges, Hull, PointList, Tris};

/// The lines before the lists.
#[derive(Clone, Copy)]
pub struct Head {
    pub version: u32,
    pub diamond: Diamond,
    pub unit: u32,
    pub merged: u32,
}

/// The points, the hull and the number of candidate edges.
#[derive(Drop)]
pub struct PointPart {
    pub points: PointList,
    pub hull: Hull,
    pub candidates: u32,
}

/// The live edges, the skeleton and the triangles.
#[derive(Drop)]
pub struct EdgePart {
    pub live: PriceLines,
    pub skeleton: Edges,
    pub tris: Tris,
}

/// The lines after the lists.
#[derive(Clone, Copy)]
pub struct Tail {
    pub method: Method,
    pub lo: u128,
    pub hi: u128,
    pub bound: i128,
    pub gap: i128,
}
