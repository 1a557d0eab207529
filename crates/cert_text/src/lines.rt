// What each kind of line says.
ghost use Rattle.std.specs.Prelude.{◌≡◌, ◌≤◌, ◌^◌};
ghost use Rattle.cert_text.specs.Cuts.{fields};
ghost use Rattle.cert_text.specs.Lines.{point_in, index_in, hull_in, edge_of, ends_in, edge_in, tri_of, tri_in};

use crate::fields::{one, three, two};
use crate::found::{Flaw, Found, both};
use crate::limits::Limits;
use crate::numbers::{coordinate_in, number_in};
use exact_predicates::{Edge, Point, Tri};

const IDS: u64 = 1 << 32;

/// A point: its id and its coordinates.
#[tactic(auto, unfolding(crate::specs::Lines::point_in))]
pub fn point_in(line: &[u8]) -> Found<Point>
    ensures { result ≡ point_in (fields line.now) }
{
    let (id, x, y) = three(line)?;
    let first = both(number_in(id, 0, IDS), coordinate_in(x));
    let ((id, x), y) = both(first, coordinate_in(y))?;
    Ok(Point { id, x, y })
}

// The number of a point.
fn index_in(limits: Limits, text: &[u8]) -> Found<u32>
    ensures { result ≡ index_in limits text.now }
{
    number_in(text, 0, u64::from(limits.points))
}

/// A point of the hull: its number.
#[tactic(auto, unfolding(crate::specs::Lines::hull_in))]
pub fn hull_in(limits: Limits, line: &[u8]) -> Found<u32>
    ensures { result ≡ hull_in limits (fields line.now) }
{
    index_in(limits, one(line)?)
}

// An edge by its ends, where the first is the lesser.
#[tactic(auto, unfolding(crate::specs::Lines::edge_of))]
fn edge_of(a: u32, b: u32) -> Found<Edge>
    ensures { result ≡ edge_of (a, b) }
{
    if a < b {
        Ok(Edge { a, b })
    } else {
        Err(Flaw::Outside)
    }
}

/// An edge by its ends.
#[tactic(auto, unfolding(crate::specs::Lines::ends_in))]
pub fn ends_in(limits: Limits, a: &[u8], b: &[u8]) -> Found<Edge>
    ensures { result ≡ ends_in limits a.now b.now }
{
    let (a, b) = both(index_in(limits, a), index_in(limits, b))?;
    edge_of(a, b)
}

/// An edge: the numbers of its ends.
#[tactic(auto, unfolding(crate::specs::Lines::edge_in))]
pub fn edge_in(limits: Limits, line: &[u8]) -> Found<Edge>
    ensures { result ≡ edge_in limits (fields line.now) }
{
    let (a, b) = two(line)?;
    ends_in(limits, a, b)
}

// A triangle by its corners, where the first is the least and the others differ.
#[tactic(auto, unfolding(crate::specs::Lines::tri_of))]
fn tri_of(a: u32, b: u32, c: u32) -> Found<Tri>
    ensures { result ≡ tri_of (a, b) c }
{
    if a < b && a < c && b != c {
        Ok(Tri { a, b, c })
    } else {
        Err(Flaw::Outside)
    }
}

/// A triangle: the numbers of its corners.
#[tactic(auto, unfolding(crate::specs::Lines::tri_in))]
pub fn tri_in(limits: Limits, line: &[u8]) -> Found<Tri>
    ensures { result ≡ tri_in limits (fields line.now) }
{
    let (a, b, c) = three(line)?;
    let first = both(index_in(limits, a), index_in(limits, b));
    let ((a, b), c) = both(first, index_in(limits, c))?;
    tri_of(a, b, c)
}
