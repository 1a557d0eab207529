// A point of the plane, and the exact tests on points.
ghost use Rattle.std.specs.Prelude.{◌≡◌, ◌↔◌, ◌*◌, ◌^◌, ◌≤◌, ◌*ℤ◌, unsigned_abs, IsTrue};
ghost use Rattle.exact_predicates.specs.Merging.{is_in_range};
ghost use Rattle.exact_predicates.specs.Plane.{IsInRange, orient, dot, d2};

/// A point, with the number that it has in its file. Coordinates are in scaled units.
#[derive(Clone, Copy, Debug)]
pub struct Point {
    pub id: u32,
    pub x: i64,
    pub y: i64,
}

// The greatest size of a coordinate, which the contract of `in_range` says.
const MOST_COORDINATE: u64 = 1_000_000_000;

/// Whether no coordinate is above 10^9 in size, as the exact tests need it.
pub fn in_range(p: &Point) -> bool
    ensures test { result ≡ is_in_range p.now }
    ensures meaning { IsTrue result ↔ IsInRange p.now }
{
    p.x.unsigned_abs() <= MOST_COORDINATE && p.y.unsigned_abs() <= MOST_COORDINATE
}

/// Twice the area of the triangle `pqr`: positive where it turns to the left, 0 where the three
/// points lie on one line.
pub fn orient(p: &Point, q: &Point, r: &Point) -> i128
    requires p_in { IsInRange p.now }
    requires q_in { IsInRange q.now }
    requires r_in { IsInRange r.now }
    ensures { result ≡ orient p.now q.now r.now }
{
    i128::from(double_area(p, q, r))
}

/// The inner product of the vectors from `o` to `p` and from `o` to `q`.
pub fn dot(o: &Point, p: &Point, q: &Point) -> i128
    requires o_in { IsInRange o.now }
    requires p_in { IsInRange p.now }
    requires q_in { IsInRange q.now }
    ensures { result ≡ dot o.now p.now q.now }
{
    i128::from(inner_product(o, p, q))
}

/// What `orient` answers, in 64 bits.
#[tactic(auto, unfolding(crate::specs::Plane::orient))]
pub(crate) fn double_area(p: &Point, q: &Point, r: &Point) -> i64
    requires p_in { IsInRange p.now }
    requires q_in { IsInRange q.now }
    requires r_in { IsInRange r.now }
    ensures value { result ≡ orient p.now q.now r.now }
    ensures bound { unsigned_abs result ≤ 8 * 10 ^ 18 }
{
    product(q.x - p.x, r.y - p.y) - product(q.y - p.y, r.x - p.x)
}

/// What `dot` answers, in 64 bits.
#[tactic(auto, unfolding(crate::specs::Plane::dot))]
pub(crate) fn inner_product(o: &Point, p: &Point, q: &Point) -> i64
    requires o_in { IsInRange o.now }
    requires p_in { IsInRange p.now }
    requires q_in { IsInRange q.now }
    ensures value { result ≡ dot o.now p.now q.now }
    ensures bound { unsigned_abs result ≤ 8 * 10 ^ 18 }
{
    product(p.x - o.x, q.x - o.x) + product(p.y - o.y, q.y - o.y)
}

/// The product of two differences of coordinates.
pub fn product(a: i64, b: i64) -> i64
    requires a_in { unsigned_abs a ≤ 2 * 10 ^ 9 }
    requires b_in { unsigned_abs b ≤ 2 * 10 ^ 9 }
    ensures value { result ≡ a *ℤ b }
    ensures bound { unsigned_abs result ≤ 4 * 10 ^ 18 }
{
    a * b
}

/// The squared distance, in squares of the scaled unit.
#[tactic(auto, unfolding(crate::specs::Plane::d2))]
pub fn d2(p: &Point, q: &Point) -> u64
    requires p_in { IsInRange p.now }
    requires q_in { IsInRange q.now }
    ensures value { result ≡ d2 p.now q.now }
    ensures bound { result ≤ 8 * 10 ^ 18 }
{
    let width = (q.x - p.x).unsigned_abs();
    let height = (q.y - p.y).unsigned_abs();
    width * width + height * height
}
