// A triangle of three numbered points.
ghost use Rattle.std.specs.Prelude.{◌<◌, ◌≢◌};

/// The triangle whose corners are the points with these numbers, the least of them first.
/// Its directed sides go from `a` to `b`, from `b` to `c` and from `c` to `a`.
/// Triangles are ordered by `a`, then by `b`, then by `c`.
#[derive(Clone, Copy, Debug, PartialEq, Eq, PartialOrd, Ord)]
pub struct Tri {
    pub a: u32,
    pub b: u32,
    pub c: u32,
    pub ghost below_b: { a < b },
    pub ghost below_c: { a < c },
    pub ghost apart: { b ≢ c },
}
