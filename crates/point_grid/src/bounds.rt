// Boxes round regions.
ghost use Rattle.std.specs.Prelude.{◌≤◌, ◌*◌, ◌^◌, unsigned_abs};

/// The least and the greatest coordinates of a region.
#[derive(Clone, Copy)]
pub(crate) struct Bounds {
    pub(crate) left: i64,
    pub(crate) right: i64,
    pub(crate) low: i64,
    pub(crate) high: i64,
    pub(crate) ghost left_in: { unsigned_abs left ≤ 2 * 10 ^ 10 },
    pub(crate) ghost right_in: { unsigned_abs right ≤ 2 * 10 ^ 10 },
    pub(crate) ghost low_in: { unsigned_abs low ≤ 2 * 10 ^ 10 },
    pub(crate) ghost high_in: { unsigned_abs high ≤ 2 * 10 ^ 10 },
}
