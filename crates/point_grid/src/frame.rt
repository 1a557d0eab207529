// Rectangles with sides along the axes.
ghost use Rattle.std.specs.Prelude.{◌≤◌, ◌*◌, ◌^◌, unsigned_abs};

/// A rectangle with sides along the axes, with its rim.
#[derive(Clone, Copy)]
pub struct Frame {
    pub left: i64,
    pub right: i64,
    pub low: i64,
    pub high: i64,
    pub ghost left_in: { unsigned_abs left ≤ 10 ^ 9 },
    pub ghost right_in: { unsigned_abs right ≤ 10 ^ 9 },
    pub ghost low_in: { unsigned_abs low ≤ 10 ^ 9 },
    pub ghost high_in: { unsigned_abs high ≤ 10 ^ 9 },
}

/// A frame as it is seen from a point.
#[derive(Clone, Copy)]
pub struct View {
    pub left: i64,
    pub right: i64,
    pub low: i64,
    pub high: i64,
    pub ghost left_in: { unsigned_abs left ≤ 2 * 10 ^ 9 },
    pub ghost right_in: { unsigned_abs right ≤ 2 * 10 ^ 9 },
    pub ghost low_in: { unsigned_abs low ≤ 2 * 10 ^ 9 },
    pub ghost high_in: { unsigned_abs high ≤ 2 * 10 ^ 9 },
}

/// What gives the sine and the cosine between a vector and another, `(a, b)`, to one scale:
/// `u * a + v * b` and `x * a + y * b`.
#[derive(Clone, Copy)]
pub(crate) struct Turn {
    pub(crate) u: i64,
    pub(crate) v: i64,
    pub(crate) x: i64,
    pub(crate) y: i64,
    pub(crate) ghost u_in: { unsigned_abs u ≤ 2 * 10 ^ 9 },
    pub(crate) ghost v_in: { unsigned_abs v ≤ 2 * 10 ^ 9 },
    pub(crate) ghost x_in: { unsigned_abs x ≤ 2 * 10 ^ 9 },
    pub(crate) ghost y_in: { unsigned_abs y ≤ 2 * 10 ^ 9 },
}
