// The range of linear forms over a frame as it is seen from a point.
ghost use Rattle.std.specs.Prelude.{◌≡◌, ◌*◌, ◌^◌, ◌≤◌, ℤ, pos, ◌+ℤ◌, ◌*ℤ◌, ◌≤ℤ◌, unsigned_abs};
ghost use Rattle.point_grid.specs.Flat.{norm};
ghost use Rattle.point_grid.specs.Views.{IsInView};

use crate::frame::View;
use exact_predicates::product;

// At least each `a * x` with `x` from `low` to `high`.
fn largest(a: i64, low: i64, high: i64) -> i64
    requires a_in { unsigned_abs a ≤ 2 * 10 ^ 9 }
    requires low_in { unsigned_abs low ≤ 2 * 10 ^ 9 }
    requires high_in { unsigned_abs high ≤ 2 * 10 ^ 9 }
    ensures above { (x : ℤ) → low ≤ℤ x → x ≤ℤ high → (a *ℤ x) ≤ℤ result }
    ensures bound { unsigned_abs result ≤ 4 * 10 ^ 18 }
{
    if a < 0 {
        product(a, low)
    } else {
        product(a, high)
    }
}

// At most each `a * x` with `x` from `low` to `high`.
fn smallest(a: i64, low: i64, high: i64) -> i64
    requires a_in { unsigned_abs a ≤ 2 * 10 ^ 9 }
    requires low_in { unsigned_abs low ≤ 2 * 10 ^ 9 }
    requires high_in { unsigned_abs high ≤ 2 * 10 ^ 9 }
    ensures below { (x : ℤ) → low ≤ℤ x → x ≤ℤ high → result ≤ℤ (a *ℤ x) }
    ensures bound { unsigned_abs result ≤ 4 * 10 ^ 18 }
{
    if a < 0 {
        product(a, high)
    } else {
        product(a, low)
    }
}

/// At least each `a * x + b * y` in the view.
pub(crate) fn greatest(a: i64, b: i64, view: &View) -> i64
    requires a_in { unsigned_abs a ≤ 2 * 10 ^ 9 }
    requires b_in { unsigned_abs b ≤ 2 * 10 ^ 9 }
    ensures above { (x y : ℤ) → IsInView view.now x y → ((a *ℤ x) +ℤ (b *ℤ y)) ≤ℤ result }
    ensures bound { unsigned_abs result ≤ 8 * 10 ^ 18 }
{
    largest(a, view.left, view.right) + largest(b, view.low, view.high)
}

/// At most each `a * x + b * y` in the view.
pub(crate) fn least(a: i64, b: i64, view: &View) -> i64
    requires a_in { unsigned_abs a ≤ 2 * 10 ^ 9 }
    requires b_in { unsigned_abs b ≤ 2 * 10 ^ 9 }
    ensures below { (x y : ℤ) → IsInView view.now x y → result ≤ℤ ((a *ℤ x) +ℤ (b *ℤ y)) }
    ensures bound { unsigned_abs result ≤ 8 * 10 ^ 18 }
{
    smallest(a, view.left, view.right) + smallest(b, view.low, view.high)
}

/// The squared length of a vector.
pub(crate) fn norm(x: i64, y: i64) -> i64
    requires x_in { unsigned_abs x ≤ 2 * 10 ^ 9 }
    requires y_in { unsigned_abs y ≤ 2 * 10 ^ 9 }
    ensures value { result ≡ norm x y }
    ensures positive { pos 0 ≤ℤ result }
    ensures bound { unsigned_abs result ≤ 8 * 10 ^ 18 }
{
    product(x, x) + product(y, y)
}

// The number from `low` to `high` that is nearest to 0.
fn nearest(low: i64, high: i64) -> i64
    requires low_in { unsigned_abs low ≤ 2 * 10 ^ 9 }
    requires high_in { unsigned_abs high ≤ 2 * 10 ^ 9 }
    ensures below { (x : ℤ) → low ≤ℤ x → x ≤ℤ high → (result *ℤ result) ≤ℤ (x *ℤ x) }
    ensures bound { unsigned_abs result ≤ 2 * 10 ^ 9 }
{
    if low > 0 {
        low
    } else if high < 0 {
        high
    } else {
        0
    }
}

/// At most each squared distance in the view.
pub(crate) fn least_norm(view: &View) -> i64
    ensures below { (x y : ℤ) → IsInView view.now x y → result ≤ℤ norm x y }
    ensures positive { pos 0 ≤ℤ result }
    ensures bound { unsigned_abs result ≤ 8 * 10 ^ 18 }
{
    norm(nearest(view.left, view.right), nearest(view.low, view.high))
}
