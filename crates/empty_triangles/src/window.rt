// Where the triangles of a corner and its neighbours lie.
ghost use Rattle.std.specs.Prelude.{◌≡◌, ◌+◌, ◌<◌, ◌≤◌, ◌≤ℤ◌, length, All};
ghost use Rattle.mwt_base.specs.Limits.{most_points};
ghost use Rattle.exact_predicates.specs.PointSet.{IsPointSet, point_at};
ghost use Rattle.empty_triangles.specs.Corners.{IsAround, Widens};

use exact_predicates::{Point, Points};
use point_grid::Window;

/// The least window with all of these points after `a`, and as high as to `a`.
pub(crate) fn window_around(points: &Points, a: u32, numbers: &[u32]) -> Window
    requires points { IsPointSet points.now.points }
    requires a_in { a < length points.now.points }
    requires later { All (λ b. (a < b) × (b < length points.now.points)) numbers.now }
    ensures { IsAround points.now.points a numbers.now result }
{
    let y = points.at(a).y;
    let mut window = Window {
        from: a + 1,
        to: a + 1,
        low: y,
        high: y,
    };
    for i in 0..numbers.len() {
        let b = numbers[i];
        window = widened(&window, b, points.at(b));
    }
    window
}

// A window that also has the point `p` with the number `b`.
fn widened(window: &Window, b: u32, p: &Point) -> Window
    requires { b < most_points }
    ensures { Widens window.now b p.now result }
{
    Window {
        from: window.from,
        to: if b < window.to { window.to } else { b + 1 },
        low: if p.y < window.low { p.y } else { window.low },
        high: if window.high < p.y { p.y } else { window.high },
    }
}
