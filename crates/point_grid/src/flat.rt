// Which points can block a side of an edge, over the points of a view.
ghost use Rattle.std.specs.Prelude.{ℤ, IsTrue};
ghost use Rattle.point_grid.specs.Flat.{IsFlat, sine, cosine, norm};
ghost use Rattle.point_grid.specs.Views.{IsInView};

use crate::forms::{greatest, least, least_norm, norm};
use crate::frame::{Turn, View};
use exact_predicates::is_below_base_angle;

/// Whether a vector in the view may be flat over the one of the turn.
pub(crate) fn may_be_flat(turn: &Turn, view: &View) -> bool
    ensures { (a b : ℤ) → IsInView view.now a b →
        IsFlat (sine turn.now a b) (cosine turn.now a b) (norm turn.now.x turn.now.y) →
        IsTrue result }
{
    let sine = least(turn.u, turn.v, view).max(0);
    greatest(turn.u, turn.v, view) >= 0
        && is_below_base_angle(sine, greatest(turn.x, turn.y, view))
        && is_below_base_angle(
            sine,
            norm(turn.x, turn.y) - least(turn.x, turn.y, view).max(0),
        )
}

/// Whether the vector of the turn is surely flat over each that ends in the view.
pub(crate) fn is_flat_over(turn: &Turn, view: &View) -> bool
    ensures { IsTrue result → (a b : ℤ) → IsInView view.now a b →
        IsFlat (sine turn.now a b) (cosine turn.now a b) (norm a b) }
{
    let sine = greatest(turn.u, turn.v, view).max(0);
    least(turn.u, turn.v, view) >= 0
        && is_below_base_angle(sine, least(turn.x, turn.y, view))
        && is_below_base_angle(
            sine,
            least_norm(view) - greatest(turn.x, turn.y, view).max(0),
        )
}
