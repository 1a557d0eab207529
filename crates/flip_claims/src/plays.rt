// The steps of a seat, each with what it tells.
ghost use Rattle.flip_claims.specs.Plays.{lowered, left_view, right_view, joined_view, spent_view};

use crate::view::Known;
use atomic_table::{Join, Play, Split};

/// The word of a triangle becomes at most a slot.
pub struct Lower;

impl Play<u32, Known> for Lower {
    ghost then = { lowered };
}

/// A seat is split off.
pub struct Cut;

impl Split<Known> for Cut {
    ghost left = { left_view };

    ghost right = { right_view };
}

/// A seat is joined with another.
pub struct Merge;

impl Join<Known> for Merge {
    ghost both = { joined_view };

    ghost spent = { spent_view };
}
