// The steps of a seat, each with what it tells.
ghost use Rattle.ticket_marks.specs.Plays.{looked, drew, killed, took_note, left_view, right_view};

use crate::view::Known;
use atomic_table::{Play, Split};

/// A load of a mark.
pub struct See;

impl Play<u32, Known> for See {
    ghost then = { looked };
}

/// `issued` rises, for the edge in the note.
pub struct Draw;

impl Play<u32, Known> for Draw {
    ghost then = { drew };
}

/// The mark becomes the rank, if it is 0.
pub struct Store;

impl Play<u32, Known> for Store {
    ghost then = { killed };
}

/// A load of the first word, with which the seat takes its note.
pub struct TakeNote;

impl Play<u32, Known> for TakeNote {
    ghost then = { took_note };
}

/// A seat is split off.
pub struct Cut;

impl Split<Known> for Cut {
    ghost left = { left_view };

    ghost right = { right_view };
}
