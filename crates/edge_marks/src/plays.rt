// The steps of a seat, each with what it tells.
ghost use Rattle.edge_marks.specs.Plays.{looked, started, marked, ended, opened, read_finished, settled, took_note, left_view, right_view};

use crate::view::Known;
use atomic_table::{Play, Split};

/// A load of the word of the edge in the note.
pub struct See;

impl Play<u32, Known> for See {
    ghost then = { looked };
}

/// `begun` rises, for the edge in the note.
pub struct Start;

impl Play<u32, Known> for Start {
    ghost then = { started };
}

/// The bit of the edge is set.
pub struct Mark;

impl Play<u32, Known> for Mark {
    ghost then = { marked };
}

/// `finished` rises.
pub struct Finish;

impl Play<u32, Known> for Finish {
    ghost then = { ended };
}

/// A load of `begun` opens a pass.
pub struct OpenPass;

impl Play<u32, Known> for OpenPass {
    ghost then = { opened };
}

/// A load of `finished` follows.
pub struct ReadFinished;

impl Play<u32, Known> for ReadFinished {
    ghost then = { read_finished };
}

/// A load of `begun` ends a pass in which each edge was judged.
pub struct SettlePass;

impl Play<u32, Known> for SettlePass {
    ghost then = { settled };
}

/// A load of the first word, with which the seat takes its note.
pub struct TakeNote;

impl Play<u32, Known> for TakeNote {
    ghost then = { took_note };
}

/// A seat is split off.
pub struct Cut;

impl Split<Known> for Cut {
    ghost left = { left_view };

    ghost right = { right_view };
}
