// The marks and the seats, as callers have them.
use crate::supports::Places;
use crate::view::{About, Known, MarksRule};
use atomic_table::{Seat as Place, Table};
use lmt_network::Flags;
use std::alloc::Global;
use std::marker::Model;

/// Which edges of a network are killed, a bit for each. Threads read it and kill edges through it, each
/// with a seat of its own, and none waits for another.
#[derive(Drop)]
pub struct Marks {
    pub(crate) table: Table<u32, Known, About, MarksRule, Global>,
    // How many edges there are.
    pub(crate) count: u32,
    // What `close` answers.
    pub(crate) flags: Flags,
    pub(crate) heap: Global,
}

impl Model for Marks {
    ghost use Rattle.std.specs.Prelude.{◌≡◌, ◌+◌, ◌/◌, ◌<◌, ◌^◌, true, length, replicate};
    ghost use Rattle.edge_marks.specs.Handles.{MarksView};
    ghost use Rattle.edge_marks.specs.Words.{word_count};

    ghost Value = { MarksView };

    ghost view = { λ m. record { table = m.table.shared.table_id; net = m.table.shared.key.net.value; seats = m.table.shared.key.seats } };

    ghost invariant = { λ m. (m.count ≡ length m.table.shared.key.net.value.edges)
        × (m.table.shared.table_id.words ≡ word_count m.table.shared.key.net.value)
        × (m.flags ≡ replicate m.count true) };
}

/// The right of one thread to step, and what it knows of the marks.
#[derive(Drop)]
pub struct Seat {
    pub(crate) place: Place<u32, Known>,
    // The number of its note.
    pub(crate) slot: u32,
    // Of each edge, whether the seat has tried it: a bit, 64 to a word.
    pub(crate) bits: Vec<u64>,
    // The bits of the seats that may be split off.
    pub(crate) spare: Vec<Vec<u64>>,
    // Of each edge, where its support was found last; or nothing of any edge.
    pub(crate) supports: Vec<Places>,
}

impl Model for Seat {
    ghost use Rattle.edge_marks.specs.Handles.{SeatView, IsSeated};

    ghost Value = { SeatView };

    ghost view = { λ s. record { table = s.place.table_id; id = s.place.id; known = s.place.me.0 } };

    ghost invariant = { λ s. IsSeated s.place.me.0 s.place.me.1 s.slot s.bits.items s.spare.items };
}
