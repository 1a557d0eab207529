// The claims and the seats, as callers have them.
use crate::view::{About, ClaimRule, Known};
use atomic_table::{Seat as Place, Table};
use std::alloc::Global;
use std::marker::Model;

/// For each triangle of a mesh the least slot for which it was claimed. Threads claim triangles, each with a
/// seat of its own, and none waits for another.
#[derive(Drop)]
pub struct Claims {
    pub(crate) table: Table<u32, Known, About, ClaimRule, Global>,
    // How many triangles there are.
    pub(crate) count: u32,
    // What `close` answers.
    pub(crate) words: Vec<u64>,
}

impl Model for Claims {
    ghost use Rattle.std.specs.Prelude.{◌≡◌, ◌+◌, length};
    ghost use Rattle.flip_claims.specs.Handles.{ClaimsView};
    ghost use Rattle.flip_claims.specs.Words.{word_count};

    ghost Value = { ClaimsView };

    ghost view = { λ c. record { table = c.table.shared.table_id; mesh = c.table.shared.key.mesh.value } };

    ghost invariant = { λ c. (c.count ≡ length c.table.shared.key.mesh.value.tris)
        × (c.table.shared.table_id.words ≡ word_count c.table.shared.key.mesh.value)
        × (c.table.shared.table_id.slots ≡ 0)
        × (length c.words.items ≡ c.count) };
}

/// The right of one thread to step, and what it knows of the claims.
#[derive(Drop)]
pub struct ClaimSeat {
    pub(crate) place: Place<u32, Known>,
    pub(crate) splits: u32,
}

impl Model for ClaimSeat {
    ghost use Rattle.flip_claims.specs.Handles.{SeatView, IsSeated};

    ghost Value = { SeatView };

    ghost view = { λ s. record { table = s.place.table_id; id = s.place.id; known = s.place.me.0 } };

    ghost invariant = { λ s. IsSeated s.place.me.0 s.place.me.1 s.splits };
}
