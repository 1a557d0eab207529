// A table is closed.
ghost use Rattle.std.specs.Mem.Slots.{IsFull};

use atomic_table::Closed;
use std::alloc::Global;

/// Frees the words and the notes.
pub fn put_away(mut closed: Closed<u32, Global>)
    requires { IsFull closed.slots }
{
    let mut i = 0;
    while i < closed.slot_count() {
        closed.take(i);
        i += 1;
    }
    closed.free();
}
