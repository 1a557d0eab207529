// What marks and seats are opened with.
ghost use Rattle.std.specs.Prelude.{◌≡◌, length, replicate, IfOk, All};

use std::alloc::{AllocError, Global};

/// Notes stand at each 32nd slot of four bytes, 128 bytes apart, so that seats write theirs without a cache
/// line in common.
pub const NOTE_STEP: usize = 32;

/// A counter stands 16 words of eight bytes from what stands beside it, for the same reason.
pub const COUNTER_STEP: usize = 16;

/// So many rows of bits, none of them set, each of `len` words.
pub fn blank_rows(alloc: Global, count: usize, len: usize) -> Result<Vec<Vec<u64>>, AllocError>
    ensures count { IfOk result (λ rows. length rows.items ≡ count) }
    ensures blank { IfOk result (λ rows. All (λ row. row.items ≡ replicate len 0) rows.items) }
{
    let mut rows = Vec::with_capacity(alloc, count)?;
    'fill: for _ in 0..count {
        let row = Vec::from_elem(alloc, 0u64, len)?;
        rows.push(row)?;
    }
    Ok(rows)
}
