// One bit for each edge, 64 to a word.
ghost use Rattle.std.specs.Prelude.{◌≡◌, ◌≢◌, ◌↔◌, ℕ, ◌/◌, ◌%◌, ◌^◌, ◌<◌, length, IsTrue};
ghost use Rattle.mark_seats.specs.Bits.{bit_in, bit_of};

/// The edge's bit in the value of its word.
pub fn edge_bit(word: u64, e: u32) -> u64
    ensures { result ≡ bit_in word e }
{
    word >> (e % 64) & 1
}

/// A word with the edge's bit alone.
pub fn mask(e: u32) -> u64
    ensures { result ≡ 2 ^ (e % 64) }
{
    1 << (e % 64)
}

/// Whether the edge's bit is set.
pub fn is_set(bits: &[u64], e: u32) -> bool
    requires { e / 64 < length bits.now }
    ensures { IsTrue result ↔ (bit_of bits.now e ≡ 1) }
{
    edge_bit(bits[(e / 64) as usize], e) == 1
}

/// Sets the edge's bit, and leaves the others.
pub fn set_bit(bits: &mut Vec<u64>, e: u32)
    requires { e / 64 < length bits.old.items }
    ensures count { length bits.new.items ≡ length bits.old.items }
    ensures here { bit_of bits.new.items e ≡ 1 }
    ensures others { (f : ℕ) → f ≢ e → bit_of bits.new.items f ≡ bit_of bits.old.items f }
{
    bits[(e / 64) as usize] |= mask(e);
}
