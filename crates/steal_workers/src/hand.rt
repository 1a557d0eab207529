// The edges of a group that a worker has in hand.

// They are the first edge of the group, whose number is a multiple of 64, and those after it, where
// their bit is set.
#[derive(Clone, Copy, Drop)]
pub struct Hand {
    first: u32,
    bits: u64,
}

impl Hand {
    pub fn empty() -> Hand {
        Hand { first: 0, bits: 0 }
    }

    // The edges with these bits of the group that has e.
    pub fn of(e: u32, bits: u64) -> Hand {
        Hand {
            first: e - e % 64,
            bits,
        }
    }

    // The next edge, upwards or downwards, which is no longer in hand.
    pub fn next(&mut self, downwards: bool) -> Option<u32> {
        if self.bits == 0 {
            return None;
        }
        let place = if downwards {
            63 - self.bits.leading_zeros() % 64
        } else {
            self.bits.trailing_zeros() % 64
        };
        self.bits &= !(1u64 << place);
        Some(self.first | place)
    }
}
