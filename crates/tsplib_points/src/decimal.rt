// What is kept of a coordinate.
ghost use Rattle.std.specs.Prelude.{◌≡◌, ◌<◌, ◌≤◌, ◌^◌, false, MatchOption};
ghost use Rattle.mwt_base.specs.Limits.{most_unit};
ghost use Rattle.tsplib_points.specs.Real.{Real, is_whole};
ghost use Rattle.tsplib_points.specs.Kept.{IsRead, Keeps};

use crate::digits::{Digits, shifted};

// The most decimals that a coordinate may need, which the contract of `keep` says.
const MOST_UNIT: u64 = 6;

/// A decimal: its size is `size` times 10^-`unit`, and `unit` is the least that makes `size` whole, at
/// most 6. A size above 10^9 is kept as 10^9 + 1.
#[derive(Clone, Copy)]
pub struct Decimal {
    pub negative: bool,
    pub unit: u8,
    pub size: u32,
}

/// What is read of a real: its digits, how many of these stand after the point, and how far its
/// exponent moves the point to the right or to the left, up to 2^40.
#[derive(Clone, Copy)]
pub struct Reading {
    pub negative: bool,
    pub digits: Digits,
    pub places: u64,
    pub right: u64,
    pub left: u64,
}

impl Reading {
    /// What is kept of the real, if it is whole at 10^6.
    pub fn keep(self) -> Option<Decimal>
        requires zeros_in { self.digits.zeros < 2 ^ 33 }
        requires places_in { self.places < 2 ^ 33 }
        requires right_in { self.right ≤ 2 ^ 40 }
        requires left_in { self.left ≤ 2 ^ 40 }
        ensures { (r : Real) →
            IsRead self.negative self.digits.head self.digits.zeros self.places self.right self.left r →
            MatchOption result (is_whole most_unit r ≡ false) (λ d. Keeps d.negative d.unit d.size r) }
    {
        let head = self.digits.head;
        let up = self.digits.zeros + self.right;
        let down = self.places + self.left;
        let (unit, size) = if head == 0 {
            (0, 0)
        } else if up + MOST_UNIT < down {
            return None;
        } else if up < down {
            ((down - up) as u8, head as u32)
        } else {
            (0, shifted(head, up - down, 0) as u32)
        };
        Some(Decimal {
            negative: self.negative,
            unit,
            size,
        })
    }
}
