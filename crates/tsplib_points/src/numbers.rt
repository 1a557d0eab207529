// Whole numbers.
ghost use Rattle.std.specs.Prelude.{◌≡◌, ◌^◌, ◌≤◌, true, false, min, IfSome, MatchOption};
ghost use Rattle.length_enclosure.specs.Number.{number};
ghost use Rattle.tsplib_points.specs.Numbers.{is_digits, small_number};

use length_enclosure::digits_up_to;

/// The number of one or more digits, or the cap where it is above that.
pub fn number_up_to(text: &[u8], cap: u64) -> Option<u64>
    requires { cap ≤ 2 ^ 40 }
    ensures digits { MatchOption result (is_digits text.now ≡ false) (λ _. is_digits text.now ≡ true) }
    ensures value { IfSome result (λ n. n ≡ min (number text.now) cap) }
{
    if text.is_empty() {
        return None;
    }
    let n = digits_up_to(text, u128::from(cap))?;
    Some(n as u64)
}

/// A number below 2^32, written as one or more digits.
#[tactic(auto, unfolding(crate::specs::Numbers::small_number))]
pub fn small_number(text: &[u8]) -> Option<u32>
    ensures { result ≡ small_number text.now }
{
    match number_up_to(text, 1 << 32) {
        Some(n) if n < 1 << 32 => Some(n as u32),
        _ => None,
    }
}
