// Numbers and amounts of a report.
ghost use Rattle.std.specs.Prelude.{◌≡◌, ◌<◌, ◌≤◌, ◌^◌, pos, ◌≤ℤ◌, unsigned_abs, neg_ℤ, IfOk};
ghost use Rattle.cert_text.specs.Numbers.{number_in, coordinate_in, amount_within};

use crate::found::{Flaw, Found};
use length_enclosure::{Units, number_up_to, read_units};

// Above every number of a report.
const CAP: u128 = 1 << 32;

// The greatest size of a coordinate, in scaled units.
const MOST_COORDINATE: u128 = 1_000_000_000;

/// A number from `low` to below `end`.
#[tactic(auto, unfolding(crate::specs::Numbers::number_in))]
pub fn number_in(text: &[u8], low: u32, end: u64) -> Found<u32>
    requires { end ≤ 2 ^ 32 }
    ensures is { result ≡ number_in low end text.now }
    ensures within { IfOk result (λ n. n < end) }
{
    let n = number_up_to(text, CAP).ok_or(Flaw::NotSpelled)?;
    if u128::from(low) <= n && n < u128::from(end) {
        Ok(n as u32)
    } else {
        Err(Flaw::Outside)
    }
}

/// A coordinate: a signed number of at most 10^9 in size.
#[tactic(auto, unfolding(crate::specs::Numbers::coordinate_in, length_enclosure::specs::Number::is_signed, length_enclosure::specs::Number::signed_in))]
pub fn coordinate_in(text: &[u8]) -> Found<i64>
    ensures { result ≡ coordinate_in text.now }
{
    let negative = !text.is_empty() && text[0] == b'-';
    let unsigned = if negative { &text[1..] } else { text };
    let size = number_up_to(unsigned, CAP).ok_or(Flaw::NotSpelled)?;
    if negative && size == 0 {
        return Err(Flaw::NotSpelled);
    }
    if MOST_COORDINATE < size {
        return Err(Flaw::Outside);
    }
    let size = size as i64;
    Ok(if negative { -size } else { size })
}

/// An amount from `low` to `high`.
#[tactic(auto, unfolding(crate::specs::Numbers::amount_within))]
pub fn amount_within(text: &[u8], low: i128, high: i128) -> Found<i128>
    ensures is { result ≡ amount_within low high text.now }
    ensures low { IfOk result (λ n. low ≤ℤ n) }
    ensures high { IfOk result (λ n. n ≤ℤ high) }
{
    match read_units(text) {
        Units::NoAmount => Err(Flaw::NotSpelled),
        Units::Outside => Err(Flaw::Outside),
        Units::Value(n) => {
            if low <= n && n <= high {
                Ok(n)
            } else {
                Err(Flaw::Outside)
            }
        }
    }
}
