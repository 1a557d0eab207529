// Amounts of millionths from text.
ghost use Rattle.std.specs.Prelude.{◌≡◌, ◌↔◌, ◌+◌, ◌^◌, ◌<◌, ◌≤◌, ℤ, true, false, min, unsigned_abs, IfSome, MatchOption};
ghost use Rattle.mwt_base.specs.Limits.{most_amount};
ghost use Rattle.length_enclosure.specs.Amount.{amount, is_amount_size, size_in, is_amount, amount_in};
ghost use Rattle.length_enclosure.specs.Units.{units_in};

use crate::number::{digits_up_to, number_up_to};

/// What a text says as an amount: its number of millionths; an amount above 10^25 millionths in size; or
/// no amount.
#[derive(Clone, Copy, Debug, PartialEq, Eq)]
pub enum Units {
    Value(i128),
    Outside,
    NoAmount,
}

const UNIT: u128 = 1_000_000;

// The greatest size of an amount that is read, in millionths.
const MOST_AMOUNT: u128 = 10_000_000_000_000_000_000_000_000;

// More whole units than there are in the most.
const WHOLE_CAP: u128 = MOST_AMOUNT / UNIT + 1;

// The millionths of an amount with no sign, or one more than the most where there are more.
#[tactic(auto, unfolding(crate::specs::Amount::is_amount_size, crate::specs::Amount::size_in))]
fn size_of(text: &[u8]) -> Option<u128>
    ensures is { MatchOption result (is_amount_size text.now ≡ false) (λ _. is_amount_size text.now ≡ true) }
    ensures value { IfSome result (λ n. n ≡ min (size_in text.now) (most_amount + 1)) }
{
    if text.len() < 8 {
        return None;
    }
    let (whole, rest) = text.split_at(text.len() - 7);
    if rest[0] != b'.' {
        return None;
    }
    let whole = number_up_to(whole, WHOLE_CAP)?;
    let rest = digits_up_to(&rest[1..], MOST_AMOUNT + 1)?;
    Some((whole * UNIT + rest).min(MOST_AMOUNT + 1))
}

/// Reads an amount: a minus sign where it is negative, the whole units with no leading zero, a dot and six
/// digits.
pub fn read_units(text: &[u8]) -> Units
    ensures exact { result ≡ units_in text.now }
    ensures value { (n : ℤ) → (result ≡ Units.Value n) ↔ ((unsigned_abs n ≤ most_amount) × (text.now ≡ amount n)) }
    ensures none { (result ≡ Units.NoAmount) ↔ (is_amount text.now ≡ false) }
    ensures outside { (result ≡ Units.Outside) ↔ ((is_amount text.now ≡ true) × (most_amount < unsigned_abs (amount_in text.now))) }
{
    read(text)
}

#[tactic(auto, unfolding(crate::specs::Units::units_in, crate::specs::Number::is_signed, crate::specs::Number::signed_in))]
fn read(text: &[u8]) -> Units
    ensures { result ≡ units_in text.now }
{
    let negative = !text.is_empty() && text[0] == b'-';
    let unsigned = if negative { &text[1..] } else { text };
    let Some(size) = size_of(unsigned) else {
        return Units::NoAmount;
    };
    if negative && size == 0 {
        return Units::NoAmount;
    }
    if MOST_AMOUNT < size {
        return Units::Outside;
    }
    let size = size as i128;
    Units::Value(if negative { -size } else { size })
}
