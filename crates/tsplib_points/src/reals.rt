// Reals in their text.
ghost use Rattle.std.specs.Prelude.{◌≡◌, ◌<◌, ◌≤◌, ◌^◌, ◌++◌, true, false, [], length, min, IfSome, MatchOption, if◌then◌else◌};
ghost use Rattle.length_enclosure.specs.Number.{number};
ghost use Rattle.tsplib_points.specs.Real.{is_negative, unsigned, is_decimal, is_exponent, is_real, real_in, whole_part, fraction};
ghost use Rattle.tsplib_points.specs.Kept.{Holds, IsRead};
ghost use Rattle.tsplib_points.specs.Reads.{Reads};

use crate::cuts::{cut_at, position_of, position_of_power};
use crate::decimal::{Decimal, Reading};
use crate::digits::Digits;
use crate::numbers::number_up_to;

/// What is read of a text that may be a real.
#[derive(Drop)]
pub enum Read {
    /// The text is no real.
    NotReal,
    /// The real is not whole at 10^6.
    NotWhole,
    /// This is kept of the real.
    Kept(Decimal),
}

fn is_negative(text: &[u8]) -> bool
    ensures { result ≡ is_negative text.now }
{
    match text {
        [b, ..] => *b == b'-',
        [] => false,
    }
}

fn unsigned(text: &[u8]) -> &[u8]
    ensures { result.now ≡ unsigned text.now }
{
    match text {
        [b, rest @ ..] if *b == b'+' || *b == b'-' => rest,
        _ => text,
    }
}

// The digits of a real without its exponent, and how many of them stand after the point.
#[tactic(auto, using(crate::proofs::RealTexts::are_digits_both), unfolding(crate::specs::Real::is_decimal))]
fn decimal(text: &[u8]) -> Option<(Digits, u64)>
    requires { length text.now < 2 ^ 32 }
    ensures form { MatchOption result (is_decimal text.now ≡ false) (λ _. is_decimal text.now ≡ true) }
    ensures digits { IfSome result (λ p.
        Holds p.0.head p.0.zeros (number (whole_part text.now ++ fraction text.now))) }
    ensures zeros { IfSome result (λ p. p.0.zeros < 2 ^ 33) }
    ensures places { IfSome result (λ p. p.1 ≡ length (fraction text.now)) }
{
    let (whole, fraction) = cut_at(text, position_of(text, b'.'));
    if whole.is_empty() && fraction.is_empty() {
        return None;
    }
    let mut digits = Digits::zero();
    if digits.push_all(whole) && digits.push_all(fraction) {
        Some((digits, fraction.len() as u64))
    } else {
        None
    }
}

// How far an exponent moves the point to the right and to the left, up to 2^40. It may not be there.
#[tactic(auto, unfolding(crate::specs::Real::is_exponent))]
fn exponent(is_there: bool, text: &[u8]) -> Option<(u64, u64)>
    requires { is_there ≡ false → text.now ≡ [] }
    ensures form { MatchOption result (is_exponent is_there text.now ≡ false)
        (λ _. is_exponent is_there text.now ≡ true) }
    ensures right { IfSome result (λ p.
        p.0 ≡ min (if is_negative text.now then 0 else number (unsigned text.now)) (2 ^ 40)) }
    ensures left { IfSome result (λ p.
        p.1 ≡ min (if is_negative text.now then number (unsigned text.now) else 0) (2 ^ 40)) }
{
    if !is_there {
        return Some((0, 0));
    }
    match number_up_to(unsigned(text), 1 << 40) {
        None => None,
        Some(size) if is_negative(text) => Some((0, size)),
        Some(size) => Some((size, 0)),
    }
}

// The parts of a real, if the text is one.
fn reading(text: &[u8]) -> Option<Reading>
    requires { length text.now < 2 ^ 32 }
    ensures form { MatchOption result (is_real text.now ≡ false) (λ _. is_real text.now ≡ true) }
    ensures read { IfSome result (λ r.
        IsRead r.negative r.digits.head r.digits.zeros r.places r.right r.left (real_in text.now)) }
    ensures zeros { IfSome result (λ r. r.digits.zeros < 2 ^ 33) }
    ensures places { IfSome result (λ r. r.places < 2 ^ 33) }
    ensures right { IfSome result (λ r. r.right ≤ 2 ^ 40) }
    ensures left { IfSome result (λ r. r.left ≤ 2 ^ 40) }
{
    let body = unsigned(text);
    let power_place = position_of_power(body);
    let (mantissa, power) = cut_at(body, power_place);
    let Some((digits, places)) = decimal(mantissa) else {
        return None;
    };
    let Some((right, left)) = exponent(power_place.is_some(), power) else {
        return None;
    };
    Some(Reading {
        negative: is_negative(text),
        digits,
        places,
        right,
        left,
    })
}

/// Reads a real.
pub fn real(text: &[u8]) -> Read
    requires { length text.now < 2 ^ 32 }
    ensures { Reads result text.now }
{
    let Some(reading) = reading(text) else {
        return Read::NotReal;
    };
    match reading.keep() {
        Some(decimal) => Read::Kept(decimal),
        None => Read::NotWhole,
    }
}
