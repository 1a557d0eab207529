// The lines that begin with a word.
ghost use Rattle.std.specs.Prelude.{◌≡◌, ◌≤◌, ◌^◌, pos, neg_ℤ, unsigned_abs};
ghost use Rattle.mwt_base.specs.Limits.{most_amount};
ghost use Rattle.cert_text.specs.Cuts.{fields};
ghost use Rattle.cert_text.specs.Lines.{count_in, diamond_of, diamond_in, method_of, method_in, length_in, amount_line_in, end_in};

use crate::fields::{after, is_word, one, three};
use crate::found::{Flaw, Found, both};
use crate::numbers::{amount_within, number_in};
use crate::report::Method;
use exact_predicates::Diamond;

const MOST_LENGTH: i128 = 100_000_000_000_000_000_000;

/// A word and a number from `low` to below `end`.
#[tactic(auto, unfolding(crate::specs::Lines::count_in))]
pub fn count_in(word: &[u8], low: u32, end: u64, line: &[u8]) -> Found<u32>
    requires { end ≤ 2 ^ 32 }
    ensures { result ≡ count_in word.now low end (fields line.now) }
{
    number_in(after(word, line)?, low, end)
}

fn diamond_of(word: &[u8]) -> Found<Diamond>
    ensures { result ≡ diamond_of word.now }
{
    if is_word(word, b"on") {
        Ok(Diamond::On)
    } else if is_word(word, b"off") {
        Ok(Diamond::Off)
    } else {
        Err(Flaw::NotSpelled)
    }
}

/// Whether the diamond test is made.
#[tactic(auto, unfolding(crate::specs::Lines::diamond_in))]
pub fn diamond_in(line: &[u8]) -> Found<Diamond>
    ensures { result ≡ diamond_in (fields line.now) }
{
    diamond_of(after(b"diamond", line)?)
}

fn method_of(version: u32, word: &[u8]) -> Found<Method>
    ensures { result ≡ method_of version word.now }
{
    if is_word(word, b"flips") {
        Ok(Method::Flips)
    } else if version == 2 && is_word(word, b"faces") {
        Ok(Method::Faces)
    } else {
        Err(Flaw::NotSpelled)
    }
}

/// How the triangulation was found. Only version 2 has the method faces.
#[tactic(auto, unfolding(crate::specs::Lines::method_in))]
pub fn method_in(version: u32, line: &[u8]) -> Found<Method>
    ensures { result ≡ method_in version (fields line.now) }
{
    method_of(version, after(b"method", line)?)
}

/// The two ends of an enclosure.
#[tactic(auto, unfolding(crate::specs::Lines::length_in))]
pub fn length_in(line: &[u8]) -> Found<(u128, u128)>
    ensures { result ≡ length_in (fields line.now) }
{
    let (first, lo, hi) = three(line)?;
    if !is_word(first, b"length") {
        return Err(Flaw::NotSpelled);
    }
    let (lo, hi) = both(
        amount_within(lo, 0, MOST_LENGTH),
        amount_within(hi, 0, MOST_LENGTH),
    )?;
    Ok((lo.unsigned_abs(), hi.unsigned_abs()))
}

/// A word and an amount of at most this size.
#[tactic(auto, unfolding(crate::specs::Lines::amount_line_in))]
pub fn amount_line_in(word: &[u8], most: u128, line: &[u8]) -> Found<i128>
    requires { most ≤ most_amount }
    ensures { result ≡ amount_line_in word.now most (fields line.now) }
{
    let amount = after(word, line)?;
    let most = most as i128;
    amount_within(amount, -most, most)
}

/// The last line.
#[tactic(auto, unfolding(crate::specs::Lines::end_in))]
pub fn end_in(line: &[u8]) -> Found<()>
    ensures { result ≡ end_in (fields line.now) }
{
    if is_word(one(line)?, b"end") {
        Ok(())
    } else {
        Err(Flaw::NotSpelled)
    }
}
