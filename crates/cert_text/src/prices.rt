// Live edges with their amounts.
ghost use Rattle.std.specs.Prelude.{◌≡◌, [], ◌∷◌, ◌++◌, codes, OnOk};
ghost use Rattle.length_enclosure.specs.Amount.{amount};
ghost use Rattle.cert_text.specs.Cuts.{fields};
ghost use Rattle.cert_text.specs.Numbers.{amount_within, amount_upto};
ghost use Rattle.cert_text.specs.Lines.{one_amount, three_amounts, live_in};
ghost use Rattle.cert_text.specs.Texts.{line_of, price_fields};

use crate::fields::{first, is_word, one, three};
use crate::found::{Flaw, Found, both};
use crate::limits::Limits;
use crate::lines::ends_in;
use crate::numbers::amount_within;
use crate::report::{LineKind, PriceLine};
use crate::text::Text;
use exact_predicates::Edge;
use mwt_base::NoMemory;

const MOST_ANCHOR: i64 = 1_000_000_000_000_000_000;

const MOST_PRICE: i64 = 400_000_000_000_000_000;

// An amount from `low` to `high`.
fn small_amount(text: &[u8], low: i64, high: i64) -> Found<i64>
    ensures { result ≡ amount_within low high text.now }
{
    let n = amount_within(text, i128::from(low), i128::from(high))?;
    Ok(n as i64)
}

// A live edge with one amount.
fn one_amount(kind: LineKind, edge: Found<Edge>, value: Found<i64>) -> Found<PriceLine>
    ensures { result ≡ one_amount kind edge value }
{
    let (edge, value) = both(edge, value)?;
    Ok(PriceLine {
        edge,
        kind,
        value,
        left: 0,
        right: 0,
    })
}

// A live edge of the skeleton, with the anchors of its two sides.
fn three_amounts(
    edge: Found<Edge>,
    value: Found<i64>,
    left: Found<i64>,
    right: Found<i64>,
) -> Found<PriceLine>
    ensures { result ≡ three_amounts edge value left right }
{
    let (((edge, value), left), right) = both(both(both(edge, value), left), right)?;
    Ok(PriceLine {
        edge,
        kind: LineKind::Skeleton,
        value,
        left,
        right,
    })
}

/// A live edge: its ends, its kind and its amounts. Only version 2 has the kind of the skeleton.
#[tactic(auto, unfolding(crate::specs::Lines::live_in))]
pub fn live_in(limits: Limits, line: &[u8]) -> Found<PriceLine>
    ensures { result ≡ live_in limits (fields line.now) }
{
    let (a, rest) = first(line)?;
    let (b, rest) = first(rest)?;
    let (kind, amounts) = first(rest)?;
    let edge = ends_in(limits, a, b);
    if is_word(kind, b"h") {
        let value = small_amount(one(amounts)?, -MOST_ANCHOR, MOST_ANCHOR);
        one_amount(LineKind::Hull, edge, value)
    } else if is_word(kind, b"i") {
        let value = small_amount(one(amounts)?, -MOST_PRICE, MOST_PRICE);
        one_amount(LineKind::Inner, edge, value)
    } else if limits.version == 2 && is_word(kind, b"s") {
        let (value, left, right) = three(amounts)?;
        three_amounts(
            edge,
            small_amount(value, -MOST_PRICE, MOST_PRICE),
            small_amount(left, 0, MOST_ANCHOR),
            small_amount(right, 0, MOST_ANCHOR),
        )
    } else {
        Err(Flaw::NotSpelled)
    }
}

// A space and an amount.
fn write_amount(text: &mut Text, n: i64) -> Result<(), NoMemory>
    ensures { OnOk result (text.new ≡ text.old ++ 32 ∷ amount n) }
{
    text.word(" ")?;
    text.amount(i128::from(n))
}

// A kind with one amount.
fn write_one(text: &mut Text, kind: &str, value: i64) -> Result<(), NoMemory>
    ensures { OnOk result (text.new ≡ text.old ++ 32 ∷ line_of (kind.now ∷ amount value ∷ [])) }
{
    text.word(" ")?;
    text.word(kind)?;
    write_amount(text, value)?;
    text.word("\n")
}

// The anchors of the two sides.
fn write_sides(text: &mut Text, left: i64, right: i64) -> Result<(), NoMemory>
    ensures { OnOk result (text.new ≡ text.old ++ 32 ∷ line_of (amount left ∷ amount right ∷ [])) }
{
    write_amount(text, left)?;
    write_amount(text, right)?;
    text.word("\n")
}

// The kind of the skeleton with its three amounts.
fn write_three(text: &mut Text, value: i64, left: i64, right: i64) -> Result<(), NoMemory>
    ensures { OnOk result (text.new ≡ text.old ++ 32 ∷ line_of (codes "s" ∷ amount value ∷ amount left ∷ amount right ∷ [])) }
{
    text.word(" s")?;
    write_amount(text, value)?;
    write_sides(text, left, right)
}

/// Appends the kind of a live edge and its amounts, after the numbers of its ends.
pub fn write_prices(line: &PriceLine, text: &mut Text) -> Result<(), NoMemory>
    ensures { OnOk result (text.new ≡ text.old ++ 32 ∷ line_of (price_fields line.now.kind line.now.value line.now.left line.now.right)) }
{
    match line.kind {
        LineKind::Hull => write_one(text, "h", line.value),
        LineKind::Inner => write_one(text, "i", line.value),
        LineKind::Skeleton => write_three(text, line.value, line.left, line.right),
    }
}
