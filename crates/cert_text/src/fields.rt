// How a text is cut into lines and fields.
ghost use Rattle.std.specs.Prelude.{◌≡◌, ◌+◌, ◌<◌, [], ◌∷◌, length, position, bytes_eq, Ok, Err, IfSome, MatchResult};
ghost use Rattle.std.specs.Option.{ForSome, option_map};
ghost use Rattle.cert_text.specs.Cuts.{is_byte, cut, fields, one, two, three, after};

use crate::found::{Flaw, Found};

// Where a byte comes first.
fn position_of(text: &[u8], byte: u8) -> Option<usize>
    ensures first { result ≡ position (is_byte byte) text.now }
    ensures within { ForSome result (λ n. n < length text.now) }
{
    text.iter().position(|b| *b == byte)
}

/// What stands before the first of these bytes and after it.
#[tactic(auto, unfolding(crate::specs::Cuts::cut))]
pub fn cut(text: &[u8], byte: u8) -> Option<(&[u8], &[u8])>
    ensures parts { option_map (λ parts. (parts.0.now, parts.1.now)) result ≡ cut byte text.now }
    ensures len { IfSome result (λ parts. length parts.0.now + 1 + length parts.1.now ≡ length text.now) }
{
    let n = position_of(text, byte)?;
    Some((&text[..n], &text[n + 1..]))
}

pub fn is_word(text: &[u8], word: &[u8]) -> bool
    ensures { result ≡ bytes_eq text.now word.now }
{
    text == word
}

/// The first field of a line with more than one, and what stands after it.
#[tactic(auto, using(crate::proofs::Cutting::fields_cut))]
pub fn first(line: &[u8]) -> Found<(&[u8], &[u8])>
    ensures { MatchResult result (λ parts. fields line.now ≡ parts.0.now ∷ fields parts.1.now)
        (λ flaw. (flaw ≡ Flaw.NotSpelled) × (fields line.now ≡ line.now ∷ [])) }
{
    cut(line, b' ').ok_or(Flaw::NotSpelled)
}

/// The field of a line with exactly one.
#[tactic(auto, using(crate::proofs::Cutting::one_more))]
pub fn one(line: &[u8]) -> Found<&[u8]>
    ensures { MatchResult result (λ a. one (fields line.now) ≡ Ok a.now)
        (λ flaw. one (fields line.now) ≡ Err flaw) }
{
    match first(line) {
        Ok(_) => Err(Flaw::NotSpelled),
        Err(_) => Ok(line),
    }
}

/// The fields of a line with exactly two.
pub fn two(line: &[u8]) -> Found<(&[u8], &[u8])>
    ensures { MatchResult result (λ v. two (fields line.now) ≡ Ok (v.0.now, v.1.now))
        (λ flaw. two (fields line.now) ≡ Err flaw) }
{
    let (a, rest) = first(line)?;
    Ok((a, one(rest)?))
}

/// The fields of a line with exactly three.
pub fn three(line: &[u8]) -> Found<(&[u8], &[u8], &[u8])>
    ensures { MatchResult result (λ v. three (fields line.now) ≡ Ok (v.0.now, v.1.now, v.2.now))
        (λ flaw. three (fields line.now) ≡ Err flaw) }
{
    let (a, rest) = first(line)?;
    let (b, c) = two(rest)?;
    Ok((a, b, c))
}

/// The field after this word, in a line with exactly the two.
pub fn after<'a>(word: &[u8], line: &'a [u8]) -> Found<&'a [u8]>
    ensures { MatchResult result (λ a. after word.now (fields line.now) ≡ Ok a.now)
        (λ flaw. after word.now (fields line.now) ≡ Err flaw) }
{
    let (first, field) = two(line)?;
    if is_word(first, word) {
        Ok(field)
    } else {
        Err(Flaw::NotSpelled)
    }
}
