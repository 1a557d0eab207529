// Whole numbers from text.
ghost use Rattle.std.specs.Prelude.{◌≡◌, ◌^◌, ◌≤◌, true, false, min, IfSome, MatchOption};
ghost use Rattle.std.specs.List.{list_all};
ghost use Rattle.length_enclosure.specs.Number.{is_digit, has_leading_zero, is_number, number};

fn has_leading_zero(text: &[u8]) -> bool
    ensures { result ≡ has_leading_zero text.now }
{
    1 < text.len() && text[0] == b'0'
}

/// The number that digits spell, or the cap where it is above that; nothing where one is no digit.
pub fn digits_up_to(text: &[u8], cap: u128) -> Option<u128>
    requires { cap ≤ 2 ^ 100 }
    ensures digits { MatchOption result (list_all is_digit text.now ≡ false) (λ _. list_all is_digit text.now ≡ true) }
    ensures value { IfSome result (λ n. n ≡ min (number text.now) cap) }
{
    let mut n: u128 = 0;
    for b in text {
        if !b.is_ascii_digit() {
            return None;
        }
        n = (10 * n + u128::from(*b - b'0')).min(cap);
    }
    Some(n)
}

/// The number that a text spells, or the cap where it is above that; nothing where the text is no number.
#[tactic(auto, unfolding(crate::specs::Number::is_number))]
pub fn number_up_to(text: &[u8], cap: u128) -> Option<u128>
    requires { cap ≤ 2 ^ 100 }
    ensures digits { MatchOption result (is_number text.now ≡ false) (λ _. is_number text.now ≡ true) }
    ensures value { IfSome result (λ n. n ≡ min (number text.now) cap) }
{
    if text.is_empty() || has_leading_zero(text) {
        return None;
    }
    digits_up_to(text, cap)
}
