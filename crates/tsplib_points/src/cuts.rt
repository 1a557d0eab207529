// How a text is cut.
ghost use Rattle.std.specs.Prelude.{◌≡◌, ◌-◌, ◌<◌, ◌≤◌, ◌==◌, ℕ, Bool, length, position};
ghost use Rattle.std.specs.Option.{ForSome};
ghost use Rattle.std.specs.List.{before_first, after_first};
ghost use Rattle.tsplib_points.specs.Lines.{is_blank, trim_front, trim_back, trim};
ghost use Rattle.tsplib_points.specs.Real.{is_power};

pub fn is_blank(b: u8) -> bool
    ensures { result ≡ is_blank b }
{
    b == b' ' || b == b'\t'
}

// Where a byte comes first.
pub fn position_of(text: &[u8], byte: u8) -> Option<usize>
    ensures first { result ≡ position (λ b. b == byte) text.now }
    ensures within { ForSome result (λ n. n < length text.now) }
{
    text.iter().position(|b| *b == byte)
}

// Where a blank comes first.
pub fn position_of_blank(text: &[u8]) -> Option<usize>
    ensures first { result ≡ position is_blank text.now }
    ensures within { ForSome result (λ n. n < length text.now) }
{
    text.iter().position(|b| is_blank(*b))
}

// Where `e` or `E` comes first.
pub fn position_of_power(text: &[u8]) -> Option<usize>
    ensures first { result ≡ position is_power text.now }
    ensures within { ForSome result (λ n. n < length text.now) }
{
    text.iter().position(|b| *b == b'e' || *b == b'E')
}

// What stands before a place, or all where there is none, and what stands after it.
pub fn cut_at(text: &[u8], place: Option<usize>) -> (&[u8], &[u8])
    requires { ForSome place (λ n. n < length text.now) }
    ensures before { (p : ℕ → Bool) → place ≡ position p text.now →
        result.0.now ≡ before_first p text.now }
    ensures behind { (p : ℕ → Bool) → place ≡ position p text.now →
        result.1.now ≡ after_first p text.now }
    ensures len { length result.0.now ≤ length text.now }
    ensures rest { length result.1.now ≤ length text.now - 1 }
{
    match place {
        Some(n) => (&text[..n], &text[n + 1..]),
        None => (text, &[]),
    }
}

#[tactic(auto, unfolding(crate::specs::Lines::trim_front))]
pub fn trim_front(text: &[u8]) -> &[u8]
    ensures trimmed { result.now ≡ trim_front text.now }
    ensures len { length result.now ≤ length text.now }
{
    let mut n = 0;
    while n < text.len() && is_blank(text[n]) {
        n += 1;
    }
    &text[n..]
}

#[tactic(auto, unfolding(crate::specs::Lines::trim_back))]
fn trim_back(text: &[u8]) -> &[u8]
    ensures { result.now ≡ trim_back text.now }
{
    let mut n = text.len();
    while 0 < n && is_blank(text[n - 1]) {
        n -= 1;
    }
    &text[..n]
}

// The text without the blanks at its two ends.
#[tactic(auto, unfolding(crate::specs::Lines::trim))]
pub fn trim(text: &[u8]) -> &[u8]
    ensures { result.now ≡ trim text.now }
{
    trim_back(trim_front(text))
}
