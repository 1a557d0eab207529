// The digits of a decimal.
ghost use Rattle.std.specs.Prelude.{◌≡◌, ◌+◌, ◌-◌, ◌*◌, ◌<◌, ◌≤◌, ◌^◌, ◌++◌, ℕ, true, List, length, min};
ghost use Rattle.std.specs.List.{list_all};
ghost use Rattle.mwt_base.specs.Limits.{most_coordinate};
ghost use Rattle.length_enclosure.specs.Number.{is_digit, number};
ghost use Rattle.tsplib_points.specs.Kept.{Holds};

// Above 10^9 a number is kept no further.
const CAP: u64 = 1_000_000_001;

/// `n` times 10^`k` and `d`, up to the cap.
pub fn shifted(n: u64, k: u64, d: u64) -> u64
    requires n_in { n ≤ most_coordinate + 1 }
    requires d_in { d ≤ 9 }
    ensures { result ≡ min (n * 10 ^ k + d) (most_coordinate + 1) }
{
    if n == 0 {
        return d;
    }
    if 9 < k {
        return CAP;
    }
    (n * 10u64.pow(k as u32) + d).min(CAP)
}

/// A whole number: what stands before the zeros at its end, up to the cap, and how many these are.
#[derive(Clone, Copy)]
pub struct Digits {
    pub head: u64,
    pub zeros: u64,
    pub ghost capped: { head ≤ most_coordinate + 1 },
}

impl Digits {
    pub fn zero() -> Digits
        ensures value { Holds result.head result.zeros 0 }
        ensures none { result.zeros ≡ 0 }
    {
        Digits { head: 0, zeros: 0 }
    }

    // Takes one more digit.
    fn push(&mut self, b: u8)
        requires digit { is_digit b ≡ true }
        requires room { self.old.zeros < 2 ^ 63 }
        ensures value { (n : ℕ) → Holds self.old.head self.old.zeros n →
            Holds self.new.head self.new.zeros (10 * n + (b - 48)) }
        ensures zeros { self.new.zeros ≤ self.old.zeros + 1 }
    {
        if b != b'0' {
            self.head = shifted(self.head, self.zeros + 1, u64::from(b - b'0'));
            self.zeros = 0;
        } else if self.head != 0 {
            self.zeros += 1;
        }
    }

    /// Takes more digits, and tells whether all of these bytes are digits.
    pub fn push_all(&mut self, text: &[u8]) -> bool
        requires { self.old.zeros + length text.now < 2 ^ 63 }
        ensures digits { result ≡ list_all is_digit text.now }
        ensures value { result ≡ true → (front : List ℕ) →
            Holds self.old.head self.old.zeros (number front) →
            Holds self.new.head self.new.zeros (number (front ++ text.now)) }
        ensures zeros { self.new.zeros ≤ self.old.zeros + length text.now }
    {
        for b in text {
            if !b.is_ascii_digit() {
                return false;
            }
            self.push(*b);
        }
        true
    }
}
