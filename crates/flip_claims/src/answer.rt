// What a claim answers.
ghost use Rattle.std.specs.Prelude.{◌≡◌, min};
ghost use Rattle.flip_claims.specs.Answers.{claim_of};

/// What became of a claim when it was made. A smaller slot may still take a triangle later.
#[derive(Clone, Copy, Debug, PartialEq, Eq)]
pub enum Claim {
    /// No smaller slot had claimed either triangle.
    Held,
    /// This smaller slot had claimed one of them. Where two had, it is the lesser.
    Lost(u32),
}

impl Claim {
    // The answer to a claim for the slot that found these two words.
    pub(crate) fn of(slot: u32, first: u64, second: u64) -> Claim
        ensures { result ≡ claim_of slot first second }
    {
        let least = first.min(second);
        if least < u64::from(slot) {
            Claim::Lost(least as u32)
        } else {
            Claim::Held
        }
    }
}
