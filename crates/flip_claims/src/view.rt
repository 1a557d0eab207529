// What is known of a seat in proofs: its view, which only its own steps change. No value of these types
// is made. In clauses an array is a list of any length.
use atomic_table::TableRule;
use flip_finish::Mesh;
use std::snapshot::Snapshot;

/// A step of a seat.
pub enum Made {
    /// The word of this triangle became at most this slot, and the value found there was this.
    Min(u64, u64, u64),
    /// A seat was split off.
    Fork,
    /// A seat was joined.
    Join,
}

/// A triangle that was claimed for a slot.
pub struct Claimed {
    pub triangle: u64,
    pub slot: u64,
}

/// What a seat knows.
pub struct Known {
    /// What it has claimed, and what the seats have claimed that were joined with it.
    pub claimed: [Claimed; 0],
    /// How many seats it may still split off.
    pub splits: u64,
    /// How many of the shares it has. The first seat has all of them. A seat that is split off gets one, and
    /// one that is joined gives all that it has.
    pub shares: u64,
    /// Its steps in their order.
    pub steps: [Made; 0],
}

/// What is fixed when the claims are opened.
#[derive(Drop)]
pub struct About {
    pub mesh: Snapshot<Mesh>,
    pub seats: u32,
}

/// The rule of the claims: it holds between any two steps of any seats.
pub struct ClaimRule;

impl TableRule<u32, Known, About> for ClaimRule {
    ghost use Rattle.flip_claims.specs.Rule.{ClaimsHold, first_view};

    ghost holds = { ClaimsHold };

    ghost first = { first_view };
}
