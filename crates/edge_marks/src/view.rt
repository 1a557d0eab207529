// What is known of a seat in proofs: its view, which only its own steps change. No value of these types
// is made. In clauses an array is a list of any length.
use atomic_table::TableRule;
use lmt_network::Network;
use std::snapshot::Snapshot;

/// A step of a seat.
pub enum Made {
    /// Of a word, with the value found.
    Load(u64, u64),
    /// The same, where a bit of the word was then set.
    Or(u64, u64),
    /// The same, where the word then rose by one.
    Add(u64, u64),
    /// A seat was split off.
    Fork,
}

/// A load of a mark word in a pass.
pub struct Loaded {
    pub word: u64,
    pub value: u64,
}

/// Where a seat is in a kill.
pub enum Phase {
    Idle,
    /// It has begun to kill this edge.
    Begun(u64),
    /// It has set the bit of this edge.
    Marked(u64),
}

/// Where a seat is in a pass over the edges.
pub enum Pass {
    NoPass,
    /// It has loaded `begun`, with this value.
    AtFirst(u64),
    /// It has loaded `finished` with the same value, and since then these words.
    InPass(u64, [Loaded; 0]),
}

/// What a seat knows.
pub struct Known {
    pub net: Network,
    /// The edges that it has seen killed.
    pub seen: [u64; 0],
    /// The edges that it has killed or found killed in a kill, without repeats.
    pub tried: [u64; 0],
    pub phase: Phase,
    pub pass: Pass,
    /// Whether it has found that the edges that are not killed are the live ones.
    pub settled: bool,
    /// How many seats it may still split off.
    pub splits: u64,
    /// A number that `begun` has reached.
    pub low: u64,
    /// Its steps in their order, but those loads that took a note.
    pub steps: [Made; 0],
    /// The number of its note. Those after it are for the seats that it may split off.
    pub slot: u64,
    /// Whether it has taken its note.
    pub noted: bool,
}

/// What is fixed when the marks are opened.
#[derive(Drop)]
pub struct About {
    pub net: Snapshot<Network>,
    pub seats: u32,
}

/// The rule of the marks: it holds between any two steps of any seats.
pub struct MarksRule;

impl TableRule<u32, Known, About> for MarksRule {
    ghost use Rattle.edge_marks.specs.Rule.{MarksHold, first_view};

    ghost holds = { MarksHold };

    ghost first = { first_view };
}
