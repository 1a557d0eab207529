// What the calls answer.
ghost use Rattle.std.specs.Prelude.{◌≡◌};
ghost use Rattle.edge_marks.specs.Answers.{look_of, kill_of};
ghost use Rattle.mark_seats.specs.Bits.{bit_in};

use mark_seats::edge_bit;

/// What a load of an edge's bit gave.
#[derive(Clone, Copy, Debug, PartialEq, Eq)]
pub enum Look {
    Live,
    Killed,
}

/// Whether this call killed the edge, or another seat had killed it before.
#[derive(Clone, Copy, Debug, PartialEq, Eq)]
pub enum Kill {
    First,
    Already,
}

/// Whether an edge has a support.
#[derive(Clone, Copy, Debug, PartialEq, Eq)]
pub enum Found {
    /// The triangles on its left and on its right, by their numbers.
    Supported(u32, u32),
    Unsupported,
}

/// What a pass over the edges found.
#[derive(Clone, Copy, Debug, PartialEq, Eq)]
pub enum Settle {
    /// The edges that are not killed are the live ones.
    Quiet,
    /// This edge was live and has no support.
    Lone(u32),
    /// Kills have begun since the pass did.
    Moved { before: u64, after: u64 },
    /// Kills were under way.
    InFlight { begun: u64, finished: u64 },
}

impl Look {
    // What the value of the edge's word says.
    pub(crate) fn of(word: u64, e: u32) -> Look
        ensures { result ≡ look_of (bit_in word e) }
    {
        if edge_bit(word, e) == 0 {
            Look::Live
        } else {
            Look::Killed
        }
    }
}

impl Kill {
    // What the value of the edge's word says that was found when its bit was set.
    pub(crate) fn of(word: u64, e: u32) -> Kill
        ensures { result ≡ kill_of (bit_in word e) }
    {
        if edge_bit(word, e) == 0 {
            Kill::First
        } else {
            Kill::Already
        }
    }
}
