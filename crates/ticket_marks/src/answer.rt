// What the calls answer.
ghost use Rattle.std.specs.Prelude.{◌≡◌, ◌+◌, ◌<◌, ◌^◌};
ghost use Rattle.ticket_marks.specs.Answers.{rank_of, kill_of};

/// What a load of an edge's mark gave.
#[derive(Clone, Copy, Debug, PartialEq, Eq)]
pub enum Rank {
    Live,
    /// The rank of the edge, above 0.
    Killed(u64),
}

/// What became of a kill, with the rank that the edge has.
#[derive(Clone, Copy, Debug, PartialEq, Eq)]
pub enum TicketKill {
    /// This call killed the edge. Its rank is one above the ticket that the call drew.
    First(u64),
    /// Another seat had killed it before.
    Already(u64),
}

/// Whether an edge has a support.
#[derive(Clone, Copy, Debug, PartialEq, Eq)]
pub enum TicketFound {
    /// The triangles on its left and on its right, by their numbers.
    Supported(u32, u32),
    Unsupported,
}

impl Rank {
    // What the mark says.
    pub(crate) fn of(mark: u64) -> Rank
        ensures { result ≡ rank_of mark }
    {
        if mark == 0 {
            Rank::Live
        } else {
            Rank::Killed(mark)
        }
    }
}

impl TicketKill {
    // What the mark says that was found when the rank one above the ticket was to be stored.
    pub(crate) fn of(ticket: u64, mark: u64) -> TicketKill
        requires { ticket + 1 < 2 ^ 64 }
        ensures { result ≡ kill_of ticket mark }
    {
        if mark == 0 {
            TicketKill::First(ticket + 1)
        } else {
            TicketKill::Already(mark)
        }
    }
}
