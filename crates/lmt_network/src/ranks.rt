// A rank for each edge.
ghost use Rattle.std.specs.Prelude.{◌≡◌, ◌<◌, ◌^◌, length, slice_index, slice_set};

use std::marker::Model;

/// One rank for each edge of a network, by its number: 0 for an edge that is live, and more for one that
/// an elimination has killed.
#[derive(Drop)]
pub struct Ranks {
    ranks: Vec<u64>,
}

impl Model for Ranks {
    ghost use Rattle.std.specs.Prelude.{List, ℕ, ◌<◌, ◌^◌, length};

    ghost Value = { List ℕ };

    ghost view = { λ r. r.ranks.items };

    ghost invariant = { λ r. length r.ranks.items < 2 ^ 32 };
}

impl Ranks {
    /// These ranks, each at the number of its edge.
    pub fn of(ranks: Vec<u64>) -> Ranks
        requires { length ranks.items < 2 ^ 32 }
        ensures { result ≡ ranks.items }
    {
        Ranks { ranks }
    }

    /// How many edges have a rank, 0 or more.
    pub fn len(&self) -> u32
        ensures { result ≡ length self.now }
    {
        self.ranks.len() as u32
    }

    /// The rank of the edge.
    pub fn get(&self, e: u32) -> u64
        requires { e < length self.now }
        ensures { result ≡ slice_index self.now e }
    {
        self.ranks[e as usize]
    }

    /// Sets the rank of the edge, and keeps each other. Takes no memory.
    pub fn set(&mut self, e: u32, rank: u64)
        requires { e < length self.old }
        ensures { self.new ≡ slice_set self.old e rank }
    {
        self.ranks[e as usize] = rank;
    }
}
