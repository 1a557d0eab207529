// One truth value for each edge.
ghost use Rattle.std.specs.Prelude.{◌≡◌, ◌<◌, true, false, length, replicate, count_by, IfOk, slice_index_or, slice_set};

use mwt_base::NoMemory;
use std::alloc::Global;
use std::marker::Model;

/// Which edges of a network are live: one truth value for each edge, by its number.
#[derive(Drop)]
pub struct Flags {
    pub(crate) live: Vec<bool>,
    // Of each edge, whether plain elimination is still to try it. It has a meaning only during a call
    // of `plain_settle`, and stands here so that the call takes no memory.
    pub(crate) due: Vec<bool>,
}

impl Model for Flags {
    ghost use Rattle.std.specs.Prelude.{List, Bool, ◌≡◌, ◌<◌, ◌^◌, length};

    ghost Value = { List Bool };

    ghost view = { λ f. f.live.items };

    ghost invariant = { λ f. (length f.live.items < 2 ^ 32) × (length f.due.items ≡ length f.live.items) };
}

impl Flags {
    /// Flags for so many edges, all of them live.
    pub fn all(alloc: Global, edges: u32) -> Result<Flags, NoMemory>
        ensures { IfOk result (λ flags. flags ≡ replicate edges true) }
    {
        let live = Vec::from_elem(alloc, true, edges as usize)?;
        let due = Vec::from_elem(alloc, true, edges as usize)?;
        Ok(Flags { live, due })
    }

    /// How many edges there are, live or not.
    pub fn len(&self) -> u32
        ensures { result ≡ length self.now }
    {
        self.live.len() as u32
    }

    /// Whether the edge is live.
    pub fn live(&self, e: u32) -> bool
        requires { e < length self.now }
        ensures { result ≡ slice_index_or self.now e false }
    {
        self.live[e as usize]
    }

    /// How many edges are live.
    pub fn count(&self) -> u32
        ensures { result ≡ count_by (λ live. live) self.now }
    {
        self.live.iter().filter(|live| **live).count() as u32
    }

    /// Makes the edge not live. Takes no memory.
    pub fn drop_edge(&mut self, e: u32)
        requires { e < length self.old }
        ensures { self.new ≡ slice_set self.old e false }
    {
        self.live[e as usize] = false;
    }
}
