// Which edges wait to be examined: a row for each worker, with a bit for each edge, which the workers of a
// team share. No answer depends on them, since a pass finds each edge without a support.
ghost use Rattle.std.specs.Prelude.{◌≡◌, ◌+◌, ◌-◌, ◌/◌, ◌^◌, ◌<◌, IfOk};

use crate::dealing::Dealing;
use std::alloc::{AllocError, Global};
use std::marker::Model;
use std::sync::atomic::{AtomicU64, Ordering};

// The edges that wait for one worker, 64 to a word. Those of a word are a group.
#[derive(Drop)]
struct Row {
    words: Vec<AtomicU64>,
}

impl Row {
    // So many groups, in which no edge waits.
    fn of(alloc: Global, groups: usize) -> Result<Row, AllocError> {
        let mut words = Vec::with_capacity(alloc, groups)?;
        for _ in 0..groups {
            words.push(AtomicU64::new(0))?;
        }
        Ok(Row { words })
    }

    // The edge waits from now on, if it does not already.
    fn add(&self, e: u32) {
        let bit = 1u64 << (e % 64);
        if let Some(word) = self.words.get((e / 64) as usize) {
            if word.load(Ordering::SeqCst) & bit == 0 {
                word.fetch_or(bit, Ordering::SeqCst);
            }
        }
    }

    // Whether an edge of the group waits.
    fn has(&self, group: u32) -> bool {
        match self.words.get(group as usize) {
            Some(word) => word.load(Ordering::SeqCst) != 0,
            None => false,
        }
    }

    // Takes the edges of the group that wait, as the bits of a word.
    fn take(&self, group: u32) -> u64 {
        match self.words.get(group as usize) {
            Some(word) => word.swap(0, Ordering::SeqCst),
            None => 0,
        }
    }

    // Lets all that waits here wait in the other row.
    fn give(&self, other: &Row) {
        for (from, to) in self.words.iter().zip(other.words.iter()) {
            if from.load(Ordering::SeqCst) != 0 {
                to.fetch_or(from.swap(0, Ordering::SeqCst), Ordering::SeqCst);
            }
        }
    }
}

// The rows of a team.
#[derive(Drop)]
pub struct Due {
    edges: u32,
    workers: u32,
    dealing: Dealing,
    // In the order of the workers' numbers.
    rows: Vec<Row>,
    // A bit for each worker whose run has ended.
    ended: AtomicU64,
}

impl Model for Due {
    ghost use Rattle.std.specs.Prelude.{ℕ, ◌<◌};

    // How many edges there are.
    ghost Value = { ℕ };

    ghost view = { λ d. d.edges };

    ghost invariant = { λ d. (0 < d.edges) × (0 < d.workers) };
}

impl Due {
    // Each edge waits for the worker to whom it is dealt.
    pub fn dealt(
        alloc: Global,
        edges: u32,
        workers: u32,
        dealing: Dealing,
    ) -> Result<Due, AllocError>
        requires some_edges { 0 < edges }
        requires some_workers { 0 < workers }
        ensures { IfOk result (λ d. d ≡ edges) }
    {
        let mut rows = Vec::with_capacity(alloc, workers as usize)?;
        for _ in 0..workers {
            rows.push(Row::of(alloc, ((edges - 1) / 64) as usize + 1)?)?;
        }
        let due = Due {
            edges,
            workers,
            dealing,
            rows,
            ended: AtomicU64::new(0),
        };
        for e in 0..edges {
            due.add(e);
        }
        Ok(due)
    }

    // How many edges there are.
    pub fn edges(&self) -> u32
        ensures value { result ≡ self.now }
        ensures some { 0 < result }
    {
        self.edges
    }

    // How many groups a row has.
    pub fn groups(&self) -> u32
        ensures value { result ≡ (self.now - 1) / 64 + 1 }
        ensures some_edges { 0 < self.now }
        ensures few_edges { self.now < 2 ^ 32 }
    {
        (self.edges - 1) / 64 + 1
    }

    // The edge waits for the worker to whom it was dealt.
    pub fn add(&self, e: u32)
        requires { e < self.now }
    {
        let worker = self.dealing.worker(e, self.edges, self.workers);
        if let Some(row) = self.rows.get(worker as usize) {
            row.add(e);
        }
    }

    // Whether an edge of the group waits for the worker.
    pub fn has(&self, worker: usize, group: u32) -> bool {
        match self.rows.get(worker) {
            Some(row) => row.has(group),
            None => false,
        }
    }

    // Takes the edges of the group that wait for the worker, as the bits of a word.
    pub fn take(&self, worker: usize, group: u32) -> u64 {
        match self.rows.get(worker) {
            Some(row) => row.take(group),
            None => 0,
        }
    }

    // What waits for workers whose runs have ended waits for this one.
    pub fn inherit(&self, heir: usize) {
        let ended = self.ended.load(Ordering::SeqCst);
        let Some(own) = self.rows.get(heir) else {
            return;
        };
        for (worker, row) in self.rows.iter().enumerate() {
            if worker != heir && ended >> (worker % 64) & 1 == 1 {
                row.give(own);
            }
        }
    }

    // The worker's run begins.
    pub fn begin(&self, worker: usize) {
        self.ended
            .fetch_and(!(1u64 << (worker % 64)), Ordering::SeqCst);
    }

    // The worker's run has ended.
    pub fn end(&self, worker: usize) {
        self.ended.fetch_or(1u64 << (worker % 64), Ordering::SeqCst);
    }
}
