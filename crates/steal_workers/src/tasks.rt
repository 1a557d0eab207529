// The tasks of a worker: a deque of edges, from whose front other workers steal.
ghost use Rattle.std.specs.Prelude.{◌≡◌, ◌+◌, ◌<◌, All, IfOk, IfSome};
ghost use Rattle.steal_workers.specs.Tasks.{HoldsEdges, above_first};

use crossbeam_deque::protocol::{Outcome, Protocol, Split};
use crossbeam_deque::{Pass, Steal, Stealer, Worker};
use mwt_base::NoMemory;
use std::alloc::Global;
use std::marker::Model;

// The rule of the deque: each task is the number of an edge. What the worker and the thieves know of it is
// how many edges there are.
pub struct EdgeNumbers;

impl Protocol<u32, u64> for EdgeNumbers {
    ghost use Rattle.steal_workers.specs.Tasks.{HoldsEdges};

    ghost holds = { HoldsEdges };

    ghost first = { 0 };

    ghost guest = { 0 };
}

// The last edge is pushed first of all, and shows how many there are.
struct Opens;

impl Outcome<u32, u64> for Opens {
    ghost then = { λ v xs w. w ≡ above_first xs };
}

// An edge comes or leaves.
struct Moves;

impl Outcome<u32, u64> for Moves {
    ghost then = { λ v xs w. (w ≡ v) × All (λ e. e < v) xs };
}

// A thief comes to know as much as the worker.
struct Twin;

impl Split<u64> for Twin {
    ghost left = { λ v. v };

    ghost right = { λ v. v };
}

// The deque of a worker, who pushes and pops at its back.
#[derive(Drop)]
pub struct Tasks {
    deque: Worker<u32, Global, u64, EdgeNumbers>,
}

impl Model for Tasks {
    ghost use Rattle.std.specs.Prelude.{ℕ};
    ghost use Rattle.crossbeam_deque.specs.Handles.{worker_view};

    // How many edges there are.
    ghost Value = { ℕ };

    ghost view = { λ t. worker_view t.deque };
}

impl Tasks {
    // No tasks, which are to be below `edges`, with room for so many.
    pub fn of(alloc: Global, edges: u32, capacity: usize) -> Result<Tasks, NoMemory>
        requires { 0 < edges }
        ensures { IfOk result (λ t. t ≡ edges) }
    {
        let mut deque = Worker::lifo_as(alloc, capacity)?;
        if deque.push_as::<Opens>(edges - 1).is_err() {
            return Err(NoMemory);
        }
        deque.pop_as::<Moves>();
        Ok(Tasks { deque })
    }

    // A further task, which is dropped where memory runs out.
    pub fn push(&mut self, e: u32)
        requires { e < self.old }
        ensures { self.new ≡ self.old }
    {
        let _ = self.deque.push_as::<Moves>(e);
    }

    // The task that was pushed last.
    pub fn pop(&mut self) -> Option<u32>
        ensures same { self.new ≡ self.old }
        ensures below { IfSome result (λ e. e < self.old) }
    {
        self.deque.pop_as::<Moves>()
    }

    // What another worker steals with.
    pub fn lend(&mut self) -> Result<Thief, NoMemory>
        requires { 0 < self.old }
        ensures same { self.new ≡ self.old }
        ensures lent { IfOk result (λ t. t ≡ self.old) }
    {
        let stealer = self.deque.stealer()?;
        let pass = self.deque.another::<Twin>();
        Ok(Thief { stealer, pass })
    }
}

// The end of another worker's deque at which tasks are stolen.
#[derive(Drop)]
pub struct Thief {
    stealer: Stealer<u32, Global, u64, EdgeNumbers>,
    pass: Pass<u32, u64>,
}

impl Model for Thief {
    ghost use Rattle.std.specs.Prelude.{ℕ};
    ghost use Rattle.crossbeam_deque.specs.Handles.{IsPassOf, stealer_deque};

    // How many edges there are.
    ghost Value = { ℕ };

    ghost view = { λ t. t.pass.me.view.client };

    ghost invariant = { λ t. IsPassOf (stealer_deque t.stealer) t.pass };
}

impl Thief {
    // The task at the front, by one try.
    pub fn steal(&mut self) -> Option<u32>
        ensures same { self.new ≡ self.old }
        ensures below { IfSome result (λ e. e < self.old) }
    {
        match self.stealer.steal_as::<Moves>(&mut self.pass) {
            Steal::Success(e) => Some(e),
            Steal::Empty | Steal::Retry => None,
        }
    }
}
