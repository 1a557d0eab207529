// Where a worker has its tasks from.
ghost use Rattle.std.specs.Prelude.{◌≡◌, ◌<◌, ◌≤◌, length, Any, IfOk, IfSome};
ghost use Rattle.std.specs.Arc.{arc_value};
ghost use Rattle.steal_workers.specs.Workers.{supply};

use crate::due::Due;
use crate::hand::Hand;
use crate::tasks::{Tasks, Thief};
use mwt_base::NoMemory;
use std::alloc::Global;
use std::marker::Model;
use std::sync::Arc;

// What waits for a worker, its deque of groups of that, the group that it goes through, what it steals from
// the others with, and how many tasks it has stolen.
#[derive(Drop)]
pub struct Supply {
    // The worker's number.
    number: u32,
    due: Arc<Due>,
    // Groups of the worker's row, each by its first edge.
    tasks: Tasks,
    // From the worker with the next number on, round.
    thieves: Vec<Thief>,
    hand: Hand,
    // Whether the worker goes through its row downwards.
    downwards: bool,
    stolen: u64,
}

impl Model for Supply {
    ghost use Rattle.std.specs.Prelude.{◌≡◌, ◌<◌, All};
    ghost use Rattle.std.specs.Arc.{arc_value};
    ghost use Rattle.steal_workers.specs.Workers.{SupplyView, supply};

    ghost Value = { SupplyView };

    ghost view = { λ s. supply s.tasks s.stolen };

    ghost invariant = { λ s. (0 < s.tasks) × (arc_value s.due ≡ s.tasks) × All (λ t. t ≡ s.tasks) s.thieves.items };
}

impl Supply {
    // The supply of the worker with this number, who has no group yet and nobody to steal from.
    pub fn of(alloc: Global, number: u32, due: Arc<Due>) -> Result<Supply, NoMemory>
        ensures { IfOk result (λ s. s ≡ supply (arc_value due) 0) }
    {
        let tasks = Tasks::of(alloc, due.edges(), due.groups() as usize)?;
        Ok(Supply {
            number,
            due,
            tasks,
            thieves: Vec::new(alloc),
            hand: Hand::empty(),
            downwards: true,
            stolen: 0,
        })
    }

    // One more task: the edge waits for the worker to whom it was dealt.
    pub fn push(&mut self, e: u32)
        requires { e < self.old.edges }
        ensures { self.new ≡ self.old }
    {
        self.due.add(e);
    }

    // What another worker steals from this one with.
    pub fn lend(&mut self) -> Result<Thief, NoMemory>
        ensures same { self.new ≡ self.old }
        ensures lent { IfOk result (λ t. t ≡ self.old.edges) }
    {
        self.tasks.lend()
    }

    // One more worker to steal from.
    pub fn meet(&mut self, thief: Thief) -> Result<(), NoMemory>
        requires { thief ≡ self.old.edges }
        ensures { self.new ≡ self.old }
    {
        self.thieves.push(thief)?;
        Ok(())
    }

    // Puts the groups in which an edge waits into the deque, so that they come out upwards and downwards by
    // turns: edges that lose their support one after the other against the way of one sweep lose it at once
    // in the next. First it takes over what waits for workers whose runs have ended. A group for which the
    // deque has no memory is left out.
    pub fn refill(&mut self)
        ensures { self.new ≡ self.old }
    {
        let number = self.number as usize;
        self.due.inherit(number);
        self.downwards = !self.downwards;
        push_groups(&self.due, number, self.downwards, &mut self.tasks);
    }

    // The next task: of the group in hand, or else of another group.
    pub fn next(&mut self) -> Option<u32>
        ensures edges { self.new.edges ≡ self.old.edges }
        ensures stolen { self.old.stolen ≤ self.new.stolen }
        ensures below { IfSome result (λ e. e < self.old.edges) }
    {
        'groups: for _ in 0..=self.due.groups() {
            let downwards = self.downwards;
            if let Some(e) = self.hand.next(downwards) {
                return (e < self.due.edges()).then_some(e);
            }
            if !self.take_group() {
                return None;
            }
        }
        None
    }

    // Takes a group in hand: of the own row, or else one that is stolen. None may be left to take.
    fn take_group(&mut self) -> bool
        ensures edges { self.new.edges ≡ self.old.edges }
        ensures stolen { self.old.stolen ≤ self.new.stolen }
    {
        if let Some(e) = self.own_group() {
            let bits = self.due.take(self.number as usize, e / 64);
            self.hand = Hand::of(e, bits);
            return true;
        }
        let Some((worker, e)) = self.stolen_group() else {
            return false;
        };
        let bits = self.due.take(worker, e / 64);
        self.hand = Hand::of(e, bits);
        self.stolen = self.stolen.saturating_add(u64::from(bits.count_ones()));
        true
    }

    // The group that the deque had first, after a refill where it was empty, by its first edge.
    fn own_group(&mut self) -> Option<u32>
        ensures same { self.new ≡ self.old }
        ensures below { IfSome result (λ e. e < self.old.edges) }
    {
        if let Some(e) = self.tasks.pop() {
            return Some(e);
        }
        self.refill();
        self.tasks.pop()
    }

    // A group that one try from each other worker gives, by the worker and its first edge.
    fn stolen_group(&mut self) -> Option<(usize, u32)>
        ensures same { self.new ≡ self.old }
        ensures below { IfSome result (λ t. t.1 < self.old.edges) }
    {
        let (k, e) = stolen_from(self.thieves.as_mut_slice())?;
        let workers = self.thieves.len() + 1;
        Some(((self.number as usize + 1 + k) % workers, e))
    }

    // How many tasks were stolen, or 2^64 - 1 where there were more.
    pub fn stolen(&self) -> u64
        ensures { result ≡ self.now.stolen }
    {
        self.stolen
    }

    // The worker's run begins: what waits for it is its own.
    pub fn begin(&mut self)
        ensures { self.new ≡ self.old }
    {
        self.due.begin(self.number as usize);
    }

    // The worker's run has ended: others take over what waits for it.
    pub fn end(&mut self)
        ensures { self.new ≡ self.old }
    {
        self.due.end(self.number as usize);
    }
}

// Pushes the groups in which an edge waits for the worker, so that the greatest comes out first, or the least.
fn push_groups(due: &Due, worker: usize, downwards: bool, tasks: &mut Tasks)
    requires { due.now ≡ tasks.old }
    ensures { tasks.new ≡ tasks.old }
{
    let groups = due.groups();
    for k in 0..groups {
        let group = pushed_at(k, groups, downwards);
        if due.has(worker, group) {
            tasks.push(64 * group);
        }
    }
}

// Which of so many groups is the k-th to be pushed, since what is pushed last comes out first.
fn pushed_at(k: u32, groups: u32, downwards: bool) -> u32
    requires { k < groups }
    ensures { result < groups }
{
    if downwards { k } else { groups - 1 - k }
}

// The first task that one try from each gives, and from which.
fn stolen_from(thieves: &mut [Thief]) -> Option<(usize, u32)>
    ensures same { thieves.new ≡ thieves.old }
    ensures place { IfSome result (λ t. t.0 < length thieves.old) }
    ensures below { IfSome result (λ t. Any (λ edges. t.1 < edges) thieves.old) }
{
    for k in 0..thieves.len() {
        if let Some(e) = thieves[k].steal() {
            return Some((k, e));
        }
    }
    None
}
