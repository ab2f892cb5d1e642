//! Which members of a list wait, and in which order.
ghost use Rattle.std.specs.Prelude.{◌≡◌, ◌≢◌, ◌||◌, ℕ, ◌<◌, ◌≤◌, ◌^◌, [], ◌∷◌, ◌++◌, nat_eq, true, false, length, slice_set, OnOk, OnErr};
ghost use Rattle.opl_filter.specs.Mentions.{lists};
ghost use Rattle.opl_closure.specs.Waits.{waits, Takes};

use crate::queue;
use opl_domain::OutOfMemory;
use std::alloc::Global;
use std::collections::VecDeque;
use std::marker::Model;

/// For each member, whether it waits. Those who wait are taken in the order in which they were woken.
#[derive(Drop)]
pub struct Waiting {
    flags: Vec<bool>,
    /// Who stands in the queue; who waits does.
    queued: Vec<bool>,
    queue: VecDeque<u32>,
}

impl Model for Waiting {
    ghost use Rattle.std.specs.Prelude.{List, Bool};
    ghost use Rattle.std.specs.VecDeque.{deque_capacity};
    ghost use Rattle.opl_closure.specs.Queues.{IsQueue};

    ghost Value = { List Bool };

    ghost view = { λ w. w.flags.items };

    ghost invariant = { λ w. IsQueue w.flags.items w.queued.items w.queue.items (deque_capacity w.queue) };
}

impl Waiting {
    /// No members.
    pub fn new(alloc: Global) -> Waiting
        ensures { result ≡ [] }
    {
        Waiting {
            flags: Vec::new(alloc),
            queued: Vec::new(alloc),
            queue: VecDeque::new(alloc),
        }
    }

    /// One more member, who waits. Where memory is wanting, all stays as it was.
    pub fn push(&mut self) -> Result<(), OutOfMemory>
        requires { length self.old < 2 ^ 32 }
        ensures ok { OnOk result (self.new ≡ self.old ++ true ∷ []) }
        ensures err { OnErr result (self.new ≡ self.old) }
    {
        let member = self.flags.len();
        self.flags.reserve(1)?;
        self.queued.reserve(1)?;
        self.queue.reserve(member + 1 - self.queue.len())?;
        queue::add(&mut self.flags, &mut self.queued, &mut self.queue);
        Ok(())
    }

    /// Lets member `i` wait.
    pub fn wake(&mut self, i: u32)
        requires { i < length self.old }
        ensures { self.new ≡ slice_set self.old i true }
    {
        queue::wake(
            self.flags.as_mut_slice(),
            self.queued.as_mut_slice(),
            &mut self.queue,
            i,
        );
    }

    /// Lets `i` wait, if there is such a member.
    fn wake_there(&mut self, i: u32)
        ensures long { length self.new ≡ length self.old }
        ensures woken { (j : ℕ) → j < length self.old → waits self.new j ≡ (waits self.old j || nat_eq j i) }
    {
        if i as usize >= self.len() {
            return;
        }
        self.wake(i);
    }

    /// Lets all listed members wait. Numbers that are no members' are passed over.
    pub fn wake_all(&mut self, members: &[u32])
        ensures long { length self.new ≡ length self.old }
        ensures woken { (i : ℕ) → i < length self.old → waits self.new i ≡ (waits self.old i || lists members.now i) }
    {
        for i in members {
            self.wake_there(*i);
        }
    }

    /// Takes a member that waits.
    pub fn take(&mut self) -> Option<u32>
        requires { length self.old < 2 ^ 32 }
        ensures { Takes self.old self.new result }
    {
        queue::take(
            self.flags.as_mut_slice(),
            self.queued.as_mut_slice(),
            &mut self.queue,
        )
    }

    /// Member `i` no longer waits.
    pub fn done(&mut self, i: u32)
        requires { i < length self.old }
        ensures { self.new ≡ slice_set self.old i false }
    {
        self.flags[i as usize] = false;
    }

    /// The number of members.
    pub fn len(&self) -> usize
        ensures { result ≡ length self.now }
    {
        self.flags.len()
    }

    /// Whether member `i` waits.
    pub fn waits(&self, i: u32) -> bool
        requires { i < length self.now }
        ensures { result ≡ waits self.now i }
    {
        self.flags[i as usize]
    }

    /// Whether nobody waits but perhaps the first member. It may answer no where somebody has waited and does no longer.
    pub fn is_calm(&self) -> bool
        requires { 0 < length self.now }
        ensures { result ≡ true → (i : ℕ) → i ≢ 0 → waits self.now i ≡ false }
    {
        self.queue.is_empty() || (self.queue.len() == 1 && self.queued[0])
    }

    /// The first so many members are left, and none of them waits.
    pub fn rest(&mut self, members: u32)
        requires { members ≤ length self.old }
        ensures long { length self.new ≡ members }
        ensures rest { (i : ℕ) → waits self.new i ≡ false }
    {
        queue::clear(
            self.flags.as_mut_slice(),
            self.queued.as_mut_slice(),
            &mut self.queue,
        );
        self.flags.truncate(members as usize);
        self.queued.truncate(members as usize);
    }

    /// Lets everybody wait.
    pub fn wake_everybody(&mut self)
        requires { length self.old < 2 ^ 32 }
        ensures long { length self.new ≡ length self.old }
        ensures woken { (i : ℕ) → i < length self.old → waits self.new i ≡ true }
    {
        for i in 0..self.len() {
            self.wake(i as u32);
        }
    }
}
