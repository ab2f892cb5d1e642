//! For each variable, the members that watch it.
ghost use Rattle.std.specs.Prelude.{◌≡◌, ◌||◌, ℕ, ◌<◌, [], true, length, replicate, IfOk, OnOk};
ghost use Rattle.opl_filter.specs.Mentions.{lists};
ghost use Rattle.opl_closure.specs.Waits.{waits, watches};
ghost use Rattle.opl_closure.specs.Watching.{HaveLists, KeepsBefore};

use crate::waiting::Waiting;
use opl_domain::OutOfMemory;
use std::alloc::Global;
use std::marker::Model;

/// For each variable a list of the members that watch it. Nobody is taken from a list as long as it doesn't grow: who is there
/// no longer is passed over, and goes when a member before them is added.
#[derive(Drop)]
pub struct Watchers {
    lists: Vec<Vec<u32>>,
}

impl Model for Watchers {
    ghost use Rattle.std.specs.Prelude.{List, ℕ, map};

    ghost Value = { List (List ℕ) };

    ghost view = { λ w. map (λ v. v.items) w.lists.items };
}

/// Lets go of those at the end of a list who don't come before `i`.
fn pop_from(list: &mut Vec<u32>, i: u32)
    ensures { (j : ℕ) → j < i → lists list.old.items j ≡ true → lists list.new.items j ≡ true }
{
    while let Some(last) = list.last() {
        if *last < i {
            return;
        }
        list.pop();
    }
}

/// Puts `i` at the end of a list, in place of all who stand there and don't come before it.
fn put(list: &mut Vec<u32>, i: u32) -> Result<(), OutOfMemory>
    ensures kept { (j : ℕ) → j < i → lists list.old.items j ≡ true → lists list.new.items j ≡ true }
    ensures ok { OnOk result (lists list.new.items i ≡ true) }
{
    pop_from(list, i);
    list.push(i)?;
    Ok(())
}

impl Watchers {
    /// So many variables, which nobody watches.
    pub fn new(alloc: Global, variables: u32) -> Result<Watchers, OutOfMemory>
        ensures { IfOk result (λ w. w ≡ replicate variables []) }
    {
        let mut lists = Vec::new(alloc);
        for _x in 0..variables {
            lists.push(Vec::new(alloc))?;
        }
        Ok(Watchers { lists })
    }

    /// Lets all members wait that watch `x`.
    pub fn wake(&self, x: u32, waiting: &mut Waiting)
        ensures long { length waiting.new ≡ length waiting.old }
        ensures woken { (i : ℕ) → i < length waiting.old → waits waiting.new i ≡ (waits waiting.old i || watches self.now i x) }
    {
        if let Some(members) = self.lists.get(x as usize) {
            waiting.wake_all(members.as_slice());
        }
    }

    /// Lets member `i` watch these variables. Members before it go on watching what they watched.
    pub fn add(&mut self, variables: &[u32], i: u32) -> Result<(), OutOfMemory>
        requires { HaveLists variables.now self.old }
        ensures long { length self.new ≡ length self.old }
        ensures kept { KeepsBefore i self.old self.new }
        ensures ok { OnOk result ((x : ℕ) → lists variables.now x ≡ true → watches self.new i x ≡ true) }
    {
        for x in variables {
            put(&mut self.lists[*x as usize], i)?;
        }
        Ok(())
    }
}
