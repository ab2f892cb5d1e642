//! A queue of members. Who no longer waits may still stand in it, and is passed over when it comes to the front.
ghost use Rattle.std.specs.Prelude.{◌≡◌, ℕ, ◌+◌, ◌<◌, ◌≤◌, ◌^◌, [], ◌∷◌, ◌++◌, true, false, length, slice_set};
ghost use Rattle.std.specs.Vec.{vec_len, vec_capacity};
ghost use Rattle.std.specs.VecDeque.{deque_capacity};
ghost use Rattle.opl_closure.specs.Waits.{waits, Takes};
ghost use Rattle.opl_closure.specs.Queues.{IsQueue};

use std::collections::VecDeque;

/// One more member, who waits. There must be room.
pub fn add(flags: &mut Vec<bool>, queued: &mut Vec<bool>, queue: &mut VecDeque<u32>)
    requires few { vec_len flags.old < 2 ^ 32 }
    requires flags { vec_len flags.old < vec_capacity flags.old }
    requires queued { vec_len queued.old < vec_capacity queued.old }
    requires room { vec_len flags.old < deque_capacity queue.old }
    requires queue { IsQueue flags.old.items queued.old.items queue.old.items (deque_capacity queue.old) }
    ensures flags { flags.new.items ≡ flags.old.items ++ true ∷ [] }
    ensures queue { IsQueue flags.new.items queued.new.items queue.new.items (deque_capacity queue.new) }
{
    let member = flags.len() as u32;
    flags.push_reserved(true);
    queued.push_reserved(true);
    queue.push_back_reserved(member);
}

/// Lets member `i` wait, behind those who wait already.
pub fn wake(flags: &mut [bool], queued: &mut [bool], queue: &mut VecDeque<u32>, i: u32)
    requires member { i < length flags.old }
    requires queue { IsQueue flags.old queued.old queue.old.items (deque_capacity queue.old) }
    ensures flags { flags.new ≡ slice_set flags.old i true }
    ensures queue { IsQueue flags.new queued.new queue.new.items (deque_capacity queue.new) }
{
    flags[i as usize] = true;
    if queued[i as usize] {
        return;
    }
    queued[i as usize] = true;
    queue.push_back_reserved(i);
}

/// Takes the first of those who wait.
pub fn take(flags: &mut [bool], queued: &mut [bool], queue: &mut VecDeque<u32>) -> Option<u32>
    requires { IsQueue flags.old queued.old queue.old.items (deque_capacity queue.old) }
    ensures takes { Takes flags.old flags.new result }
    ensures queue { IsQueue flags.new queued.new queue.new.items (deque_capacity queue.new) }
{
    while let Some(i) = queue.pop_front() {
        queued[i as usize] = false;
        if flags[i as usize] {
            flags[i as usize] = false;
            return Some(i);
        }
    }
    None
}

/// Lets nobody wait.
pub fn clear(flags: &mut [bool], queued: &mut [bool], queue: &mut VecDeque<u32>)
    requires { IsQueue flags.old queued.old queue.old.items (deque_capacity queue.old) }
    ensures rest { (i : ℕ) → waits flags.new i ≡ false }
    ensures same { length flags.new ≡ length flags.old }
    ensures queue { IsQueue flags.new queued.new queue.new.items (deque_capacity queue.new) }
    ensures empty { length queue.new.items ≡ 0 }
{
    while let Some(i) = queue.pop_front() {
        queued[i as usize] = false;
        flags[i as usize] = false;
    }
}
