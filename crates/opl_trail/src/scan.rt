//! The places of a trail's words, 64 in a word: which are left, and letting some go. A place has gone where its bit is on.
ghost use Rattle.std.specs.Prelude.{◌≡◌, ℕ, ◌⊎◌, ◌↔◌, slice_index, slice_set, bit_or, ◌+◌, ◌-◌, ◌*◌, ◌/◌, ◌<◌, ◌≤◌, ◌^◌, true, false, length};
ghost use Rattle.std.specs.Int.{bit_at};
ghost use Rattle.opl_trail.specs.Gone.{is_gone, IsFirstLeft, IsLastLeft, count_left, GoBetween, ChangesWhereLeft, IsMask, HasOff};

use crate::trail::Trail;

/// The first place from `from` on that is left. One up to `last` must be.
#[inline]
pub fn first_left(trail: &Trail, from: usize, last: usize) -> usize
    requires order { from ≤ last }
    requires within { last < 64 * length trail.now.top }
    requires small { length trail.now.top < 2 ^ 32 }
    requires is_left { is_gone trail.now.top last ≡ false }
    ensures { IsFirstLeft trail.now.top from result }
{
    let mut place = from / 64;
    let mut left = !trail.word(place as u32) & (u64::MAX << (from % 64));
    while left == 0 {
        place += 1;
        left = !trail.word(place as u32);
    }
    place * 64 + left.trailing_zeros() as usize
}

/// The last place up to `to` that is left. One from `first` on must be.
#[inline]
pub fn last_left(trail: &Trail, first: usize, to: usize) -> usize
    requires order { first ≤ to }
    requires within { to < 64 * length trail.now.top }
    requires small { length trail.now.top < 2 ^ 32 }
    requires is_left { is_gone trail.now.top first ≡ false }
    ensures { IsLastLeft trail.now.top to result }
{
    let mut place = to / 64;
    let mut left = !trail.word(place as u32) & (u64::MAX >> (63 - to % 64));
    while left == 0 {
        place -= 1;
        left = !trail.word(place as u32);
    }
    place * 64 + (63 - left.leading_zeros() as usize)
}

/// The first bit of the word at `place` whose place is at least `first`.
#[inline]
fn low_bit(place: usize, first: usize) -> usize
    requires { first / 64 ≤ place }
    ensures low { result < 64 }
    ensures bits { (i : ℕ) → i < 64 → (result ≤ i) ↔ (first ≤ place * 64 + i) }
{
    if place == first / 64 { first % 64 } else { 0 }
}

/// The last bit of the word at `place` whose place is at most `last`.
#[inline]
fn high_bit(place: usize, last: usize) -> usize
    requires { place ≤ last / 64 }
    ensures high { result < 64 }
    ensures bits { (i : ℕ) → i < 64 → (i ≤ result) ↔ (place * 64 + i ≤ last) }
{
    if place == last / 64 { last % 64 } else { 63 }
}

/// The bits of the word at `place` whose places lie from `first` to `last`.
#[inline]
fn mask(place: usize, first: usize, last: usize) -> u64
    requires { (first / 64 ≤ place) × (place ≤ last / 64) }
    ensures { IsMask place first last result }
{
    (u64::MAX << low_bit(place, first)) & (u64::MAX >> (63 - high_bit(place, last)))
}

/// How many of the places from `first` to `last` are left.
pub fn count_left(trail: &Trail, first: usize, last: usize) -> usize
    requires order { first ≤ last }
    requires within { last < 64 * length trail.now.top }
    requires small { length trail.now.top < 2 ^ 32 }
    ensures { result ≡ count_left trail.now.top first (last + 1 - first) }
{
    let mut count = 0;
    for place in first / 64..last / 64 + 1 {
        let left = !trail.word(place as u32) & mask(place, first, last);
        count += left.count_ones() as usize;
    }
    count
}

/// Turns the bits of a mask on.
#[inline]
fn turn_on(trail: &mut Trail, place: u32, mask: u64)
    requires { place < length trail.old.top }
    ensures word { trail.new ≡ record trail.old { top = slice_set trail.old.top place (bit_or (slice_index trail.old.top place) mask) } }
    ensures change { (bit_or (slice_index trail.old.top place) mask ≡ slice_index trail.old.top place) ⊎ HasOff (slice_index trail.old.top place) mask }
{
    let before = trail.word(place);
    let word = before | mask;
    if word == before {
        return;
    }
    trail.raise(place, word);
}

/// Lets the places from `first` to `last` go. It takes no memory.
#[inline]
pub fn let_go(trail: &mut Trail, first: usize, last: usize)
    requires order { first ≤ last }
    requires within { last < 64 * length trail.old.top }
    requires small { length trail.old.top < 2 ^ 32 }
    ensures below { trail.new.below ≡ trail.old.below }
    ensures long { length trail.new.top ≡ length trail.old.top }
    ensures gone { GoBetween trail.old.top trail.new.top first last }
    ensures changes { ChangesWhereLeft trail.old.top trail.new.top first last }
    ensures others { (k : ℕ) → (k < first / 64) ⊎ (last / 64 < k) → slice_index trail.new.top k ≡ slice_index trail.old.top k }
{
    for place in first / 64..last / 64 + 1 {
        turn_on(trail, place as u32, mask(place, first, last));
    }
}
