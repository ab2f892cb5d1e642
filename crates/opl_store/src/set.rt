//! The set of one variable, in a trail's words.
ghost use Rattle.std.specs.Prelude.{◌≡◌, ◌≢◌, ℕ, ℤ, ◌+◌, ◌-◌, ◌*◌, ◌/◌, ◌<◌, ◌≤◌, ◌^◌, ◌+ℤ◌, ◌≤ℤ◌, ◌<ℤ◌, pos, true, false, cond, length, slice_index};
ghost use Rattle.opl_domain.specs.Family.{member, outside, IsLeast, IsGreatest, IsNext};
ghost use Rattle.opl_trail.specs.Gone.{is_gone};
ghost use Rattle.opl_store.specs.Stored.{low_gone, high_gone, set_in, IsReady, PlaceOf, TouchesOnly, Narrows};

use crate::shape::Shape;
use opl_trail::{Trail, count_left, first_left, last_left, let_go};

/// How many values have gone at the low end.
#[inline(always)]
fn low_gone(ends: u64) -> u32
    ensures { result ≡ low_gone ends }
{
    (ends % (1 << 32)) as u32
}

/// How many values have gone at the high end.
#[inline(always)]
fn high_gone(ends: u64) -> u32
    ensures { result ≡ high_gone ends }
{
    (ends / (1 << 32)) as u32
}

/// Both in one word.
#[inline(always)]
fn ends(low: u32, high: u32) -> u64
    ensures low { low_gone result ≡ low }
    ensures high { high_gone result ≡ high }
    ensures value { result ≡ high * 2 ^ 32 + low }
{
    high as u64 * (1 << 32) + low as u64
}

/// The place of a declared value.
#[inline(always)]
fn place_of(shape: Shape, v: i64) -> usize
    requires low { shape.least ≤ℤ v }
    requires high { v <ℤ (shape.least +ℤ pos shape.size) }
    requires fits { shape.size ≤ 2 ^ 20 }
    ensures { PlaceOf shape v result }
{
    shape.first as usize * 64 + (v - shape.least) as usize
}

/// The value at a place.
#[inline(always)]
fn value_at(shape: Shape, place: usize) -> i64
    requires low { shape.first * 64 ≤ place }
    requires high { place < shape.first * 64 + shape.size }
    requires fits { (shape.least +ℤ pos shape.size) ≤ℤ pos (2 ^ 63) }
    requires few { shape.size ≤ 2 ^ 20 }
    ensures { PlaceOf shape result place }
{
    shape.least + (place - shape.first as usize * 64) as i64
}

/// The least value.
#[inline(always)]
pub fn min(trail: &Trail, x: u32, shape: Shape) -> i64
    requires { IsReady trail.now.top x shape }
    ensures { IsLeast (set_in trail.now.top x shape) result }
{
    let low = low_gone(trail.word(x)) as usize;
    value_at(shape, shape.first as usize * 64 + low)
}

/// The greatest value.
#[inline(always)]
pub fn max(trail: &Trail, x: u32, shape: Shape) -> i64
    requires { IsReady trail.now.top x shape }
    ensures { IsGreatest (set_in trail.now.top x shape) result }
{
    let high = (shape.size - 1 - high_gone(trail.word(x))) as usize;
    value_at(shape, shape.first as usize * 64 + high)
}

/// The number of values, counted by words.
pub fn size(trail: &Trail, x: u32, shape: Shape) -> u32
    requires { IsReady trail.now.top x shape }
    ensures { result ≡ length (set_in trail.now.top x shape) }
{
    let ends = trail.word(x);
    let start = shape.first as usize * 64;
    let low = start + low_gone(ends) as usize;
    let high = start + (shape.size - 1 - high_gone(ends)) as usize;
    count_left(trail, low, high) as u32
}

/// Whether the value at a place has gone.
#[inline(always)]
fn is_gone(trail: &Trail, place: usize) -> bool
    requires within { place < 64 * length trail.now.top }
    requires small { length trail.now.top < 2 ^ 32 }
    ensures { result ≡ is_gone trail.now.top place }
{
    trail.word((place / 64) as u32) >> (place % 64) & 1 == 1
}

/// Whether `v` is a value.
#[inline]
pub fn has(trail: &Trail, x: u32, shape: Shape, v: i64) -> bool
    requires { IsReady trail.now.top x shape }
    ensures { result ≡ member v (set_in trail.now.top x shape) }
{
    if v < min(trail, x, shape) || max(trail, x, shape) < v {
        return false;
    }
    !is_gone(trail, place_of(shape, v))
}

/// The least value above `after`.
#[inline]
pub fn next(trail: &Trail, x: u32, shape: Shape, after: i64) -> Option<i64>
    requires { IsReady trail.now.top x shape }
    ensures { IsNext (set_in trail.now.top x shape) after result }
{
    let least = min(trail, x, shape);
    if after < least {
        return Some(least);
    }
    let greatest = max(trail, x, shape);
    if greatest <= after {
        return None;
    }
    let place = first_left(trail, place_of(shape, after) + 1, place_of(shape, greatest));
    Some(value_at(shape, place))
}

/// Removes the values up to `hi`.
fn cut_low(trail: &mut Trail, x: u32, shape: Shape, hi: i64, greatest: i64)
    requires ready { IsReady trail.old.top x shape }
    requires least { (v : ℤ) → IsLeast (set_in trail.old.top x shape) v → v ≤ℤ hi }
    requires greatest { IsGreatest (set_in trail.old.top x shape) greatest }
    requires stays { hi <ℤ greatest }
    ensures set { (lo : ℤ) → ((v : ℤ) → IsLeast (set_in trail.old.top x shape) v → lo ≤ℤ v) → set_in trail.new.top x shape ≡ outside lo hi (set_in trail.old.top x shape) }
    ensures ready { IsReady trail.new.top x shape }
    ensures below { trail.new.below ≡ trail.old.below }
    ensures others { TouchesOnly x shape trail.old.top trail.new.top }
    ensures narrows { Narrows x shape trail.old.top trail.new.top }
{
    let place = first_left(trail, place_of(shape, hi) + 1, place_of(shape, greatest));
    let low = place - shape.first as usize * 64;
    trail.raise(x, ends(low as u32, high_gone(trail.word(x))));
}

/// Removes the values from `lo` on.
fn cut_high(trail: &mut Trail, x: u32, shape: Shape, lo: i64, least: i64)
    requires ready { IsReady trail.old.top x shape }
    requires greatest { (v : ℤ) → IsGreatest (set_in trail.old.top x shape) v → lo ≤ℤ v }
    requires least { IsLeast (set_in trail.old.top x shape) least }
    requires stays { least <ℤ lo }
    ensures set { (hi : ℤ) → ((v : ℤ) → IsGreatest (set_in trail.old.top x shape) v → v ≤ℤ hi) → set_in trail.new.top x shape ≡ outside lo hi (set_in trail.old.top x shape) }
    ensures ready { IsReady trail.new.top x shape }
    ensures below { trail.new.below ≡ trail.old.below }
    ensures others { TouchesOnly x shape trail.old.top trail.new.top }
    ensures narrows { Narrows x shape trail.old.top trail.new.top }
{
    let place = last_left(trail, place_of(shape, least), place_of(shape, lo) - 1);
    let high = shape.first as usize * 64 + (shape.size as usize - 1) - place;
    trail.raise(x, ends(low_gone(trail.word(x)), high as u32));
}

/// Removes the values from `lo` to `hi`. One must stay. It takes no memory.
#[inline]
pub fn cut(trail: &mut Trail, x: u32, shape: Shape, lo: i64, hi: i64)
    requires ready { IsReady trail.old.top x shape }
    requires stays { (v : ℤ) × (member v (outside lo hi (set_in trail.old.top x shape)) ≡ true) }
    ensures set { set_in trail.new.top x shape ≡ outside lo hi (set_in trail.old.top x shape) }
    ensures ready { IsReady trail.new.top x shape }
    ensures below { trail.new.below ≡ trail.old.below }
    ensures others { TouchesOnly x shape trail.old.top trail.new.top }
    ensures narrows { Narrows x shape trail.old.top trail.new.top }
{
    let least = min(trail, x, shape);
    let greatest = max(trail, x, shape);
    if hi < lo || hi < least || greatest < lo {
        return;
    }
    if lo <= least {
        cut_low(trail, x, shape, hi, greatest);
        return;
    }
    if greatest <= hi {
        cut_high(trail, x, shape, lo, least);
        return;
    }
    let_go(trail, place_of(shape, lo), place_of(shape, hi));
}
