//! Words whose changes are undone level by level.
ghost use Rattle.std.specs.Prelude.{◌≡◌, ◌+◌, ◌-◌, ◌^◌, ◌<◌, ◌≤◌, ◌∷◌, ◌++◌, [], cond, nat_lt, reverse, take, drop, length, replicate, slice_index, slice_set, IfOk, OnOk, OnErr};
ghost use Rattle.std.specs.List.{All};
ghost use Rattle.std.specs.Vec.{vec_capacity};
ghost use Rattle.opl_trail.specs.Levels.{changed};
ghost use Rattle.opl_trail.specs.Trails.{below, saves_in, IsTrail, undo, word_of, at_of};

use crate::bits::Bits;
use opl_domain::{OutOfMemory, Steps};
use std::alloc::Global;
use std::marker::Model;

/// What the word at a place was, and the place's stamp then.
#[derive(Drop, Clone, Copy)]
pub struct Saved {
    pub place: u32,
    pub at: u32,
    pub word: u64,
}

/// Words, and what is needed to give back those of each open level.
#[derive(Drop)]
pub struct Trail {
    bits: Bits,
    /// The stamp of each place: how long the trail was when its word was last saved, that save included; 0 if it is not in the trail.
    at: Vec<u32>,
    /// What each word was, in the order of saving.
    saved: Vec<Saved>,
    /// How long the trail was when each level was opened.
    marks: Vec<usize>,
}

impl Model for Trail {
    ghost use Rattle.std.specs.Prelude.{reverse};
    ghost use Rattle.std.specs.Vec.{vec_capacity};
    ghost use Rattle.opl_trail.specs.Levels.{Levels};

    ghost Value = { Levels };

    ghost use Rattle.opl_trail.specs.Trails.{below, IsTrail};

    ghost view = { λ t. record { top = t.bits; below = below (reverse t.marks.items) t.saved.items t.bits } };

    ghost invariant = { λ t. IsTrail (reverse t.marks.items) t.saved.items t.at.items t.bits (vec_capacity t.saved) };
}

/// Writes a saved word back. One of a place before `split` is counted by `front`, another by `back`.
#[inline(always)]
fn write_back(bits: &mut Bits, last: Saved, split: u32, front: &mut Steps, back: &mut Steps)
    requires { last.place < length bits.old }
    ensures word { bits.new ≡ slice_set bits.old last.place last.word }
    ensures front { front.new ≤ front.old + cond (nat_lt last.place split) 1 0 }
    ensures back { back.new ≤ back.old + cond (nat_lt last.place split) 0 1 }
{
    if last.place < split {
        bits.write(last.place, last.word, front);
        return;
    }
    bits.write(last.place, last.word, back);
}

/// Gives back what the words were when the trail was `mark` long.
fn undo_to(
    bits: &mut Bits,
    at: &mut Vec<u32>,
    saved: &mut Vec<Saved>,
    mark: usize,
    split: u32,
    front: &mut Steps,
    back: &mut Steps,
)
    requires mark { mark ≤ length saved.old.items }
    requires places { All (λ e. e.place < length bits.old) saved.old.items }
    requires same { length at.old.items ≡ length bits.old }
    requires split { split ≤ length bits.old }
    ensures bits { bits.new ≡ undo word_of (drop mark saved.old.items) bits.old }
    ensures at { at.new.items ≡ undo at_of (drop mark saved.old.items) at.old.items }
    ensures saved { saved.new.items ≡ take mark saved.old.items }
    ensures room { vec_capacity saved.new ≡ vec_capacity saved.old }
    ensures front { front.new ≤ front.old + saves_in 0 split (drop mark saved.old.items) }
    ensures back { back.new ≤ back.old + saves_in split (length bits.old - split) (drop mark saved.old.items) }
{
    while saved.len() > mark {
        if let Some(last) = saved.pop() {
            write_back(bits, last, split, front, back);
            at[last.place as usize] = last.at;
        }
    }
}

impl Trail {
    /// Words of zeros, and no open level.
    pub fn new(alloc: Global, words: u32) -> Result<Trail, OutOfMemory>
        ensures { IfOk result (λ t. t ≡ record { top = replicate words 0; below = [] }) }
    {
        Ok(Trail {
            bits: Bits::new(alloc, words)?,
            at: vec![in alloc; 0u32; words as usize]?,
            saved: Vec::new(alloc),
            marks: Vec::new(alloc),
        })
    }

    /// The word at a place.
    #[inline(always)]
    pub fn word(&self, place: u32) -> u64
        requires { place < length self.now.top }
        ensures { result ≡ slice_index self.now.top place }
    {
        self.bits.word(place)
    }

    /// Makes the word at a place greater. It takes no memory.
    #[inline(always)]
    pub fn raise(&mut self, place: u32, word: u64)
        requires within { place < length self.old.top }
        requires more { slice_index self.old.top place < word }
        ensures { self.new ≡ record self.old { top = slice_set self.old.top place word } }
    {
        raise(
            &mut self.bits,
            &mut self.at,
            &mut self.saved,
            self.marks.as_slice(),
            place,
            word,
        );
    }

    /// How many levels are open.
    pub fn levels(&self) -> u64
        ensures { result ≡ length self.now.below }
    {
        self.marks.len() as u64
    }

    /// Opens a level, and takes the memory for all changes in it. Where memory is wanting, all stays as it was.
    pub fn open_level(&mut self) -> Result<(), OutOfMemory>
        ensures ok { OnOk result (self.new ≡ record { top = self.old.top; below = self.old.top ∷ self.old.below }) }
        ensures err { OnErr result (self.new ≡ self.old) }
    {
        let start = self.saved.len();
        let size = self.at.len();
        if start > u32::MAX as usize - size {
            return Err(OutOfMemory);
        }
        self.saved.reserve(size)?;
        self.marks.push(start)?;
        Ok(())
    }

    /// Gives back the words at the opening of the last open level. It takes no memory. It writes only words that
    /// differ: those before the place `split` are counted by `front`, the others by `back`.
    pub fn close_level(&mut self, split: u32, front: &mut Steps, back: &mut Steps)
        requires open { 0 < length self.old.below }
        requires split { split ≤ length self.old.top }
        ensures levels { self.old.below ≡ self.new.top ∷ self.new.below }
        ensures front { front.new ≤ front.old + changed self.old.top self.new.top 0 split }
        ensures back { back.new ≤ back.old + changed self.old.top self.new.top split (length self.old.top - split) }
    {
        if let Some(mark) = self.marks.pop() {
            undo_to(
                &mut self.bits,
                &mut self.at,
                &mut self.saved,
                mark,
                split,
                front,
                back,
            );
        }
    }
}

/// Saves a word. There must be room in the trail.
#[inline(always)]
fn save(at: &mut Vec<u32>, saved: &mut Vec<Saved>, place: u32, word: u64)
    requires room { length saved.old.items < vec_capacity saved.old }
    requires few { length saved.old.items + 1 < 2 ^ 32 }
    requires within { place < length at.old.items }
    ensures saved { saved.new.items ≡ saved.old.items ++ record { place = place; at = slice_index at.old.items place; word = word } ∷ [] }
    ensures at { at.new.items ≡ slice_set at.old.items place (length saved.old.items + 1) }
    ensures room { vec_capacity saved.old ≤ vec_capacity saved.new }
{
    let save = Saved {
        place,
        at: at[place as usize],
        word,
    };
    if saved.push(save).is_err() {
        unreachable!();
    }
    at[place as usize] = saved.len() as u32;
}

/// Makes a word greater, and saves what it was, unless that was done in the last open level.
#[inline(always)]
fn raise(
    bits: &mut Bits,
    at: &mut Vec<u32>,
    saved: &mut Vec<Saved>,
    marks: &[usize],
    place: u32,
    word: u64,
)
    requires within { place < length bits.old }
    requires more { slice_index bits.old place < word }
    requires trail { IsTrail (reverse marks.now) saved.old.items at.old.items bits.old (vec_capacity saved.old) }
    ensures bits { bits.new ≡ slice_set bits.old place word }
    ensures trail { IsTrail (reverse marks.now) saved.new.items at.new.items bits.new (vec_capacity saved.new) }
    ensures below { below (reverse marks.now) saved.new.items bits.new ≡ below (reverse marks.now) saved.old.items bits.old }
{
    if let Some(mark) = marks.last() {
        let before = at[place as usize];
        if before as usize <= *mark {
            save(at, saved, place, bits.word(place));
        }
    }
    let mut own = Steps::new();
    bits.write(place, word, &mut own);
}
