//! Notes that are given back level by level.
ghost use Rattle.std.specs.Prelude.{◌≡◌, ◌<◌, ◌∷◌, [], false, length, replicate, slice_set, IfOk, OnOk, OnErr};
ghost use Rattle.opl_notes.specs.Noted.{is_noted};

use opl_domain::{OutOfMemory, Steps};
use opl_trail::Trail;
use std::alloc::Global;
use std::marker::Model;

/// For each of some places, whether something is noted there: its word is 1, and 0 else. A level that is closed takes its notes along.
#[derive(Drop)]
pub struct Notes {
    words: Trail,
}

impl Model for Notes {
    ghost use Rattle.opl_trail.specs.Levels.{Levels};

    ghost Value = { Levels };

    ghost view = { λ n. n.words };
}

impl Notes {
    /// Nothing is noted at so many places, and no level is open.
    pub fn new(alloc: Global, places: u32) -> Result<Notes, OutOfMemory>
        ensures { IfOk result (λ n. n ≡ record { top = replicate places 0; below = [] }) }
    {
        Ok(Notes {
            words: Trail::new(alloc, places)?,
        })
    }

    /// Whether something is noted at a place.
    #[inline(always)]
    pub fn has(&self, place: u32) -> bool
        requires { place < length self.now.top }
        ensures { result ≡ is_noted self.now.top place }
    {
        self.words.word(place) > 0
    }

    /// Notes something at a place. It takes no memory.
    #[inline(always)]
    pub fn note(&mut self, place: u32)
        requires within { place < length self.old.top }
        requires free { is_noted self.old.top place ≡ false }
        ensures { self.new ≡ record self.old { top = slice_set self.old.top place 1 } }
    {
        self.words.raise(place, 1);
    }

    /// Opens a level, and takes the memory for all notes in it. Where memory is wanting, all stays as it was.
    pub fn open_level(&mut self) -> Result<(), OutOfMemory>
        ensures ok { OnOk result (self.new ≡ record { top = self.old.top; below = self.old.top ∷ self.old.below }) }
        ensures err { OnErr result (self.new ≡ self.old) }
    {
        self.words.open_level()
    }

    /// Closes the last open level: what was noted in it is noted no longer. It takes no memory.
    pub fn close_level(&mut self)
        requires { 0 < length self.old.below }
        ensures { self.old.below ≡ self.new.top ∷ self.new.below }
    {
        let mut front = Steps::new();
        let mut back = Steps::new();
        self.words.close_level(0, &mut front, &mut back);
    }
}
