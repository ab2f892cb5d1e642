//! What stands between the cells of an array. The dimensions that are begun stand in a list, so that any number of them is written
//! without recursion.
ghost use Rattle.std.specs.Prelude.{◌≡◌, ◌+◌, ◌*◌, ◌<◌, ◌++◌, ℕ, List, None, Some, length, suc, true, IfOk};
ghost use Rattle.opl_show.specs.Courses.{Comes, Steps, all_brackets, at_end, closing_of, distance, distance_ahead, distance_back, distance_of, goes_on, pending, prefixes_left, rest_text, still, to_write};
ghost use Rattle.opl_show.specs.Texts.{nested};

use crate::layers::{Layer, Prefixes};
use std::alloc::{AllocError, Global};

/// What is left of a dimension.
#[derive(Clone, Copy)]
struct Turn<'a> {
    prefixes: Prefixes<'a>,
    /// The dimensions behind it.
    behind: &'a [Layer],
}

/// A way through an array, from cell to cell.
#[derive(Drop)]
pub(crate) struct Course<'a> {
    /// The dimensions that are begun, the first of them first.
    turns: Vec<Turn<'a>>,
    /// The dimensions that are to be begun; None where the latest that was begun goes on.
    ahead: Option<&'a [Layer]>,
}

/// Where a step ends.
enum Stage {
    /// Before a cell.
    Cell,
    Between,
    /// Behind all cells.
    End,
}

/// Adds what stands before the next element of a dimension, and between it and the one before; what closes the dimension where there
/// is none. The result is what is ahead then.
fn go_on<'a>(
    text: &mut Vec<u8>,
    turns: &mut Vec<Turn<'a>>,
    separator: &[u8],
    prefixes: Prefixes<'a>,
    behind: &'a [Layer],
) -> Result<Option<&'a [Layer]>, AllocError>
    ensures text { IfOk result (λ ahead. (cells : List (List ℕ)) → text.old.items ++ rest_text separator.now (prefixes_left prefixes.entry) (closing_of prefixes.entry) (all_brackets behind.now) (still at_end turns.old.items) cells ≡ text.new.items ++ pending ahead turns.new.items cells) }
    ensures distance { IfOk result (λ ahead. distance_back turns.old.items + length (prefixes_left prefixes.entry) * suc (distance (all_brackets behind.now)) ≡ distance_back turns.new.items + distance_ahead ahead) }
{
    match prefixes.split_first() {
        None => {
            text.extend_from_slice(prefixes.closing())?;
            Ok(None)
        }
        Some((prefix, later)) => {
            text.extend_from_slice(separator)?;
            text.extend_from_slice(prefix)?;
            turns.push(Turn {
                prefixes: later,
                behind,
            })?;
            Ok(Some(behind))
        }
    }
}

impl<'a> Course<'a> {
    /// A way through the cells in these dimensions, before its begin. It takes no memory.
    pub(crate) fn new(alloc: Global, layers: &'a [Layer]) -> Course<'a>
        ensures { (cells : List (List ℕ)) → to_write result cells ≡ nested (all_brackets layers.now) cells }
    {
        Course {
            turns: Vec::new(alloc),
            ahead: Some(layers),
        }
    }

    /// Begins the first of these dimensions; where there are none, a cell comes.
    fn enter(&mut self, text: &mut Vec<u8>, layers: &'a [Layer]) -> Result<Stage, AllocError>
        ensures text { IfOk result (Steps text.old.items (record { turns = self.old.turns; ahead = Some layers.entry }) text.new.items self.new) }
        ensures distance { IfOk result (λ stage. goes_on stage ≡ true → distance_of self.new < distance_back self.old.turns.items + distance (all_brackets layers.now)) }
    {
        match layers.split_first() {
            None => {
                self.ahead = None;
                Ok(Stage::Cell)
            }
            Some((layer, behind)) => {
                text.extend_from_slice(layer.opening())?;
                self.ahead = go_on(text, &mut self.turns, b"", layer.prefixes(), behind)?;
                Ok(Stage::Between)
            }
        }
    }

    /// Goes on with the latest dimension that was begun.
    fn go_back(&mut self, text: &mut Vec<u8>) -> Result<Stage, AllocError>
        ensures text { IfOk result (Steps text.old.items (record { turns = self.old.turns; ahead = None }) text.new.items self.new) }
        ensures distance { IfOk result (λ stage. goes_on stage ≡ true → distance_of self.new < distance_back self.old.turns.items) }
    {
        match self.turns.pop() {
            None => Ok(Stage::End),
            Some(turn) => {
                self.ahead = go_on(text, &mut self.turns, b",", turn.prefixes, turn.behind)?;
                Ok(Stage::Between)
            }
        }
    }

    /// Begins the next dimension, or goes on with the latest.
    fn step(&mut self, text: &mut Vec<u8>) -> Result<Stage, AllocError>
        ensures text { IfOk result (Steps text.old.items self.old text.new.items self.new) }
        ensures distance { IfOk result (λ stage. goes_on stage ≡ true → distance_of self.new < distance_of self.old) }
    {
        match self.ahead {
            Some(layers) => self.enter(text, layers),
            None => self.go_back(text),
        }
    }

    /// Adds what stands before the next cell; whether one comes.
    pub(crate) fn advance(&mut self, text: &mut Vec<u8>) -> Result<bool, AllocError>
        ensures text { IfOk result (Comes text.old.items self.old text.new.items self.new) }
        ensures distance { IfOk result (λ comes. comes ≡ true → distance_of self.new < distance_of self.old) }
    {
        loop {
            match self.step(text)? {
                Stage::Cell => return Ok(true),
                Stage::Between => {}
                Stage::End => return Ok(false),
            }
        }
    }
}
