//! The keys of index sets, one after another. What is chosen of each set stands in a list, so that index sets in any number are
//! gone through without recursion.
ghost use Rattle.std.specs.Prelude.{◌≡◌, ◌+◌, ◌*◌, ◌<◌, [], suc, IfOk, length, map};
ghost use Rattle.opl_given.specs.Elements.{left};
ghost use Rattle.opl_bind.specs.Keys.{Arrives, Steps, ahead_keys, beginning, chosen, distance, distance_ahead, distance_back, distance_of, key_of, keys, keys_over, to_come, under};
ghost use Rattle.opl_bind.specs.declared.key_walk.Stage.TheVariants.{Between};

use opl_given::{Element, Elements};
use std::alloc::{AllocError, Global};

/// The element that is chosen of an index set.
#[derive(Drop)]
pub struct Turn<'k, 'd> {
    pub element: Element<'d>,
    /// The elements behind it.
    later: Elements<'d>,
    /// The index sets behind its own.
    behind: &'k [Elements<'d>],
}

/// A walk over the keys of index sets, in index order.
#[derive(Drop)]
pub struct Walk<'k, 'd> {
    /// What is chosen, index set after index set.
    turns: Vec<Turn<'k, 'd>>,
    /// The index sets of which an element is to be chosen; None where the latest choice is to be changed.
    ahead: Option<&'k [Elements<'d>]>,
}

/// Where a step ends.
enum Stage {
    /// At a key.
    Key,
    Between,
    /// Behind all keys.
    End,
}

#[tactic(auto, using(crate::proofs::Keys::walks))]
/// Chooses the first of these elements, if there is one. The result is what is ahead then.
fn choose<'k, 'd>(
    turns: &mut Vec<Turn<'k, 'd>>,
    elements: Elements<'d>,
    behind: &'k [Elements<'d>],
) -> Result<Option<&'k [Elements<'d>]>, AllocError>
    ensures keys { IfOk result (λ ahead. under turns.old.items (beginning (left elements.entry) (keys_over behind.now)) ≡ under turns.new.items (ahead_keys ahead)) }
    ensures distance { IfOk result (λ ahead. distance_back turns.old.items + length (left elements.entry) * suc (distance (map left behind.now)) ≡ distance_back turns.new.items + distance_ahead ahead) }
{
    let Some((element, later)) = elements.split_first() else {
        return Ok(None);
    };
    turns.push(Turn {
        element,
        later,
        behind,
    })?;
    Ok(Some(behind))
}

/// What comes behind the choice of a turn.
fn behind_turn<'k, 'd>(turn: Turn<'k, 'd>) -> (Elements<'d>, &'k [Elements<'d>])
    ensures later { left result.0 ≡ left turn.entry.later }
    ensures behind { result.1.now ≡ turn.entry.behind.now }
{
    let Turn {
        element: _,
        later,
        behind,
    } = turn;
    (later, behind)
}

impl<'k, 'd> Walk<'k, 'd> {
    /// A walk before the first key of these index sets. It takes no memory.
    pub fn new(alloc: Global, sets: &'k [Elements<'d>]) -> Walk<'k, 'd>
        ensures { to_come result ≡ keys_over sets.now }
    {
        Walk {
            turns: Vec::new(alloc),
            ahead: Some(sets),
        }
    }

    /// What is chosen for the key at which the walk stands, index set after index set.
    pub fn key(&self) -> &[Turn<'k, 'd>]
        ensures { chosen result.now ≡ key_of self.now }
    {
        self.turns.as_slice()
    }

    /// Chooses of the first of these index sets; where there are none, a key is reached.
    #[tactic(auto, using(crate::proofs::Keys::walks))]
    fn enter(&mut self, sets: &'k [Elements<'d>]) -> Result<Stage, AllocError>
        ensures keys { IfOk result (Steps (under self.old.turns.items (keys_over sets.now)) self.new) }
        ensures distance { IfOk result (λ stage. stage ≡ Between → distance_of self.new < distance_back self.old.turns.items + distance (map left sets.now)) }
    {
        match sets.split_first() {
            None => {
                self.ahead = None;
                Ok(Stage::Key)
            }
            Some((elements, behind)) => {
                self.ahead = choose(&mut self.turns, *elements, behind)?;
                Ok(Stage::Between)
            }
        }
    }

    /// Chooses a later element for the latest choice for which there is one.
    #[tactic(auto, using(crate::proofs::Keys::walks))]
    fn go_back(&mut self) -> Result<Stage, AllocError>
        ensures keys { IfOk result (Steps (under self.old.turns.items []) self.new) }
        ensures distance { IfOk result (λ stage. stage ≡ Between → distance_of self.new < distance_back self.old.turns.items) }
    {
        match self.turns.pop() {
            None => {
                self.ahead = None;
                Ok(Stage::End)
            }
            Some(turn) => {
                let (later, behind) = behind_turn(turn);
                self.ahead = choose(&mut self.turns, later, behind)?;
                Ok(Stage::Between)
            }
        }
    }

    /// Chooses of the next index set, or goes back to the latest choice.
    fn step(&mut self) -> Result<Stage, AllocError>
        ensures keys { IfOk result (Steps (to_come self.old) self.new) }
        ensures distance { IfOk result (λ stage. stage ≡ Between → distance_of self.new < distance_of self.old) }
    {
        match self.ahead {
            Some(sets) => self.enter(sets),
            None => self.go_back(),
        }
    }

    /// Goes on to the next key; whether there is one.
    pub fn advance(&mut self) -> Result<bool, AllocError>
        ensures { IfOk result (Arrives (to_come self.old) self.new) }
    {
        loop {
            match self.step()? {
                Stage::Key => return Ok(true),
                Stage::Between => {}
                Stage::End => return Ok(false),
            }
        }
    }
}
