//! Turns are taken and gone back to, and a name is looked up among them.
ghost use Rattle.std.specs.Prelude.{◌≡◌, ◌≤◌, ℕ, List, [], ◌∷◌, ◌++◌, IfNone, IfOk, IfSome, None, OnOk, Option, Some, bytes_eq, cond, length, min, take};
ghost use Rattle.std.specs.HashMap.{get_by};
ghost use Rattle.std.specs.List.{list_any};
ghost use Rattle.opl_value.specs.declared.value.Value.{Value};
ghost use Rattle.opl_eval.specs.TurnNames.{names_of};
ghost use Rattle.opl_eval.specs.Turns.{in_turns};

use crate::chosen::Turns;
use crate::turns::Turn;
use crate::visible::{add_place, place_of};
use opl_term::Pattern;
use opl_token::Name;
use std::alloc::{AllocError, Global};
use std::collections::HashMap;
use std::mem;

impl<'t> Turns<'t> {
    /// No turns. It takes no memory.
    pub fn new(alloc: Global) -> Turns<'t>
        ensures { result.chosen.items ≡ [] }
    {
        Turns {
            chosen: Vec::new(alloc),
            ends: HashMap::new(alloc),
        }
    }

    /// One more turn behind the others. Where memory is wanting none is left.
    pub fn push(&mut self, alloc: Global, turn: Turn<'t>) -> Result<(), AllocError>
        ensures { OnOk result (self.new.chosen.items ≡ self.old.chosen.items ++ turn.entry ∷ []) }
    {
        let before = mem::replace(self, Turns::new(alloc));
        *self = with_turn(before, turn)?;
        Ok(())
    }

    /// Takes the latest turn away, if there is one.
    pub fn pop(&mut self) -> Option<Turn<'t>>
        ensures none { IfNone result (self.old.chosen.items ≡ []) }
        ensures some { IfSome result (λ turn. self.old.chosen.items ≡ self.new.chosen.items ++ turn ∷ []) }
    {
        self.chosen.pop()
    }

    /// A place from which on no turn has the name.
    pub(crate) fn end(&self, name: &[u8]) -> usize
        ensures within { result ≤ length self.now.chosen.items }
        ensures none_behind { (before : Option Value) → in_turns before name.now self.now.chosen.items ≡ in_turns before name.now (take result self.now.chosen.items) }
    {
        let count = self.chosen.len();
        match place_of(&self.ends, name) {
            Some(end) => lesser(end, count),
            None => 0,
        }
    }
}

/// The lesser of two places.
fn lesser(place: usize, other: usize) -> usize
    ensures { result ≡ min place other }
{
    if place < other { place } else { other }
}

/// Keeps the place for each of the names.
fn add_all<'t>(
    ends: &mut HashMap<&'t [u8], usize>,
    names: &'t [Name],
    end: usize,
) -> Result<(), AllocError>
    ensures { OnOk result ((other : List ℕ) → get_by (λ k. bytes_eq other k.now) ends.new ≡ cond (list_any (bytes_eq other) names.now) (Some end) (get_by (λ k. bytes_eq other k.now) ends.old)) }
{
    for name in names {
        add_place(ends, name.as_slice(), end)?;
    }
    Ok(())
}

/// Keeps the place for each name of a pattern.
fn add_ends<'t>(
    ends: &mut HashMap<&'t [u8], usize>,
    pattern: &'t Pattern,
    end: usize,
) -> Result<(), AllocError>
    ensures { OnOk result ((other : List ℕ) → get_by (λ k. bytes_eq other k.now) ends.new ≡ cond (list_any (bytes_eq other) (names_of pattern.now)) (Some end) (get_by (λ k. bytes_eq other k.now) ends.old)) }
{
    match pattern {
        Pattern::Single(name) => add_place(ends, name.as_slice(), end),
        Pattern::Parts(names) => add_all(ends, names.as_slice(), end),
    }
}

/// The same turns, and one more.
fn with_turn<'t>(turns: Turns<'t>, turn: Turn<'t>) -> Result<Turns<'t>, AllocError>
    ensures { IfOk result (λ r. r.chosen.items ≡ turns.entry.chosen.items ++ turn.entry ∷ []) }
{
    let Turns {
        mut chosen,
        mut ends,
    } = turns;
    let pattern = turn.course.pattern;
    chosen.push(turn)?;
    add_ends(&mut ends, pattern, chosen.len())?;
    Ok(Turns { chosen, ends })
}
