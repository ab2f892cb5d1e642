//! The walk over the terms of expressions.
ghost use Rattle.std.specs.Prelude.{◌≡◌, drop, length, map, reverse, OnOk};
ghost use Rattle.std.specs.Option.{option_copied, option_map};
ghost use Rattle.opl_fields.specs.Walk as spec;
ghost use Rattle.opl_fields.specs.Walk.{Pass, State};

use crate::place::FieldPlace;
use crate::structs::position;
use opl_list::{Boxed, Seq};
use opl_term::{FieldName, GroupTerm, SetTerm, Step, Term};
use opl_tree::DeclTree;
use std::alloc::{AllocError, Global};
use std::marker::Model;

/// What a walk over a model knows: the fields found so far, and of the expressions to come, in preorder, the number of the struct of
/// each that is a record.
#[derive(Drop)]
pub(crate) struct Walk<'a> {
    found: Seq<FieldPlace>,
    records: &'a [Option<u32>],
}

impl<'a> Model for Walk<'a> {
    ghost use Rattle.opl_fields.specs.Walk.{State};

    ghost Value = { State };

    ghost view = { λ w. record { found = w.found; records = w.records.now } };
}

/// What stands behind so many of a list.
fn behind(records: &[Option<u32>], count: usize) -> &[Option<u32>]
    ensures { result.now ≡ drop count records.now }
{
    if count < records.len() {
        &records[count..]
    } else {
        &[]
    }
}

/// The struct that stands at a place of a list.
fn record_at(records: &[Option<u32>], place: usize) -> Option<u32>
    ensures { result ≡ spec.next (drop place records.now) }
{
    match records.get(place) {
        Some(record) => *record,
        None => None,
    }
}

impl<'a> Walk<'a> {
    /// The walk before a model's first expression.
    pub(crate) fn new(alloc: Global, records: &'a [Option<u32>]) -> Walk<'a>
        ensures { result ≡ spec.before records.now }
    {
        Walk {
            found: Seq::new(alloc),
            records,
        }
    }

    /// The fields that were found.
    pub(crate) fn into_found(self) -> Seq<FieldPlace>
        ensures { result ≡ self.entry.found }
    {
        let Walk { found, records: _ } = self;
        found
    }

    /// Takes the type of an expression.
    fn begin(&mut self)
        ensures { self.new ≡ spec.one self.old }
    {
        if let Some((_, rest)) = self.records.split_first() {
            self.records = rest;
        }
    }

    /// Takes the types of so many expressions.
    fn skip(&mut self, count: usize)
        ensures { self.new ≡ spec.several count self.old }
    {
        self.records = behind(self.records, count);
    }

    /// One more field, where it is one of the struct's.
    fn push(&mut self, place: u32, position: Option<usize>) -> Result<(), AllocError>
        ensures { OnOk result (self.new ≡ spec.noted place position self.old) }
    {
        match position {
            Some(position) => self.found.push(FieldPlace { place, position }),
            None => Ok(()),
        }
    }

    /// A field of what is a record of that struct, or no record.
    fn note(
        &mut self,
        decls: &[DeclTree],
        place: u32,
        name: &[u8],
        record_of: Option<u32>,
    ) -> Result<(), AllocError>
        ensures { OnOk result (self.new ≡ spec.note decls.now place name.now record_of self.old) }
    {
        match record_of {
            Some(number) => self.push(place, position(decls, number, name)),
            None => Ok(()),
        }
    }

    /// The fields of a chain, where the types before the chain's are these. The types of the chain, of each shorter one and of what
    /// they are behind come one after another.
    fn note_all(
        &mut self,
        decls: &[DeclTree],
        names: &[FieldName],
        records: &[Option<u32>],
    ) -> Result<(), AllocError>
        ensures { OnOk result ((base : Pass) (s : State) → records.now ≡ s.records → self.old ≡ base (spec.several (length names.now) s) → self.new ≡ spec.along decls.now base (reverse names.now) s) }
    {
        let mut place = names.len();
        for name in names {
            self.note(
                decls,
                name.at,
                name.text.as_slice(),
                record_at(records, place),
            )?;
            place -= 1;
        }
        Ok(())
    }

    /// Goes through an expression.
    #[cycle(walk)]
    #[tactic(auto, using(crate::proofs::Walks::walks))]
    pub(crate) fn term(&mut self, decls: &[DeclTree], t: &Term) -> Result<(), AllocError>
        ensures { OnOk result (self.new ≡ spec.walk decls.now t.now self.old) }
    {
        match t {
            Term::Number(..) | Term::Named(..) => {
                self.begin();
                Ok(())
            }
            Term::Bracket(_, t)
            | Term::Negative(_, t)
            | Term::Not(_, t)
            | Term::Call(_, _, t)
            | Term::AllDifferent(_, t)
            | Term::Question(_, _, t) => {
                self.begin();
                self.term(decls, t.get())
            }
            Term::Chain(_, first, steps) => {
                self.begin();
                self.term(decls, first.get())?;
                self.steps(decls, steps.as_slice())
            }
            Term::Related(_, left, _, right) | Term::Implied(_, left, right) => {
                self.begin();
                self.term(decls, left.get())?;
                self.term(decls, right.get())
            }
            Term::Member(_, t, over) => {
                self.begin();
                self.term(decls, t.get())?;
                self.set(decls, over)
            }
            Term::Equivalent(_, ts)
            | Term::Or(_, ts)
            | Term::And(_, ts)
            | Term::Record(_, ts)
            | Term::Listed(_, ts)
            | Term::Array(_, ts) => {
                self.begin();
                self.terms(decls, ts.as_slice())
            }
            Term::Aggregate(_, _, groups, condition, body) => {
                self.begin();
                self.groups(decls, groups.as_slice())?;
                self.condition(decls, condition)?;
                self.term(decls, body.get())
            }
            Term::Element(_, base, subscripts) => {
                self.begin();
                self.term(decls, base.get())?;
                self.terms(decls, subscripts.as_slice())
            }
            Term::Fields(_, base, names) => {
                let records = self.records;
                self.skip(names.len());
                self.term(decls, base.get())?;
                self.note_all(decls, names.as_slice(), records)
            }
            Term::Described(_, t, groups, condition) => {
                self.begin();
                self.term(decls, t.get())?;
                self.groups(decls, groups.as_slice())?;
                self.condition(decls, condition)
            }
            Term::KeyedArray(_, keys, cells) => {
                self.begin();
                let cells = cells.as_slice();
                for (i, key) in keys.as_slice().iter().enumerate() {
                    if i >= cells.len() {
                        return Ok(());
                    }
                    self.term(decls, key)?;
                    self.term(decls, &cells[i])?;
                }
                Ok(())
            }
        }
    }

    /// Goes through expressions in their order.
    #[cycle(walk)]
    #[tactic(auto, using(crate::proofs::Lists::lists))]
    pub(crate) fn terms(&mut self, decls: &[DeclTree], ts: &[Term]) -> Result<(), AllocError>
        ensures { OnOk result (self.new ≡ spec.each (map (spec.walk decls.now) ts.now) self.old) }
    {
        for t in ts {
            self.term(decls, t)?;
        }
        Ok(())
    }

    /// Goes through a condition, where there is one.
    #[cycle(walk)]
    pub(crate) fn condition(
        &mut self,
        decls: &[DeclTree],
        t: &Option<Boxed<Term>>,
    ) -> Result<(), AllocError>
        ensures { OnOk result (self.new ≡ spec.if_written (option_map (spec.walk decls.now) t.now) self.old) }
    {
        match t {
            Some(t) => self.term(decls, t.get()),
            None => Ok(()),
        }
    }

    /// Goes through the steps of a chain.
    #[cycle(walk)]
    #[tactic(auto, using(crate::proofs::Walks::steps, crate::proofs::Lists::lists))]
    fn steps(&mut self, decls: &[DeclTree], steps: &[Step]) -> Result<(), AllocError>
        ensures { OnOk result (self.new ≡ spec.each (map (spec.walk_step decls.now) steps.now) self.old) }
    {
        for step in steps {
            match step {
                Step::Plus(t)
                | Step::Minus(t)
                | Step::Times(t)
                | Step::Quotient(t)
                | Step::Remainder(t) => self.term(decls, t)?,
            }
        }
        Ok(())
    }

    /// Goes through a set.
    #[cycle(walk)]
    #[tactic(auto, using(crate::proofs::Walks::sets))]
    pub(crate) fn set(&mut self, decls: &[DeclTree], t: &SetTerm) -> Result<(), AllocError>
        ensures { OnOk result (self.new ≡ spec.walk_set decls.now t.now self.old) }
    {
        match t {
            SetTerm::Whole(t) => self.term(decls, t.get()),
            SetTerm::Between(low, high) => {
                self.term(decls, low.get())?;
                self.term(decls, high.get())
            }
        }
    }

    /// Goes through the sets of parameters.
    #[cycle(walk)]
    #[tactic(auto, using(crate::proofs::Walks::groups, crate::proofs::Lists::lists))]
    pub(crate) fn groups(
        &mut self,
        decls: &[DeclTree],
        groups: &[GroupTerm],
    ) -> Result<(), AllocError>
        ensures { OnOk result (self.new ≡ spec.each (map (spec.walk_group decls.now) groups.now) self.old) }
    {
        for group in groups {
            match group {
                GroupTerm::Unordered(_, over) | GroupTerm::Ordered(_, over) => self.set(
                    decls, over,
                )?,
            }
        }
        Ok(())
    }
}
