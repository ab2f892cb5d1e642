//! One decision variable, and conditions on it.
ghost use Rattle.std.specs.Prelude.{IfOk};
ghost use Rattle.test_held.specs.Single.{AreSingle, IsAlone, IsPlain};

use opl_declared::Declared;
use opl_eval::{Environment, EvalFault, Positions};
use opl_groups::Scope;
use opl_held::holds_source;
use opl_list::Seq;
use opl_making::Site;
use opl_meaning::{DeclaredSet, Kind, VariableItem};
use opl_nodes::Context;
use opl_term::Term;
use opl_tree::Name;
use std::alloc::{AllocError, Global};

/// The decision variable `x`.
fn variable(alloc: Global) -> Result<VariableItem, AllocError>
    ensures { IfOk result IsPlain }
{
    let mut sets = Seq::new(alloc);
    sets.push(DeclaredSet { low: -9, high: 9 })?;
    Ok(VariableItem {
        name: Name::from_slice(alloc, b"x")?,
        kind: Kind::Number,
        space: None,
        sets,
    })
}

/// The decision variable `x` alone.
fn variables(alloc: Global) -> Result<Vec<VariableItem>, AllocError>
    ensures { IfOk result (λ items. AreSingle items.items) }
{
    let mut items = Vec::new(alloc);
    items.push(variable(alloc)?)?;
    Ok(items)
}

/// Whether a condition holds where a variable alone is declared.
fn holds_at(
    alloc: Global,
    declared: &Declared<'_>,
    environment: &Environment<'_>,
    condition: &Term,
    number: i64,
) -> Result<Option<bool>, EvalFault>
    requires { IsAlone declared.now environment.now }
{
    let context = Context {
        sets: &[(-9, 9)],
        arrays: &[],
        item: 0,
    };
    let site = Site {
        context: &context,
        declared,
    };
    let scope = Scope {
        environment,
        parameters: &[],
    };
    let found = holds_source(alloc, site, scope, condition, &[number]);
    let Context {
        sets: _,
        arrays: _,
        item: _,
    } = context;
    found
}

/// Whether a condition holds where these are the declared variables.
fn holds_with(
    alloc: Global,
    items: &[VariableItem],
    condition: &Term,
    number: i64,
) -> Result<Option<bool>, EvalFault>
    requires { AreSingle items.now }
{
    let environment = Environment::new(alloc, Positions::new(alloc));
    let declared = Declared::new(alloc, items)?;
    holds_at(alloc, &declared, &environment, condition, number)
}

/// Whether a condition holds where `x` has this number.
pub fn holds(alloc: Global, condition: &Term, number: i64) -> Result<Option<bool>, EvalFault> {
    let items = variables(alloc)?;
    holds_with(alloc, items.as_slice(), condition, number)
}
