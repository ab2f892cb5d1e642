//! The linear form of an expression: the coefficients of its variables, and whether it has other parts.
ghost use Rattle.std.specs.Prelude.{◌≡◌, ◌*◌, ◌+◌, ◌*ℤ◌, ◌+ℤ◌, neg_ℤ, unsigned_abs, map};
ghost use Rattle.opl_expr.specs.Forms.{Term, term, terms_of, constant_value};
ghost use Rattle.opl_expr.specs.Range.{coef, coefs, pure, all_pure};
ghost use Rattle.opl_expr.specs.Sound.{IsSmall, IsSoundTerm};
ghost use Rattle.opl_range.specs.Between.{Ends, later};

use opl_expr::{Core, Expr};

/// The sum of two numbers.
pub fn added(x: i128, y: i128) -> i128
    requires { IsSmall (unsigned_abs x + unsigned_abs y) }
    ensures { result ≡ x +ℤ y }
{
    x + y
}

/// The product of two numbers.
pub fn multiplied(x: i128, y: i128) -> i128
    requires { IsSmall (unsigned_abs x * unsigned_abs y) }
    ensures { result ≡ x *ℤ y }
{
    x * y
}

/// The number with the other sign.
pub fn negated(x: i128) -> i128
    requires { IsSmall (unsigned_abs x) }
    ensures { result ≡ neg_ℤ x }
{
    -x
}

/// The number that an expression is, if it is one.
#[tactic(auto, using(crate::proofs::Plain::constants))]
pub fn constant(core: &Core, e: &Expr) -> Option<i128>
    ensures { result ≡ constant_value (term core.now.tables core.now.resources e.now) }
{
    match e {
        Expr::Const(k) => Some(*k),
        Expr::Var(_x) => None,
        Expr::Sum(_parts) => None,
        Expr::Neg(_a) => None,
        Expr::Mul(_a, _b) => None,
        Expr::Div(_a, _b) => None,
        Expr::Rem(_a, _b) => None,
        Expr::Abs(_a) => None,
        Expr::Min(_parts) => None,
        Expr::Max(_parts) => None,
        Expr::At(_table, _parts) => None,
        Expr::Truth(_c) => None,
        Expr::Ask(_ask, _x) => None,
    }
}

/// The coefficient of variable `x` in an expression.
#[cycle(coefficients)]
#[tactic(auto, using(crate::proofs::Plain::coefs_are))]
pub fn coefficient(core: &Core, e: &Expr, x: u32) -> i128
    requires { IsSoundTerm core.now.sets (term core.now.tables core.now.resources e.now) }
    ensures { result ≡ coef (term core.now.tables core.now.resources e.now) x }
{
    match e {
        Expr::Const(_k) => 0,
        Expr::Var(y) => { if x == *y { 1 } else { 0 } }
        Expr::Sum(parts) => sum_of_coefficients(core, parts.as_slice(), x),
        Expr::Neg(a) => negated(coefficient(core, a.get(), x)),
        Expr::Mul(a, b) => match constant(core, a.get()) {
            Some(k) => multiplied(k, coefficient(core, b.get(), x)),
            None => match constant(core, b.get()) {
                Some(k) => multiplied(k, coefficient(core, a.get(), x)),
                None => 0,
            },
        },
        Expr::Div(_a, _b) => 0,
        Expr::Rem(_a, _b) => 0,
        Expr::Abs(_a) => 0,
        Expr::Min(_parts) => 0,
        Expr::Max(_parts) => 0,
        Expr::At(_table, _parts) => 0,
        Expr::Truth(_c) => 0,
        Expr::Ask(_ask, _x) => 0,
    }
}

/// The sum of the coefficients of variable `x` in expressions.
#[cycle(coefficients)]
fn sum_of_coefficients(core: &Core, parts: &[Expr], x: u32) -> i128
    requires { IsSoundTerm core.now.sets (Term.sum (terms_of (map (term core.now.tables core.now.resources) parts.now))) }
    ensures { result ≡ coefs (terms_of (map (term core.now.tables core.now.resources) parts.now)) x }
{
    let mut total = 0;
    let mut left = parts.len();
    while left > 0 {
        left -= 1;
        total = added(coefficient(core, &parts[left], x), total);
    }
    total
}

/// Whether an expression is its linear form alone, with no other part.
#[cycle(linear)]
#[tactic(auto, using(crate::proofs::Plain::pures))]
pub fn is_linear(core: &Core, e: &Expr) -> bool
    ensures { result ≡ pure (term core.now.tables core.now.resources e.now) }
{
    match e {
        Expr::Const(_k) => true,
        Expr::Var(_x) => true,
        Expr::Sum(parts) => are_linear(core, parts.as_slice()),
        Expr::Neg(a) => is_linear(core, a.get()),
        Expr::Mul(a, b) => match constant(core, a.get()) {
            Some(_k) => is_linear(core, b.get()),
            None => match constant(core, b.get()) {
                Some(_k) => is_linear(core, a.get()),
                None => false,
            },
        },
        Expr::Div(_a, _b) => false,
        Expr::Rem(_a, _b) => false,
        Expr::Abs(_a) => false,
        Expr::Min(_parts) => false,
        Expr::Max(_parts) => false,
        Expr::At(_table, _parts) => false,
        Expr::Truth(_c) => false,
        Expr::Ask(_ask, _x) => false,
    }
}

/// Whether each expression is its linear form alone.
#[cycle(linear)]
fn are_linear(core: &Core, parts: &[Expr]) -> bool
    ensures { result ≡ all_pure (terms_of (map (term core.now.tables core.now.resources) parts.now)) }
{
    let mut left = parts.len();
    while left > 0 {
        left -= 1;
        if !is_linear(core, &parts[left]) {
            return false;
        }
    }
    true
}

/// The later of two variables, of which each may be missing.
pub fn later(x: Option<u32>, y: Option<u32>) -> Option<u32>
    ensures { result ≡ later x y }
{
    let Some(first) = x else {
        return y;
    };
    match y {
        None => x,
        Some(second) => Some(first.max(second)),
    }
}

/// The last of the variables below `end` that the linear form of an expression names.
#[cycle(named)]
pub fn last_named(core: &Core, e: &Expr, end: u32) -> Option<u32>
    ensures { Ends (coef (term core.now.tables core.now.resources e.now)) end result }
{
    match e {
        Expr::Const(_k) => None,
        Expr::Var(x) => { if *x < end { Some(*x) } else { None } }
        Expr::Sum(parts) => last_of(core, parts.as_slice(), end),
        Expr::Neg(a) => last_named(core, a.get(), end),
        Expr::Mul(a, b) => match constant(core, a.get()) {
            Some(_k) => last_named(core, b.get(), end),
            None => match constant(core, b.get()) {
                Some(_k) => last_named(core, a.get(), end),
                None => None,
            },
        },
        Expr::Div(_a, _b) => None,
        Expr::Rem(_a, _b) => None,
        Expr::Abs(_a) => None,
        Expr::Min(_parts) => None,
        Expr::Max(_parts) => None,
        Expr::At(_table, _parts) => None,
        Expr::Truth(_c) => None,
        Expr::Ask(_ask, _x) => None,
    }
}

/// The last of the variables below `end` that the linear forms of expressions name.
#[cycle(named)]
fn last_of(core: &Core, parts: &[Expr], end: u32) -> Option<u32>
    ensures { Ends (coefs (terms_of (map (term core.now.tables core.now.resources) parts.now))) end result }
{
    let mut found = None;
    let mut left = parts.len();
    while left > 0 {
        left -= 1;
        found = later(last_named(core, &parts[left], end), found);
    }
    found
}
