//! Arithmetic of numbers that may be missing.
ghost use Rattle.std.specs.Prelude.{◌≡◌, ◌≢◌, ℤ, pos, ◌+ℤ◌, ◌*ℤ◌, neg_ℤ, ◌+◌, ◌*◌, unsigned_abs, int_div, int_rem, ◌&&◌, ◌||◌, not, true};
ghost use Rattle.opl_domain.specs.Span.{smaller, larger};
ghost use Rattle.opl_expr.specs.Options.{lift, lift1, bind};
ghost use Rattle.opl_expr.specs.Holds.{bit, quotient, remainder, same, op_relates};
ghost use Rattle.opl_expr.specs.Sound.{IsSmall};

use crate::forms::Op;

/// The sum of two numbers.
pub fn added(x: i128, y: i128) -> i128
    requires { IsSmall (unsigned_abs x + unsigned_abs y) }
    ensures { result ≡ x +ℤ y }
{
    x + y
}

/// The product of two numbers.
fn multiplied(x: i128, y: i128) -> i128
    requires { IsSmall (unsigned_abs x * unsigned_abs y) }
    ensures { result ≡ x *ℤ y }
{
    x * y
}

/// The number with the other sign.
fn negated(x: i128) -> i128
    requires { IsSmall (unsigned_abs x) }
    ensures { result ≡ neg_ℤ x }
{
    -x
}

/// The absolute value.
fn absolute(x: i128) -> i128
    requires { IsSmall (unsigned_abs x) }
    ensures { result ≡ pos (unsigned_abs x) }
{
    if x < 0 { negated(x) } else { x }
}

/// The lesser of two numbers.
fn lesser(x: i128, y: i128) -> i128
    ensures { result ≡ smaller x y }
{
    if x <= y { x } else { y }
}

/// The greater of two numbers.
fn greater(x: i128, y: i128) -> i128
    ensures { result ≡ larger x y }
{
    if x <= y { y } else { x }
}

/// The sum of two numbers that may be missing.
pub fn sum(x: Option<i128>, y: Option<i128>) -> Option<i128>
    requires { (u v : ℤ) → x ≡ Some u → y ≡ Some v → IsSmall (unsigned_abs u + unsigned_abs v) }
    ensures { result ≡ lift ◌+ℤ◌ x y }
{
    let x = x?;
    let y = y?;
    Some(added(x, y))
}

/// The product of two numbers that may be missing.
pub fn product(x: Option<i128>, y: Option<i128>) -> Option<i128>
    requires { (u v : ℤ) → x ≡ Some u → y ≡ Some v → IsSmall (unsigned_abs u * unsigned_abs v) }
    ensures { result ≡ lift ◌*ℤ◌ x y }
{
    let x = x?;
    let y = y?;
    Some(multiplied(x, y))
}

/// The truncated quotient of two numbers.
fn divided(x: i128, y: i128) -> i128
    requires nonzero { y ≢ pos 0 }
    requires small { IsSmall (unsigned_abs x) }
    ensures { result ≡ int_div x y }
{
    x / y
}

/// The remainder of two numbers.
fn rest_of(x: i128, y: i128) -> i128
    requires nonzero { y ≢ pos 0 }
    requires small { IsSmall (unsigned_abs x) }
    ensures { result ≡ int_rem x y }
{
    x % y
}

/// The truncated quotient of two numbers, which is missing where the second is 0.
fn quotient_of(x: i128, y: i128) -> Option<i128>
    requires { IsSmall (unsigned_abs x) }
    ensures { result ≡ quotient x y }
{
    if y == 0 { None } else { Some(divided(x, y)) }
}

/// The remainder of two numbers, which is missing where the second is 0.
fn remainder_of(x: i128, y: i128) -> Option<i128>
    requires { IsSmall (unsigned_abs x) }
    ensures { result ≡ remainder x y }
{
    if y == 0 { None } else { Some(rest_of(x, y)) }
}

/// The truncated quotient of two numbers that may be missing.
pub fn quotient(x: Option<i128>, y: Option<i128>) -> Option<i128>
    requires { (u : ℤ) → x ≡ Some u → IsSmall (unsigned_abs u) }
    ensures { result ≡ bind quotient x y }
{
    let x = x?;
    let y = y?;
    quotient_of(x, y)
}

/// The remainder of two numbers that may be missing.
pub fn remainder(x: Option<i128>, y: Option<i128>) -> Option<i128>
    requires { (u : ℤ) → x ≡ Some u → IsSmall (unsigned_abs u) }
    ensures { result ≡ bind remainder x y }
{
    let x = x?;
    let y = y?;
    remainder_of(x, y)
}

/// The number with the other sign, if there is one.
pub fn negative(x: Option<i128>) -> Option<i128>
    requires { (u : ℤ) → x ≡ Some u → IsSmall (unsigned_abs u) }
    ensures { result ≡ lift1 neg_ℤ x }
{
    let x = x?;
    Some(negated(x))
}

/// The absolute value, if there is a number.
pub fn absolute_value(x: Option<i128>) -> Option<i128>
    requires { (u : ℤ) → x ≡ Some u → IsSmall (unsigned_abs u) }
    ensures { result ≡ lift1 (λ v. pos (unsigned_abs v)) x }
{
    let x = x?;
    Some(absolute(x))
}

/// The lesser of two numbers that may be missing.
pub fn least(x: Option<i128>, y: Option<i128>) -> Option<i128>
    ensures { result ≡ lift smaller x y }
{
    let x = x?;
    let y = y?;
    Some(lesser(x, y))
}

/// The greater of two numbers that may be missing.
pub fn greatest(x: Option<i128>, y: Option<i128>) -> Option<i128>
    ensures { result ≡ lift larger x y }
{
    let x = x?;
    let y = y?;
    Some(greater(x, y))
}

/// 1 for what is true and 0 for what is false.
pub fn truth(b: Option<bool>) -> Option<i128>
    ensures { result ≡ lift1 bit b }
{
    let b = b?;
    if b { Some(1) } else { Some(0) }
}

/// Whether both hold, where both are known.
pub fn both(x: Option<bool>, y: Option<bool>) -> Option<bool>
    ensures { result ≡ lift (λ b c. b && c) x y }
{
    let x = x?;
    let y = y?;
    Some(x && y)
}

/// Whether one of two holds, where both are known.
pub fn either(x: Option<bool>, y: Option<bool>) -> Option<bool>
    ensures { result ≡ lift (λ b c. b || c) x y }
{
    let x = x?;
    let y = y?;
    Some(x || y)
}

/// Whether both or none of two hold, where both are known.
pub fn same(x: Option<bool>, y: Option<bool>) -> Option<bool>
    ensures { result ≡ lift same x y }
{
    let x = x?;
    let y = y?;
    Some(if x { y } else { !y })
}

/// The opposite of a truth, where it is known.
pub fn opposite(x: Option<bool>) -> Option<bool>
    ensures { result ≡ lift1 not x }
{
    let x = x?;
    Some(!x)
}

/// How two numbers compare.
fn compare(op: Op, x: i128, y: i128) -> bool
    ensures { result ≡ op_relates op x y }
{
    match op {
        Op::Eq => x == y,
        Op::Ne => x != y,
        Op::Lt => x < y,
        Op::Le => x <= y,
        Op::Gt => y < x,
        Op::Ge => y <= x,
    }
}

/// How two numbers compare, where both are known.
pub fn compared(op: Op, x: Option<i128>, y: Option<i128>) -> Option<bool>
    ensures { result ≡ lift (op_relates op) x y }
{
    let x = x?;
    let y = y?;
    Some(compare(op, x, y))
}

/// True where a number is there.
pub fn known(x: Option<i128>) -> Option<bool>
    ensures { result ≡ lift1 (λ v. true) x }
{
    let _x = x?;
    Some(true)
}
