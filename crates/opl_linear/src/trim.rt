//! One tail of a set.
ghost use Rattle.std.specs.Prelude.{◌≡◌, ◌≢◌, ◌<◌, ◌≤◌, ◌^◌, true, pos, negsuc, int_div, ◌+ℤ◌, neg_ℤ, ◌*ℤ◌, ◌≤ℤ◌, ◌<ℤ◌, ◌*◌, unsigned_abs, length};
ghost use Rattle.opl_domain.specs.Family.{hull};
ghost use Rattle.opl_domain.specs.Span.{magnitude};
ghost use Rattle.opl_expr.specs.Sound.{IsSmall};
ghost use Rattle.opl_linear.specs.Linear.{least_product};
ghost use Rattle.opl_linear.specs.Trimming.{Reaches, Trims};

use opl_domain::{Narrow, View};

/// How far it is from one value to another.
fn width(lo: i64, hi: i64) -> i128
    ensures { result ≡ hi +ℤ neg_ℤ lo }
{
    hi as i128 - lo as i128
}

/// A whole quotient.
fn quotient(dividend: i128, divisor: i128) -> i128
    requires { pos 0 <ℤ divisor }
    ensures { result ≡ int_div dividend divisor }
{
    dividend / divisor
}

/// The number with the other sign.
pub fn negated(x: i128) -> i128
    requires { IsSmall (unsigned_abs x) }
    ensures { result ≡ neg_ℤ x }
{
    -x
}

/// The product of a factor and a value.
fn product(factor: i128, value: i64) -> i128
    requires { IsSmall (unsigned_abs factor * unsigned_abs value) }
    ensures { result ≡ factor *ℤ value }
{
    factor * value as i128
}

/// The product of a factor and a width.
fn extent(factor: i128, width: i128) -> i128
    requires { IsSmall (unsigned_abs factor * unsigned_abs width) }
    ensures { result ≡ factor *ℤ width }
{
    factor * width
}

/// Its product with the width of any set fits.
const FACTOR: i128 = 1 << 62;

/// Whether `factor` times the width of a set is at most the slack. It says so only of factors below 2^62, since for these a product
/// tells, which costs less than a quotient.
fn is_within(factor: i128, slack: i128, width: i128) -> bool
    requires factor { pos 0 <ℤ factor }
    requires width { unsigned_abs width ≤ 2 ^ 64 }
    ensures { result ≡ true → (factor *ℤ width) ≤ℤ slack }
{
    if factor >= FACTOR {
        return false;
    }
    extent(factor, width) <= slack
}

/// How many steps of `factor` are within the slack; none where all from `lo` to `hi` are.
fn reach(factor: i128, slack: i128, lo: i64, hi: i64) -> Option<i128>
    requires factor { pos 0 <ℤ factor }
    requires slack { pos 0 ≤ℤ slack }
    ensures { Reaches factor slack lo hi result }
{
    let whole = width(lo, hi);
    if is_within(factor, slack, whole) {
        return None;
    }
    let steps = quotient(slack, factor);
    if steps < whole { Some(steps) } else { None }
}

/// The value behind `lo` and `steps` more.
fn behind(lo: i64, steps: i128, hi: i64) -> i64
    requires least { pos 0 ≤ℤ steps }
    requires most { (lo +ℤ steps) <ℤ hi }
    ensures { result ≡ lo +ℤ steps +ℤ pos 1 }
{
    (lo as i128 + steps + 1) as i64
}

/// The value before `hi` and `steps` more.
fn before(hi: i64, steps: i128, lo: i64) -> i64
    requires least { pos 0 ≤ℤ steps }
    requires most { (lo +ℤ steps) <ℤ hi }
    ensures { result ≡ hi +ℤ neg_ℤ steps +ℤ negsuc 0 }
{
    (hi as i128 - steps - 1) as i64
}

/// Removes the values of `x` that are too great for a positive factor.
fn trim_up<N: Narrow>(n: &mut N, x: u32, factor: i128, slack: i128) -> bool
    requires there { x < length (N.family n.old) }
    requires factor { pos 0 <ℤ factor }
    requires slack { pos 0 ≤ℤ slack }
    ensures trims { Trims (N.family n.old) (N.family n.new) x factor slack result }
    ensures leads_to { N.leads_to n.old n.new }
{
    let lo = n.min(x);
    let hi = n.max(x);
    match reach(factor, slack, lo, hi) {
        None => false,
        Some(steps) => {
            n.cut(x, behind(lo, steps, hi), hi);
            true
        }
    }
}

/// Removes the values of `x` that are too small for a negative factor, whose opposite is `opposite`.
fn trim_down<N: Narrow>(n: &mut N, x: u32, factor: i128, slack: i128) -> bool
    requires there { x < length (N.family n.old) }
    requires factor { factor <ℤ pos 0 }
    requires small { IsSmall (unsigned_abs factor) }
    requires slack { pos 0 ≤ℤ slack }
    ensures trims { Trims (N.family n.old) (N.family n.new) x factor slack result }
    ensures leads_to { N.leads_to n.old n.new }
{
    let lo = n.min(x);
    let hi = n.max(x);
    match reach(negated(factor), slack, lo, hi) {
        None => false,
        Some(steps) => {
            n.cut(x, lo, before(hi, steps, lo));
            true
        }
    }
}

/// Removes the values of `x` that make the product with `factor` greater than its least value by more than the slack.
pub fn trim<N: Narrow>(n: &mut N, x: u32, factor: i128, slack: i128) -> bool
    requires there { x < length (N.family n.old) }
    requires some { factor ≢ pos 0 }
    requires small { IsSmall (unsigned_abs factor) }
    requires slack { pos 0 ≤ℤ slack }
    ensures trims { Trims (N.family n.old) (N.family n.new) x factor slack result }
    ensures leads_to { N.leads_to n.old n.new }
{
    if factor > 0 {
        trim_up(n, x, factor, slack)
    } else {
        trim_down(n, x, factor, slack)
    }
}

/// The least value of `factor` times a value of `x`.
pub fn least_product<V: View>(factor: i128, view: &V, x: u32) -> i128
    requires there { x < length (V.family view.now) }
    requires fits { IsSmall (unsigned_abs factor * magnitude (hull (V.family view.now) x)) }
    ensures { result ≡ least_product factor (hull (V.family view.now) x) }
{
    if factor >= 0 {
        product(factor, view.min(x))
    } else {
        product(factor, view.max(x))
    }
}
