//! Arithmetic of intervals that may be missing: a result is missing where a part of it is.
ghost use Rattle.std.specs.Prelude.{◌≡◌, ◌+◌, ◌*◌, ◌&&◌, ℤ, pos, cond, unsigned_abs, int_le, int_lt, true, false, Some};
ghost use Rattle.opl_domain.specs.Span.{Span, magnitude, point, is_point};
ghost use Rattle.opl_domain.specs.Arithmetic.{span_add, span_neg, span_mul, span_div, span_rem, span_abs, span_min, span_max, span_hull};
ghost use Rattle.opl_expr.specs.Options.{lift, lift1, bind, bind1, combined};
ghost use Rattle.opl_expr.specs.Range.{flip, same_truth, span_scale, verdict, is_possible, misses_zero};
ghost use Rattle.opl_expr.specs.Sound.{IsSmall};
ghost use Rattle.opl_range.specs.Magnitudes.{IsTruth};

use opl_domain::Interval;

/// The interval scaled by a number.
pub fn scaled(k: i128, a: Interval) -> Interval
    requires { IsSmall (unsigned_abs k * magnitude a) }
    ensures { result ≡ span_scale k a }
{
    Interval::point(k).mul(a)
}

/// The sums of a number of each.
pub fn sum(a: Option<Interval>, b: Option<Interval>) -> Option<Interval>
    requires { (u v : Span) → a ≡ Some u → b ≡ Some v → IsSmall (magnitude u + magnitude v) }
    ensures { result ≡ lift span_add a b }
{
    let a = a?;
    let b = b?;
    Some(a.add(b))
}

/// The numbers with the other sign.
pub fn negative(a: Option<Interval>) -> Option<Interval>
    requires { (u : Span) → a ≡ Some u → IsSmall (magnitude u) }
    ensures { result ≡ lift1 span_neg a }
{
    let a = a?;
    Some(a.neg())
}

/// The interval scaled by a number.
pub fn multiple(k: i128, a: Option<Interval>) -> Option<Interval>
    requires { (u : Span) → a ≡ Some u → IsSmall (unsigned_abs k * magnitude u) }
    ensures { result ≡ lift1 (span_scale k) a }
{
    let a = a?;
    Some(scaled(k, a))
}

/// The hull of the products of a number of each.
pub fn product(a: Option<Interval>, b: Option<Interval>) -> Option<Interval>
    requires { (u v : Span) → a ≡ Some u → b ≡ Some v → IsSmall (magnitude u * magnitude v) }
    ensures { result ≡ lift span_mul a b }
{
    let a = a?;
    let b = b?;
    Some(a.mul(b))
}

/// The hull of the truncated quotients, which is missing where 0 is the only divisor.
pub fn quotient(a: Option<Interval>, b: Option<Interval>) -> Option<Interval>
    requires own { (u : Span) → a ≡ Some u → IsSmall (magnitude u) }
    requires others { (v : Span) → b ≡ Some v → IsSmall (magnitude v) }
    ensures { result ≡ bind span_div a b }
{
    let a = a?;
    let b = b?;
    a.div(b)
}

/// Bounds of the remainders, which are missing where 0 is the only divisor.
pub fn remainder(a: Option<Interval>, b: Option<Interval>) -> Option<Interval>
    requires own { (u : Span) → a ≡ Some u → IsSmall (magnitude u) }
    requires others { (v : Span) → b ≡ Some v → IsSmall (magnitude v) }
    ensures { result ≡ bind span_rem a b }
{
    let a = a?;
    let b = b?;
    a.rem(b)
}

/// The hull of the absolute values.
pub fn absolute_value(a: Option<Interval>) -> Option<Interval>
    requires { (u : Span) → a ≡ Some u → IsSmall (magnitude u) }
    ensures { result ≡ bind1 span_abs a }
{
    let a = a?;
    Some(a.abs())
}

/// The lesser ones of a number of each.
pub fn least(a: Option<Interval>, b: Option<Interval>) -> Option<Interval>
    ensures { result ≡ lift span_min a b }
{
    let a = a?;
    let b = b?;
    Some(a.min(b))
}

/// The greater ones of a number of each.
pub fn greatest(a: Option<Interval>, b: Option<Interval>) -> Option<Interval>
    ensures { result ≡ lift span_max a b }
{
    let a = a?;
    let b = b?;
    Some(a.max(b))
}

/// A copy of an interval that may be missing.
pub fn copied(a: &Option<Interval>) -> Option<Interval>
    ensures { result ≡ a.now }
{
    match a {
        None => None,
        Some(a) => Some(*a),
    }
}

/// The hull with an interval that may be missing.
pub fn joined(a: Interval, b: Option<Interval>) -> Interval
    ensures { result ≡ combined span_hull a b }
{
    match b {
        None => a,
        Some(b) => a.hull(b),
    }
}

/// 1 for what is true and 0 for what is false.
pub fn truth(b: bool) -> Interval
    ensures { result ≡ point (cond b (pos 1) (pos 0)) }
{
    if b {
        Interval::point(1)
    } else {
        Interval::point(0)
    }
}

/// True where `surely`, false where `never`, and else open.
pub fn verdict(surely: bool, never: bool) -> Interval
    requires { surely ≡ true → never ≡ false }
    ensures { result ≡ verdict surely never }
{
    if surely {
        Interval::point(1)
    } else if never {
        Interval::point(0)
    } else {
        Interval::new(0, 1)
    }
}

/// The range of being at most 0.
pub fn at_most_zero(a: Interval) -> Interval
    ensures { result ≡ verdict (int_le a.high (pos 0)) (int_lt (pos 0) a.low) }
{
    let (low, high) = (a.lo(), a.hi());
    verdict(high <= 0, low > 0)
}

/// The range of being below 0.
pub fn below_zero(a: Interval) -> Interval
    ensures { result ≡ verdict (int_lt a.high (pos 0)) (int_le (pos 0) a.low) }
{
    let (low, high) = (a.lo(), a.hi());
    verdict(high < 0, low >= 0)
}

/// 1 minus a truth, end by end.
fn flipped(a: Interval) -> Interval
    requires { IsTruth a }
    ensures { result ≡ flip a }
{
    Interval::new(1 - a.hi(), 1 - a.lo())
}

/// 1 minus a truth, end by end.
pub fn opposite(a: Option<Interval>) -> Option<Interval>
    requires { (u : Span) → a ≡ Some u → IsTruth u }
    ensures { result ≡ lift1 flip a }
{
    let a = a?;
    Some(flipped(a))
}

/// Whether the interval has one number alone, `k`.
pub fn is_point(k: i128, a: Interval) -> bool
    ensures { result ≡ is_point k a }
{
    a.lo() == k && a.hi() == k
}

/// Whether `k` is the only number of `a`, and `l` that of `b`.
fn are_points(k: i128, a: Interval, l: i128, b: Interval) -> bool
    ensures { result ≡ (is_point k a && is_point l b) }
{
    is_point(k, a) && is_point(l, b)
}

/// Whether both are fixed and equal, or fixed and unequal.
fn agree(a: Interval, b: Interval) -> Interval
    ensures { result ≡ same_truth a b }
{
    let equal = are_points(1, a, 1, b) | are_points(0, a, 0, b);
    let unequal = are_points(1, a, 0, b) | are_points(0, a, 1, b);
    verdict(equal, unequal)
}

/// True where both are fixed and equal, false where both are fixed and unequal, and else open.
pub fn same(a: Option<Interval>, b: Option<Interval>) -> Option<Interval>
    ensures { result ≡ lift same_truth a b }
{
    let a = a?;
    let b = b?;
    Some(agree(a, b))
}

/// True where an interval is there.
pub fn known(a: Option<Interval>) -> Option<Interval>
    ensures { result ≡ lift1 (λ u. point (pos 1)) a }
{
    let _a = a?;
    Some(Interval::point(1))
}

/// Whether 0 isn't in the interval.
pub fn misses_zero(a: Interval) -> bool
    ensures { result ≡ misses_zero a }
{
    a.lo() > 0 || a.hi() < 0
}

/// Whether the range allows a constraint to hold: it is neither missing nor 0 alone.
pub fn is_possible(a: Option<Interval>) -> bool
    ensures { result ≡ is_possible a }
{
    match a {
        None => false,
        Some(a) => !is_point(0, a),
    }
}
