//! Intervals of whole numbers, with the arithmetic of the ranges of expressions.
ghost use Rattle.std.specs.Prelude.{◌≡◌, ◌+◌, ◌*◌, ◌^◌, ◌<◌, ◌≢◌, ◌≤ℤ◌, ◌*ℤ◌, neg_ℤ, unsigned_abs, false, Some, int_div, int_rem, pos, [], ◌∷◌};
ghost use Rattle.opl_domain.specs.Span.{point, is_point, smaller, larger, magnitude, hull_of};
ghost use Rattle.opl_domain.specs.Arithmetic.{span_add, span_neg, span_mul, span_min, span_max, span_hull, span_abs, span_div, span_rem, is_divisor, joined_to, with_quotients, is_one_quotient, greatest_rest, low_rest, high_rest, wide_rem};

use std::marker::Model;

/// The whole numbers from `lo` to `hi`; `lo` is at most `hi`.
#[derive(Clone, Copy)]
pub struct Interval {
    lo: i128,
    hi: i128,
}

impl Model for Interval {
    ghost use Rattle.std.specs.Prelude.{◌≤ℤ◌};
    ghost use Rattle.opl_domain.specs.Span.{Span};

    ghost Value = { Span };

    ghost view = { λ a. record { low = a.lo; high = a.hi } };

    ghost invariant = { λ a. a.lo ≤ℤ a.hi };

    ghost inverse = { λ d. record { lo = d.low; hi = d.high } };
}

/// The lesser of two numbers.
fn lesser(x: i128, y: i128) -> i128
    ensures { result ≡ smaller x y }
{
    if x <= y { x } else { y }
}

/// The greater of two numbers.
fn greater(x: i128, y: i128) -> i128
    ensures { result ≡ larger x y }
{
    if x <= y { y } else { x }
}

/// The product of two numbers whose absolute values are small enough.
fn product(x: i128, y: i128) -> i128
    requires { unsigned_abs x * unsigned_abs y < 2 ^ 127 }
    ensures { result ≡ x *ℤ y }
{
    x * y
}

/// The truncated quotient of two numbers.
fn quotient(x: i128, y: i128) -> i128
    requires nonzero { y ≢ pos 0 }
    requires fits { unsigned_abs x < 2 ^ 127 }
    ensures { result ≡ int_div x y }
{
    x / y
}

/// The remainder of two numbers, with the sign of the first.
fn remainder(x: i128, y: i128) -> i128
    requires nonzero { y ≢ pos 0 }
    requires fits { unsigned_abs x < 2 ^ 127 }
    ensures { result ≡ int_rem x y }
{
    x % y
}

/// The number with the other sign.
fn negated(x: i128) -> i128
    requires { unsigned_abs x < 2 ^ 127 }
    ensures { result ≡ neg_ℤ x }
{
    -x
}

/// The absolute value of a number.
fn absolute(x: i128) -> i128
    requires { unsigned_abs x < 2 ^ 127 }
    ensures { result ≡ pos (unsigned_abs x) }
{
    if x < 0 { negated(x) } else { x }
}

/// The low end of the remainders of numbers from `lo` on, none of which is above `most` in absolute value.
fn low_rest(lo: i128, most: i128) -> i128
    requires sign { pos 0 ≤ℤ most }
    requires fits { unsigned_abs most < 2 ^ 127 }
    ensures value { result ≡ low_rest lo most }
    ensures sign { result ≤ℤ pos 0 }
{
    if lo >= 0 {
        0
    } else {
        greater(lo, negated(most))
    }
}

/// The high end of the remainders of numbers up to `hi`, none of which is above `most` in absolute value.
fn high_rest(hi: i128, most: i128) -> i128
    requires { pos 0 ≤ℤ most }
    ensures value { result ≡ high_rest hi most }
    ensures sign { pos 0 ≤ℤ result }
{
    if hi <= 0 { 0 } else { lesser(hi, most) }
}

/// The hull of four numbers.
fn hull_of_four(p: i128, q: i128, r: i128, s: i128) -> Interval
    ensures { result ≡ hull_of (p ∷ q ∷ r ∷ s ∷ []) }
{
    Interval::new(
        lesser(p, lesser(q, lesser(r, s))),
        greater(p, greater(q, greater(r, s))),
    )
}

impl Interval {
    /// The numbers from `lo` to `hi`.
    pub fn new(lo: i128, hi: i128) -> Interval
        requires { lo ≤ℤ hi }
        ensures { result ≡ record { low = lo; high = hi } }
    {
        Interval { lo, hi }
    }

    /// The number `v` alone.
    pub fn point(v: i128) -> Interval
        ensures { result ≡ point v }
    {
        Interval { lo: v, hi: v }
    }

    /// The least number.
    pub fn lo(self) -> i128
        ensures value { result ≡ self.low }
        ensures ordered { self.low ≤ℤ self.high }
    {
        self.lo
    }

    /// The greatest number.
    pub fn hi(self) -> i128
        ensures value { result ≡ self.high }
        ensures ordered { self.low ≤ℤ self.high }
    {
        self.hi
    }

    /// The sums of a number of each.
    pub fn add(self, other: Interval) -> Interval
        requires { magnitude self + magnitude other < 2 ^ 127 }
        ensures { result ≡ span_add self other }
    {
        Interval::new(self.lo() + other.lo(), self.hi() + other.hi())
    }

    /// The numbers with the other sign.
    pub fn neg(self) -> Interval
        requires { magnitude self < 2 ^ 127 }
        ensures { result ≡ span_neg self }
    {
        Interval::new(negated(self.hi()), negated(self.lo()))
    }

    /// The hull of the products of a number of each.
    pub fn mul(self, other: Interval) -> Interval
        requires { magnitude self * magnitude other < 2 ^ 127 }
        ensures { result ≡ span_mul self other }
    {
        let (low, high) = (self.lo(), self.hi());
        let (least, most) = (other.lo(), other.hi());
        hull_of_four(
            product(low, least),
            product(low, most),
            product(high, least),
            product(high, most),
        )
    }

    /// The lesser ones of a number of each.
    pub fn min(self, other: Interval) -> Interval
        ensures { result ≡ span_min self other }
    {
        Interval::new(lesser(self.lo(), other.lo()), lesser(self.hi(), other.hi()))
    }

    /// The greater ones of a number of each.
    pub fn max(self, other: Interval) -> Interval
        ensures { result ≡ span_max self other }
    {
        Interval::new(
            greater(self.lo(), other.lo()),
            greater(self.hi(), other.hi()),
        )
    }

    /// The least interval that holds both.
    pub fn hull(self, other: Interval) -> Interval
        ensures { result ≡ span_hull self other }
    {
        Interval::new(
            lesser(self.lo(), other.lo()),
            greater(self.hi(), other.hi()),
        )
    }

    /// The hull of the absolute values of all its numbers.
    pub fn abs(self) -> Interval
        requires { magnitude self < 2 ^ 127 }
        ensures { Some result ≡ span_abs self }
    {
        let (low, high) = (self.lo(), self.hi());
        if low >= 0 {
            return self;
        }
        if high <= 0 {
            return Interval::new(negated(high), negated(low));
        }
        Interval::new(0, greater(negated(low), high))
    }

    /// Whether `y` is one of its numbers, and not 0.
    fn is_divisor(self, y: i128) -> bool
        ensures { result ≡ is_divisor self y }
    {
        y != 0 && self.lo() <= y && y <= self.hi()
    }

    /// The hull with an interval that may be missing.
    fn joined_to(self, other: Option<Interval>) -> Interval
        ensures { result ≡ joined_to self other }
    {
        match other {
            None => self,
            Some(other) => self.hull(other),
        }
    }

    /// The quotients `found` so far, with those of both ends by `y`, where `y` is a divisor of `other`.
    fn with_quotients(self, other: Interval, y: i128, found: Option<Interval>) -> Option<Interval>
        requires { magnitude self < 2 ^ 127 }
        ensures { result ≡ with_quotients self other y found }
    {
        if !other.is_divisor(y) {
            return found;
        }
        let first = Interval::point(quotient(self.lo(), y));
        let last = Interval::point(quotient(self.hi(), y));
        Some(first.hull(last).joined_to(found))
    }

    /// The hull of the truncated quotients of its numbers by those of `other` but 0. None comes exactly where `other` has only 0.
    pub fn div(self, other: Interval) -> Option<Interval>
        requires own { magnitude self < 2 ^ 127 }
        requires others { magnitude other < 2 ^ 127 }
        ensures { result ≡ span_div self other }
    {
        let (low, high) = (other.lo(), other.hi());
        let _ = self.lo();
        let by_minus_one = self.with_quotients(other, -1, None);
        let by_one = self.with_quotients(other, 1, by_minus_one);
        let by_high = self.with_quotients(other, high, by_one);
        self.with_quotients(other, low, by_high)
    }

    /// Whether 0 is its only number.
    fn is_zero(self) -> bool
        ensures { result ≡ is_point (pos 0) self }
    {
        self.lo() == 0 && self.hi() == 0
    }

    /// Whether `other` has one number, and both ends have the same quotient by it.
    fn is_one_quotient(self, other: Interval) -> bool
        requires fits { magnitude self < 2 ^ 127 }
        requires nonzero { is_point (pos 0) other ≡ false }
        ensures { result ≡ is_one_quotient self other }
    {
        let divisor = other.lo();
        if divisor != other.hi() {
            return false;
        }
        quotient(self.lo(), divisor) == quotient(self.hi(), divisor)
    }

    /// The greatest absolute value.
    fn greatest_absolute(self) -> i128
        requires { magnitude self < 2 ^ 127 }
        ensures { result ≡ pos (magnitude self) }
    {
        greater(absolute(self.lo()), absolute(self.hi()))
    }

    /// One less than the greatest absolute value.
    fn greatest_rest(self) -> i128
        requires fits { magnitude self < 2 ^ 127 }
        requires nonzero { 0 < magnitude self }
        ensures value { result ≡ greatest_rest self }
        ensures sign { pos 0 ≤ℤ result }
        ensures small { unsigned_abs result < 2 ^ 127 }
    {
        self.greatest_absolute() - 1
    }

    /// The remainders, as far as the signs and sizes of both intervals bound them.
    fn wide_rem(self, other: Interval) -> Interval
        requires fits { magnitude other < 2 ^ 127 }
        requires nonzero { 0 < magnitude other }
        ensures { result ≡ wide_rem self other }
    {
        let greatest = other.greatest_rest();
        let low = low_rest(self.lo(), greatest);
        Interval::new(low, high_rest(self.hi(), greatest))
    }

    /// Bounds of the remainders of its numbers by those of `other` but 0; both ends are remainders where there is one
    /// divisor and one quotient. None comes exactly where `other` has only 0.
    pub fn rem(self, other: Interval) -> Option<Interval>
        requires own { magnitude self < 2 ^ 127 }
        requires others { magnitude other < 2 ^ 127 }
        ensures { result ≡ span_rem self other }
    {
        if other.is_zero() {
            return None;
        }
        if !self.is_one_quotient(other) {
            return Some(self.wide_rem(other));
        }
        let divisor = other.lo();
        Some(Interval::new(remainder(self.lo(), divisor), remainder(self.hi(), divisor)))
    }
}
