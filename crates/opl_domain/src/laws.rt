//! That the arithmetic of intervals is exact. Each law is the contract of a function without effect.
ghost use Rattle.opl_domain.specs.Laws.{AddIsExact, NegIsExact, MulIsExact, MinIsExact, MaxIsExact, HullIsLeast, AbsIsExact, DivIsExact, RemIsSound};

/// The interval of sums holds all sums, and both its ends are sums.
pub fn sums_are_exact()
    ensures { AddIsExact }
{}

/// The interval of negated numbers holds all of them, and both its ends are such.
pub fn negations_are_exact()
    ensures { NegIsExact }
{}

/// The interval of products holds all products, and both its ends are products.
pub fn products_are_exact()
    ensures { MulIsExact }
{}

/// The interval of lesser numbers holds all of them, and both its ends are such.
pub fn minima_are_exact()
    ensures { MinIsExact }
{}

/// The interval of greater numbers holds all of them, and both its ends are such.
pub fn maxima_are_exact()
    ensures { MaxIsExact }
{}

/// The hull holds both intervals, and each of its ends is an end of one.
pub fn hulls_are_least()
    ensures { HullIsLeast }
{}

/// The interval of absolute values holds all of them, and both its ends are such.
pub fn absolute_values_are_exact()
    ensures { AbsIsExact }
{}

/// The interval of quotients holds all quotients, both its ends are quotients, and it is missing exactly where 0 is the only divisor.
pub fn quotients_are_exact()
    ensures { DivIsExact }
{}

/// The interval of remainders holds all of them, and is missing exactly where 0 is the only divisor.
pub fn remainders_are_sound()
    ensures { RemIsSound }
{}
