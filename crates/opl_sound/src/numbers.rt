//! Magnitudes that may be missing: one is missing where it is too great, or where a part of it is missing.
ghost use Rattle.std.specs.Prelude.{◌≡◌, ◌+◌, ◌*◌};
ghost use Rattle.opl_sound.specs.Measures.{small, is_some, added, multiplied, at_least_one, greater, first, one_if, only_if, comparable};

/// No magnitude is greater than this less 1.
const LIMIT: u128 = 1 << 127;

/// A magnitude, unless it is too great.
#[tactic(auto, unfolding(crate::specs::Measures::small))]
pub fn small(n: u128) -> Option<u128>
    ensures { result ≡ small n }
{
    if n < LIMIT { Some(n) } else { None }
}

/// The sum of two magnitudes, unless it is too great.
#[tactic(auto, unfolding(crate::specs::Measures::small))]
fn sum_of(m: u128, n: u128) -> Option<u128>
    ensures { result ≡ small (m + n) }
{
    small(m.checked_add(n)?)
}

/// The product of two magnitudes, unless it is too great.
#[tactic(auto, unfolding(crate::specs::Measures::small))]
fn product_of(m: u128, n: u128) -> Option<u128>
    ensures { result ≡ small (m * n) }
{
    small(m.checked_mul(n)?)
}

/// The sum of two magnitudes, unless it is too great.
pub fn added(m: Option<u128>, n: Option<u128>) -> Option<u128>
    ensures { result ≡ added m n }
{
    let m = m?;
    let n = n?;
    sum_of(m, n)
}

/// The product of two magnitudes, unless it is too great.
pub fn multiplied(m: Option<u128>, n: Option<u128>) -> Option<u128>
    ensures { result ≡ multiplied m n }
{
    let m = m?;
    let n = n?;
    product_of(m, n)
}

/// A magnitude, and at least 1.
pub fn at_least_one(n: Option<u128>) -> Option<u128>
    ensures { result ≡ at_least_one n }
{
    let n = n?;
    Some(if n < 1 { 1 } else { n })
}

/// The greater of two magnitudes.
pub fn greater(m: Option<u128>, n: Option<u128>) -> Option<u128>
    ensures { result ≡ greater m n }
{
    let m = m?;
    let n = n?;
    Some(if m < n { n } else { m })
}

/// The first of two magnitudes.
pub fn first(m: Option<u128>, n: Option<u128>) -> Option<u128>
    ensures { result ≡ first m n }
{
    let m = m?;
    let _n = n?;
    Some(m)
}

/// Whether a magnitude is there.
pub fn is_there(n: Option<u128>) -> bool
    ensures { result ≡ is_some n }
{
    match n {
        None => false,
        Some(_n) => true,
    }
}

/// 1 where it is so.
pub fn one_if(b: bool) -> Option<u128>
    ensures { result ≡ one_if b }
{
    if b { Some(1) } else { None }
}

/// A magnitude where it is so.
pub fn only_if(b: bool, n: Option<u128>) -> Option<u128>
    ensures { result ≡ only_if b n }
{
    if b { n } else { None }
}

/// The greater of two magnitudes whose sum isn't too great.
pub fn comparable(m: Option<u128>, n: Option<u128>) -> Option<u128>
    ensures { result ≡ comparable m n }
{
    if is_there(added(m, n)) {
        greater(m, n)
    } else {
        None
    }
}
