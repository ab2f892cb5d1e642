//! Sums and products that fit.
ghost use Rattle.std.specs.Prelude.{◌≡◌, ◌+◌, ◌*◌, ◌+ℤ◌, ◌*ℤ◌, neg_ℤ, unsigned_abs};
ghost use Rattle.opl_expr.specs.Sound.{IsSmall};

/// The sum of two numbers.
pub fn added(x: i128, y: i128) -> i128
    requires { IsSmall (unsigned_abs x + unsigned_abs y) }
    ensures { result ≡ x +ℤ y }
{
    x + y
}

/// The first number less the second.
pub fn less(x: i128, y: i128) -> i128
    requires { IsSmall (unsigned_abs x + unsigned_abs y) }
    ensures { result ≡ x +ℤ neg_ℤ y }
{
    x - y
}

/// The product of two numbers.
pub fn multiplied(x: i128, y: i128) -> i128
    requires { IsSmall (unsigned_abs x * unsigned_abs y) }
    ensures { result ≡ x *ℤ y }
{
    x * y
}

/// The number with the other sign.
pub fn negated(x: i128) -> i128
    requires { IsSmall (unsigned_abs x) }
    ensures { result ≡ neg_ℤ x }
{
    -x
}
