//! Sums and products that fit.
ghost use Rattle.std.specs.Prelude.{◌≡◌, ◌+◌, ◌*◌, ◌+ℤ◌, ◌*ℤ◌, neg_ℤ, unsigned_abs};
ghost use Rattle.opl_expr.specs.Sound.{IsSmall};

/// The sum of two numbers.
pub fn added(x: i128, y: i128) -> i128
    requires { IsSmall (unsigned_abs x + unsigned_abs y) }
    ensures { result ≡ x +ℤ y }
{
    x + y
}

/// The first number less the second.
pub fn less(x: i128, y: i128) -> i128
    requires { IsSmall (unsigned_abs x + unsigned_abs y) }
    ensures { result ≡ x +ℤ neg_ℤ y }
{
    x - y
}

/// The product of a factor and a value.
pub fn product(factor: i128, value: i64) -> i128
    requires { IsSmall (unsigned_abs factor * unsigned_abs value) }
    ensures { result ≡ factor *ℤ value }
{
    factor * value as i128
}
