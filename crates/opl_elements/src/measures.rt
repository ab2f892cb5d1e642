//! Numbers by which forms are measured.
ghost use Rattle.std.specs.Prelude.{◌≡◌, max};

/// Magnitudes stay below this number.
pub const CAP: u128 = 1 << 127;

/// The greater of two depths.
pub fn greater(left: u32, right: u32) -> u32
    ensures { result ≡ max left right }
{
    if left < right { right } else { left }
}

/// The greater of two magnitudes.
pub fn larger(left: u128, right: u128) -> u128
    ensures { result ≡ max left right }
{
    if left < right { right } else { left }
}
