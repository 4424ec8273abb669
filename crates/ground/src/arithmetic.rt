// The arithmetic of integers. Every operand and every result has a magnitude of at most 2147483647.
ghost use Rattle.std.specs.Prelude.{◌≡◌};
ghost use Rattle.ground.specs.Arithmetic.{IsInRange, in_range as ranged, sum, difference, product, quotient, remainder, power as raised};

use crate::Trap;

const GREATEST: i64 = 2_147_483_647;

/// The sum, or Overflow (X3.9-1966, section 6.1).
pub fn add(a: i64, b: i64) -> Result<i64, Trap>
    requires first { IsInRange a }
    requires second { IsInRange b }
    ensures { result ≡ sum a b }
{
    in_range(a + b)
}

/// The difference, or Overflow.
pub fn sub(a: i64, b: i64) -> Result<i64, Trap>
    requires first { IsInRange a }
    requires second { IsInRange b }
    ensures { result ≡ difference a b }
{
    in_range(a - b)
}

/// The product, or Overflow.
pub fn mul(a: i64, b: i64) -> Result<i64, Trap>
    requires first { IsInRange a }
    requires second { IsInRange b }
    ensures { result ≡ product a b }
{
    in_range(a * b)
}

/// The quotient, truncated toward zero, or Division.
pub fn div(a: i64, b: i64) -> Result<i64, Trap>
    requires first { IsInRange a }
    requires second { IsInRange b }
    ensures { result ≡ quotient a b }
{
    if b == 0 {
        return Err(Trap::Division);
    }
    in_range(a / b)
}

/// The exact power, or Overflow; Power where the exponent is negative or zero is raised to zero.
pub fn power(a: i64, b: i64) -> Result<i64, Trap>
    requires first { IsInRange a }
    requires second { IsInRange b }
    ensures { result ≡ raised a b }
{
    if b < 0 || a == 0 && b == 0 {
        return Err(Trap::Power);
    }
    match a.checked_pow(b as u32) {
        Some(exact) => in_range(exact),
        None => Err(Trap::Overflow),
    }
}

/// What division leaves, with the sign of the dividend, or Division: the intrinsic MOD.
pub fn modulo(a: i64, b: i64) -> Result<i64, Trap>
    requires first { IsInRange a }
    requires second { IsInRange b }
    ensures { result ≡ remainder a b }
{
    if b == 0 {
        return Err(Trap::Division);
    }
    in_range(a % b)
}

fn in_range(exact: i64) -> Result<i64, Trap>
    ensures { result ≡ ranged exact }
{
    if exact < -GREATEST || GREATEST < exact {
        return Err(Trap::Overflow);
    }
    Ok(exact)
}
