ghost use Rattle.linear.specs.Content.{Content};

use crate::gcd::gcd;

// The greatest common divisor of the sizes of all coefficients; 0 if all are 0.
pub(crate) fn content(coefficients: &[i64; 32]) -> u64
    ensures { Content coefficients.now result }
{
    coefficients.iter().fold(
        0,
        |divisor, coefficient| gcd(divisor, coefficient.unsigned_abs()),
    )
}
