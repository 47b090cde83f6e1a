ghost use Rattle.linear.specs.Gcd.{Greatest};

// The greatest common divisor of a and b; of 0 and 0 it is 0.
pub(crate) fn gcd(a: u64, b: u64) -> u64
    ensures { Greatest a b result }
{
    if b == 0 { a } else { gcd(b, a % b) }
}
