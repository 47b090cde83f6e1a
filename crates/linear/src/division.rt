ghost use Rattle.std.specs.Prelude.{pos, ◌≤ℤ◌};
ghost use Rattle.linear.specs.Division.{Floored};

// The quotient of a by b, rounded down, and the rest: together, as docs/DECISIONS.md has it.
pub(crate) fn floor_div(a: i64, b: i64) -> (i64, i64)
    requires { pos 1 ≤ℤ b }
    ensures { Floored a b result.0 result.1 }
{
    (a.div_euclid(b), a.rem_euclid(b))
}
