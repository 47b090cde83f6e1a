ghost use Rattle.std.specs.Prelude.{◌≡◌, MatchOption};
ghost use Rattle.facts.specs.Sizes.{Sized};

use super::Factor;

// The largest size of a factor.
pub const FACTOR_LIMIT: i32 = 1_000_000;

impl Factor {
    // The factor with this value, or none if it is above the limit in size. A `TryFrom` could say no
    // more in its error.
    pub fn new(value: i32) -> Option<Factor>
        ensures { MatchOption result (Sized 1_000_000 value → ⊥) (λ f. f.value ≡ value) }
    {
        if (-FACTOR_LIMIT..=FACTOR_LIMIT).contains(&value) {
            Some(Factor { value })
        } else {
            None
        }
    }

    pub fn value(self) -> i32
        ensures value { result ≡ self.value }
        ensures bound { Sized 1_000_000 result }
    {
        self.value
    }
}
