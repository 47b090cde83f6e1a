ghost use Rattle.std.specs.Prelude.{◌≡◌, pos, Decides, MatchOption, slice_index_or};
ghost use Rattle.std.specs.List.{All};
ghost use Rattle.facts.specs.Sizes.{Sized, AllSized, row_limit};

use super::Row;
use crate::name::Name;

// The largest size of a number in a row.
pub const ROW_LIMIT: i64 = 1_000_000_000_000;

// Whether a number is small enough for a row.
fn fits(number: i64) -> bool
    ensures { Decides result (Sized row_limit number) }
{
    (-ROW_LIMIT..=ROW_LIMIT).contains(&number)
}

// Inlined, as `Row::new` is: of a row that is known nothing is left to test, and one that is made is
// not copied on its way to the caller.
#[inline(always)]
fn all_fit(numbers: &[i64; 32]) -> bool
    ensures { Decides result (All (Sized row_limit) numbers.now) }
{
    numbers.iter().all(|number| fits(*number))
}

impl Row {
    // The row with these numbers, or none if one of them is above the limit in size.
    #[inline(always)]
    pub fn new(constant: i64, coefficients: [i64; 32]) -> Option<Row>
        ensures { MatchOption result (Sized row_limit constant → AllSized row_limit coefficients → ⊥) (λ row. (row.constant ≡ constant) × (row.coefficients ≡ coefficients)) }
    {
        if fits(constant) && all_fit(&coefficients) {
            Some(Row {
                constant,
                coefficients,
            })
        } else {
            None
        }
    }

    // The row with these numbers, which are known to be small enough.
    pub(crate) fn within(constant: i64, coefficients: [i64; 32]) -> Row
        requires sized { Sized row_limit constant }
        requires all_sized { AllSized row_limit coefficients }
        ensures { (result.constant ≡ constant) × (result.coefficients ≡ coefficients) }
    {
        Row {
            constant,
            coefficients,
        }
    }

    pub fn constant(&self) -> i64
        ensures { result ≡ self.now.constant }
    {
        self.constant
    }

    // The coefficients, by the names' indices.
    pub fn coefficients(&self) -> &[i64; 32]
        ensures { result.now ≡ self.now.coefficients }
    {
        &self.coefficients
    }

    // The coefficient of a name; 0 if the row does not have it.
    pub fn coefficient(&self, name: Name) -> i64
        ensures { result ≡ slice_index_or self.now.coefficients name.index (pos 0) }
    {
        self.coefficients[usize::from(name)]
    }
}
