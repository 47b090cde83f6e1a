ghost use Rattle.std.specs.Prelude.{◌≡◌, pos, ◌+ℤ◌, ◌-ℤ◌, ◌*ℤ◌};
ghost use Rattle.facts.specs.Sizes.{Sized, row_limit};
ghost use Rattle.linear.specs.Forms.{lowered, sum_row, zero_row};
ghost use Rattle.linear.specs.Rows.{listed, coefficient};

use facts::Row;
use std::array;
use theory::Factor;

// The row 0.
pub(crate) fn zero() -> Row
    ensures { result ≡ zero_row }
{
    Row::new(0, [0; 32]).unwrap()
}

// A number of a row and a multiple of another. The bounds are asked here: a type of a row's numbers
// would be taken apart at every sum.
fn sum_number(a: i64, factor: Factor, b: i64) -> i64
    requires left { Sized row_limit a }
    requires right { Sized row_limit b }
    ensures { result ≡ a +ℤ (factor.value *ℤ b) }
{
    a + i64::from(factor.value()) * b
}

// The coefficients of a row and a multiple of another.
fn sum_coefficients(a: &Row, factor: Factor, b: &Row) -> [i64; 32]
    ensures { result ≡ listed (λ k. coefficient a.now k +ℤ (factor.value *ℤ coefficient b.now k)) }
{
    let left = a.coefficients();
    let right = b.coefficients();
    array::from_fn(|k| sum_number(left[k], factor, right[k]))
}

// The row a and a multiple of b, if its numbers fit.
pub(crate) fn sum(a: &Row, factor: Factor, b: &Row) -> Option<Row>
    ensures { result ≡ sum_row a.now factor.value b.now }
{
    let constant = sum_number(a.constant(), factor, b.constant());
    Row::new(constant, sum_coefficients(a, factor, b))
}

// The row minus 1, if its constant fits.
pub(crate) fn lower(row: &Row) -> Option<Row>
    ensures { result ≡ lowered row.now }
{
    Row::new(row.constant() - 1, *row.coefficients())
}
