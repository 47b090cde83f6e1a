ghost use Rattle.std.specs.Prelude.{◌≡◌, ℤ, pos, ◌≤ℤ◌};
ghost use Rattle.linear.specs.Cut.{Cut, Keeps, Quotients};
ghost use Rattle.linear.specs.Division.{Floored};
ghost use Rattle.linear.specs.Forms.{cut_row};

use crate::content::content;
use crate::division::floor_div;
use facts::Row;
use std::array;

// The quotient of a number, rounded down.
fn quotient(number: i64, by: i64) -> i64
    requires { pos 1 ≤ℤ by }
    ensures { (rest : ℤ) × Floored number by result rest }
{
    floor_div(number, by).0
}

// Each number's quotient.
fn quotients(numbers: &[i64; 32], by: i64) -> [i64; 32]
    requires { pos 1 ≤ℤ by }
    ensures { Quotients numbers.now by result }
{
    array::from_fn(|k| quotient(numbers[k], by))
}

// The row divided by the content of its coefficients, its constant rounded down; none if no name
// is left in it. The numbers only get smaller, so the row can be made.
pub(crate) fn cut(row: &Row) -> Option<Row>
    ensures made { result ≡ cut_row row.now }
    ensures which { Cut row.now result }
    ensures sound { Keeps row.now result }
{
    let coefficients = row.coefficients();
    let divisor = i64::try_from(content(coefficients)).unwrap();
    if divisor == 0 {
        return None;
    }
    Row::new(
        quotient(row.constant(), divisor),
        quotients(coefficients, divisor),
    )
}
