ghost use Rattle.std.specs.Prelude.{◌≡◌, ◌*ℤ◌};
ghost use Rattle.facts.specs.Sizes.{Sized, row_limit};
ghost use Rattle.linear.specs.Deciding.{holds};
ghost use Rattle.linear.specs.Forms.{is_difference, difference_at, difference_row, one_at};
ghost use Rattle.linear.specs.Rows.{listed};

use facts::{Name, Row};
use std::array;

// n and m are no struct here: each fact, step and comparison of two names has them apart.

// The coefficient in n of the name with index k.
fn one_at(n: Name, k: usize) -> i64
    ensures { result ≡ one_at n.index k }
{
    i64::from(usize::from(n) == k)
}

// The coefficient in n - m of the name with index k.
fn difference_at(n: Name, m: Name, k: usize) -> i64
    ensures { result ≡ difference_at n m k }
{
    one_at(n, k) - one_at(m, k)
}

// The coefficient in size n - size m of the name with index k. The bound is asked here, as in sums.
fn multiple_at(size: i64, n: Name, m: Name, k: usize) -> i64
    requires { Sized row_limit size }
    ensures { result ≡ size *ℤ difference_at n m k }
{
    size * difference_at(n, m, k)
}

// The coefficients of size n - size m.
fn multiple_coefficients(size: i64, n: Name, m: Name) -> [i64; 32]
    requires { Sized row_limit size }
    ensures { result ≡ listed (λ k. size *ℤ difference_at n m k) }
{
    array::from_fn(|k| multiple_at(size, n, m, k))
}

// The row n - m.
pub(crate) fn difference(n: Name, m: Name) -> Row
    ensures { result ≡ difference_row n m }
{
    Row::new(0, multiple_coefficients(1, n, m)).unwrap()
}

// Whether the row is a positive multiple of n - m. None is if n is m: the coefficient of n would
// be 0.
pub(crate) fn is_difference(row: &Row, n: Name, m: Name) -> bool
    ensures { result ≡ holds (is_difference row.now n m) }
{
    let constant = row.constant();
    let size = row.coefficient(n);
    constant == 0 && size >= 1 && *row.coefficients() == multiple_coefficients(size, n, m)
}
