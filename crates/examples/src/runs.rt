// The runs among the examples, made.
ghost use Rattle.std.specs.Prelude.{◌≡◌, [], ◌∷◌, IfOk, Some, None};
ghost use Rattle.reading.specs.Bounds.{pair};
ghost use Rattle.examples.specs.Examples.{crowded, by_rows, congruent, by_congruence, squeezed, by_both, clipped};
ghost use Rattle.examples.specs.Runs.{counts};
ghost use Rattle.examples.specs.Values.{bare, a_of, linear};

use crate::counts::seal_counts;
use claim::{Line, SentStep};
use facts::{Literal, Relation, SentPair, SentRow, SentTerm};
use std::alloc::{AllocError, Global};

fn name_of(index: u8) -> SentTerm
    ensures { result ≡ bare index }
{
    SentTerm {
        tag: 0,
        letter: 0,
        first: index,
        second: 0,
    }
}

fn symbol_of(index: u8) -> SentTerm
    ensures { result ≡ a_of index }
{
    SentTerm {
        tag: 1,
        ..name_of(index)
    }
}

fn times(coefficient: i32, name: u8) -> SentPair
    ensures { result ≡ pair name coefficient }
{
    SentPair { name, coefficient }
}

// A row with at most two names.
fn row_literal(how: Relation, constant: i32, first: SentPair, second: SentPair) -> Literal
    ensures { result ≡ linear how constant (first ∷ second ∷ []) }
{
    let none = times(0, 0);
    Literal::Linear(
        how,
        SentRow {
            constant,
            pairs: [first, second, none, none],
        },
    )
}

// 3 n1 - 2 n2 - 2 >= 0, n1 - 1 = 0, n2 > 0
fn crowded_literals() -> [Literal; 3]
    ensures { result ≡ crowded }
{
    [
        row_literal(Relation::NonNegative, -2, times(3, 1), times(-2, 2)),
        row_literal(Relation::Zero, -1, times(1, 1), times(0, 0)),
        row_literal(Relation::Positive, 0, times(1, 2), times(0, 0)),
    ]
}

fn crowded_steps() -> [SentStep; 9]
    ensures { result ≡ by_rows }
{
    [
        SentStep::Zero(1),
        SentStep::Add(1, 2, 1),
        SentStep::Strengthen(1),
        SentStep::Push(1),
        SentStep::Zero(1),
        SentStep::Add(1, 0, 1),
        SentStep::Add(1, 1, -3),
        SentStep::Add(1, 3, 2),
        SentStep::Falsify(1),
    ]
}

// a(n0) = n2, a(n1) = n3, n0 = n1, n2 != n3
fn congruent_literals() -> [Literal; 4]
    ensures { result ≡ congruent }
{
    [
        Literal::Equal(symbol_of(0), name_of(2)),
        Literal::Equal(symbol_of(1), name_of(3)),
        Literal::Equal(name_of(0), name_of(1)),
        Literal::Distinct(name_of(2), name_of(3)),
    ]
}

fn congruent_steps() -> [SentStep; 5]
    ensures { result ≡ by_congruence }
{
    [
        SentStep::Reflexivity(0, name_of(2)),
        SentStep::Transitivity(0, 0, 1),
        SentStep::Congruence(0, 2, 1, 0),
        SentStep::Transitivity(0, 1, 0),
        SentStep::Clash(0, 3),
    ]
}

// n0 != n1, n0 - n1 >= 0, n1 - n0 >= 0
fn squeezed_literals() -> [Literal; 3]
    ensures { result ≡ squeezed }
{
    [
        Literal::Distinct(name_of(0), name_of(1)),
        row_literal(Relation::NonNegative, 0, times(1, 0), times(-1, 1)),
        row_literal(Relation::NonNegative, 0, times(-1, 0), times(1, 1)),
    ]
}

fn squeezed_steps() -> [SentStep; 6]
    ensures { result ≡ by_both }
{
    [
        SentStep::Zero(1),
        SentStep::Add(1, 0, 1),
        SentStep::Antisymmetry(1, 1, 0, 1),
        SentStep::Reflexivity(0, name_of(0)),
        SentStep::Transitivity(0, 1, 0),
        SentStep::Clash(0, 0),
    ]
}

// n0 - 4095 >= 0, n1 - 4095 >= 0, n0 != n1
fn clipped_literals() -> [Literal; 3]
    ensures { result ≡ clipped }
{
    [
        row_literal(Relation::NonNegative, -4095, times(1, 0), times(0, 0)),
        row_literal(Relation::NonNegative, -4095, times(1, 1), times(0, 0)),
        Literal::Distinct(name_of(0), name_of(1)),
    ]
}

// Three rows.
pub fn run_rows(heap: Global) -> Result<Option<Line>, AllocError>
    ensures { IfOk result (λ o. o ≡ Some (counts 3 9 0)) }
{
    seal_counts(heap, &crowded_literals(), &crowded_steps())
}

// Equalities of names and of a symbol's values.
pub fn run_equality(heap: Global) -> Result<Option<Line>, AllocError>
    ensures { IfOk result (λ o. o ≡ Some (counts 4 5 0)) }
{
    seal_counts(heap, &congruent_literals(), &congruent_steps())
}

// Rows that hand an equality on.
pub fn run_both(heap: Global) -> Result<Option<Line>, AllocError>
    ensures { IfOk result (λ o. o ≡ Some (counts 3 6 0)) }
{
    seal_counts(heap, &squeezed_literals(), &squeezed_steps())
}

// Two readings at the top of the scale, with any steps.
pub fn run_clipped(heap: Global, steps: &[SentStep]) -> Result<Option<Line>, AllocError>
    ensures { IfOk result (λ o. o ≡ None) }
{
    seal_counts(heap, &clipped_literals(), steps)
}
