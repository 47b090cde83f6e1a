// The rules of rows over fractions and over whole numbers, and each of their refusals.
use crate::asking::*;
use facts::{Fact, Relation};
use linear::{Fractions, Whole};
use std::test::Fail;
use theory::{Inference, Position, Single};

fn at_least(constant: i64, first: i64, second: i64) -> Fact {
    row(Relation::NonNegative, constant, first, second)
}

fn above(constant: i64, first: i64, second: i64) -> Fact {
    row(Relation::Positive, constant, first, second)
}

#[test]
fn multiples_are_added(rt: HostRuntime) -> Result<(), Fail> {
    run::<Single<Fractions>>(
        &rt,
        &[
            Step::Assume(at_least(-1, 1, 0), 0),
            Step::Assume(above(1, -1, 0), 0),
            Step::Assume(row(Relation::Zero, 0, 1, -1), 0),
            Step::Assume(at_least(-1, 0, 0), 0),
            Step::Infer(0, add(4, 0), (12, 0, 2)),
            Step::Infer(0, Inference::Falsify, (12, 0, 2)),
            Step::Infer(0, Inference::Zero, TAKEN),
            Step::Infer(0, Inference::Falsify, (16, 0, 2)),
            Step::Infer(0, add(4, 0), (13, 4, 2)),
            Step::Infer(0, add(0, 0), (15, 0, 2)),
            Step::Infer(0, add(1, -1), (15, 0, 2)),
            Step::Infer(0, add(2, 0), TAKEN),
            Step::Gives(0, add(2, -7), (0, -7, 7)),
            Step::Infer(0, Inference::Falsify, (16, 0, 2)),
            Step::Gives(0, add(2, 7), (0, 0, 0)),
            Step::Gives(0, add(1, 2), (2, -2, 0)),
            Step::Gives(0, add(0, 2), (0, 0, 0)),
            Step::Infer(0, Inference::Falsify, CONTRADICTION),
            Step::Infer(0, Inference::Zero, TAKEN),
            Step::Infer(0, add(3, 1), TAKEN),
            Step::Infer(0, Inference::Falsify, CONTRADICTION),
        ],
    )
}

#[test]
fn a_row_ends_at_its_limit(rt: HostRuntime) -> Result<(), Fail> {
    let million = 1_000_000;
    run::<Single<Whole>>(
        &rt,
        &[
            Step::Assume(at_least(0, million, 0), 0),
            Step::Assume(at_least(0, 1, 0), 0),
            Step::Assume(above(-million, 0, 0), 0),
            Step::Assume(at_least(0, -million, 0), 0),
            Step::Infer(0, Inference::Zero, TAKEN),
            Step::Infer(0, add(0, 1_000_000), TAKEN),
            Step::Infer(0, add(1, 1), (17, 0, 3)),
            Step::Gives(0, add(3, 1_000_000), (0, 0, 0)),
            Step::Infer(0, add(3, 1_000_000), TAKEN),
            Step::Infer(0, add(3, 1), (17, 0, 3)),
            Step::Infer(0, Inference::Zero, TAKEN),
            Step::Infer(0, add(2, 1_000_000), TAKEN),
            Step::Infer(0, Inference::Strengthen, (17, 0, 3)),
        ],
    )
}

#[test]
fn two_names_are_equal_both_ways(rt: HostRuntime) -> Result<(), Fail> {
    run::<Single<Fractions>>(
        &rt,
        &[
            Step::Assume(at_least(0, 1, -1), 0),
            Step::Assume(at_least(0, -3, 3), 0),
            Step::Assume(at_least(1, -1, 1), 0),
            Step::Assume(above(0, -1, 1), 0),
            Step::Infer(0, antisymmetry(4, 0, 1), (12, 0, 2)),
            Step::Infer(0, Inference::Zero, TAKEN),
            Step::Infer(0, Inference::Push, TAKEN),
            Step::Infer(0, antisymmetry(4, 0, 0), (16, 0, 2)),
            Step::Infer(0, add(0, 2), TAKEN),
            Step::Infer(0, antisymmetry(1, 0, 1), (101, 0, 1)),
            Step::Infer(0, antisymmetry(1, 1, 0), (16, 0, 2)),
            Step::Infer(0, antisymmetry(1, 0, 0), (16, 0, 2)),
            Step::Infer(0, antisymmetry(1, 0, 2), (16, 0, 2)),
            Step::Infer(0, antisymmetry(0, 0, 1), (16, 0, 2)),
            Step::Infer(0, antisymmetry(2, 0, 1), (16, 0, 2)),
            Step::Infer(0, antisymmetry(3, 0, 1), (14, 0, 2)),
            Step::Infer(0, antisymmetry(5, 0, 1), (13, 5, 2)),
            Step::Infer(0, Inference::Zero, TAKEN),
            Step::Infer(0, add(2, 1), TAKEN),
            Step::Infer(0, antisymmetry(0, 1, 0), (16, 0, 2)),
            Step::Infer(0, Inference::Zero, TAKEN),
            Step::Infer(0, add(3, 1), TAKEN),
            Step::Infer(0, antisymmetry(0, 1, 0), (16, 0, 2)),
        ],
    )
}

#[test]
fn whole_numbers_are_rounded(rt: HostRuntime) -> Result<(), Fail> {
    run::<Single<Whole>>(
        &rt,
        &[
            Step::Assume(at_least(-1, 2, 0), 0),
            Step::Assume(at_least(1, -2, 0), 0),
            Step::Assume(above(0, 1, 0), 0),
            Step::Assume(at_least(-3, 4, -6), 0),
            Step::Infer(0, Inference::Strengthen, (12, 0, 3)),
            Step::Infer(0, Inference::Cut, (12, 0, 3)),
            Step::Infer(0, Inference::Zero, TAKEN),
            Step::Infer(0, Inference::Strengthen, (16, 0, 3)),
            Step::Infer(0, Inference::Cut, (16, 0, 3)),
            Step::Infer(0, add(0, 1), TAKEN),
            Step::Gives(0, Inference::Cut, (-1, 1, 0)),
            Step::Infer(0, Inference::Zero, TAKEN),
            Step::Infer(0, add(1, 1), TAKEN),
            Step::Gives(0, Inference::Cut, (0, -1, 0)),
            Step::Infer(0, Inference::Zero, TAKEN),
            Step::Infer(0, add(3, 1), TAKEN),
            Step::Gives(0, Inference::Cut, (-2, 2, -3)),
            Step::Infer(0, Inference::Zero, TAKEN),
            Step::Infer(0, add(2, 1), TAKEN),
            Step::Infer(0, Inference::Cut, (16, 0, 3)),
            Step::Gives(0, Inference::Strengthen, (-1, 1, 0)),
            Step::Infer(0, Inference::Strengthen, (16, 0, 3)),
        ],
    )
}

#[test]
fn rows_have_no_rules_of_equality(rt: HostRuntime) -> Result<(), Fail> {
    let c = Inference::Congruence(0, Position::First, false);
    run::<Single<Fractions>>(
        &rt,
        &[
            Step::Infer(0, Inference::Strengthen, (11, 0, 2)),
            Step::Infer(0, Inference::Cut, (11, 0, 2)),
            Step::Infer(0, Inference::Reflexivity(bare(0)), (11, 0, 2)),
            Step::Infer(0, Inference::Transitivity(0, false), (11, 0, 2)),
            Step::Infer(0, Inference::Push, (12, 0, 2)),
        ],
    )?;
    run::<Single<Whole>>(
        &rt,
        &[
            Step::Infer(0, c, (11, 0, 3)),
            Step::Infer(0, Inference::Clash(0), (11, 0, 3)),
            Step::Infer(0, Inference::Propagate, (11, 0, 3)),
            Step::Infer(0, Inference::Push, (12, 0, 3)),
        ],
    )
}
