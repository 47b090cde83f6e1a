// The rules of equality, and each of their refusals.
use crate::asking::*;
use equality::Equality;
use facts::Fact;
use std::test::Fail;
use theory::{Inference, Position, Single};

fn follow(fact: u8, turned: bool) -> Inference {
    Inference::Transitivity(fact, turned)
}

#[test]
fn an_equality_is_followed(rt: HostRuntime) -> Result<(), Fail> {
    run::<Single<Equality>>(
        &rt,
        &[
            Step::Assume(Fact::Equal(bare(0), bare(1)), 0),
            Step::Assume(Fact::Distinct(bare(1), bare(2)), 0),
            Step::Assume(Fact::Equal(bare(2), bare(1)), 0),
            Step::Infer(0, follow(3, false), (12, 0, 1)),
            Step::Infer(0, Inference::Reflexivity(bare(0)), TAKEN),
            Step::Infer(0, follow(0, true), (16, 0, 1)),
            Step::Infer(0, follow(0, false), TAKEN),
            Step::Infer(0, follow(2, true), TAKEN),
            Step::Infer(0, Inference::Propagate, (101, 0, 2)),
            Step::Infer(0, follow(2, false), TAKEN),
            Step::Infer(0, Inference::Propagate, (101, 0, 1)),
            Step::Infer(0, follow(0, false), (16, 0, 1)),
            Step::Infer(0, follow(1, false), (14, 0, 1)),
            Step::Infer(0, follow(3, false), (13, 3, 1)),
            Step::Infer(0, follow(255, true), (13, 3, 1)),
        ],
    )
}

fn first(fact: u8, turned: bool) -> Inference {
    Inference::Congruence(fact, Position::First, turned)
}

fn second(fact: u8, turned: bool) -> Inference {
    Inference::Congruence(fact, Position::Second, turned)
}

#[test]
fn an_argument_is_replaced(rt: HostRuntime) -> Result<(), Fail> {
    run::<Single<Equality>>(
        &rt,
        &[
            Step::Assume(Fact::Equal(bare(0), bare(1)), 0),
            Step::Assume(Fact::Equal(unary(0), bare(2)), 0),
            Step::Assume(Fact::Distinct(binary(0, 0), binary(1, 0)), 0),
            Step::Infer(0, first(3, false), (12, 0, 1)),
            Step::Infer(0, Inference::Reflexivity(binary(0, 0)), TAKEN),
            Step::Infer(0, second(0, false), TAKEN),
            Step::Infer(0, Inference::Clash(2), (16, 0, 1)),
            Step::Infer(0, first(0, false), TAKEN),
            Step::Infer(0, second(0, true), TAKEN),
            Step::Infer(0, Inference::Clash(2), CONTRADICTION),
            Step::Infer(0, second(0, true), (16, 0, 1)),
            Step::Infer(0, second(1, false), (16, 0, 1)),
            Step::Infer(0, second(1, true), (16, 0, 1)),
            Step::Infer(0, second(2, false), (14, 0, 1)),
            Step::Infer(0, second(3, false), (13, 3, 1)),
            Step::Infer(0, Inference::Reflexivity(unary(0)), TAKEN),
            Step::Infer(0, second(0, false), (16, 0, 1)),
            Step::Infer(0, first(0, false), TAKEN),
            Step::Infer(0, Inference::Reflexivity(bare(0)), TAKEN),
            Step::Infer(0, first(0, false), (16, 0, 1)),
        ],
    )
}

#[test]
fn a_negation_clashes_both_ways(rt: HostRuntime) -> Result<(), Fail> {
    run::<Single<Equality>>(
        &rt,
        &[
            Step::Assume(Fact::Distinct(bare(0), unary(1)), 0),
            Step::Assume(Fact::Equal(unary(1), bare(0)), 0),
            Step::Assume(Fact::Distinct(unary(1), unary(1)), 0),
            Step::Infer(0, Inference::Clash(3), (12, 0, 1)),
            Step::Infer(0, Inference::Reflexivity(unary(1)), TAKEN),
            Step::Infer(0, Inference::Clash(0), (16, 0, 1)),
            Step::Infer(0, Inference::Clash(2), CONTRADICTION),
            Step::Infer(0, follow(1, false), TAKEN),
            Step::Infer(0, Inference::Clash(0), CONTRADICTION),
            Step::Infer(0, Inference::Clash(1), (14, 0, 1)),
            Step::Infer(0, Inference::Clash(3), (13, 3, 1)),
            Step::Infer(0, Inference::Reflexivity(bare(0)), TAKEN),
            Step::Infer(0, follow(1, true), TAKEN),
            Step::Infer(0, Inference::Clash(0), CONTRADICTION),
        ],
    )
}

#[test]
fn an_equality_is_handed_on_and_pushed(rt: HostRuntime) -> Result<(), Fail> {
    run::<Single<Equality>>(
        &rt,
        &[
            Step::Assume(Fact::Equal(bare(0), unary(1)), 0),
            Step::Assume(Fact::Equal(unary(1), bare(2)), 0),
            Step::Assume(Fact::Distinct(bare(0), bare(2)), 0),
            Step::Infer(0, Inference::Propagate, (12, 0, 1)),
            Step::Infer(0, Inference::Push, (12, 0, 1)),
            Step::Infer(0, Inference::Reflexivity(bare(0)), TAKEN),
            Step::Infer(0, follow(0, false), TAKEN),
            Step::Infer(0, Inference::Propagate, (16, 0, 1)),
            Step::Infer(0, follow(1, false), TAKEN),
            Step::Infer(0, Inference::Push, TAKEN),
            Step::Infer(0, Inference::Propagate, (101, 0, 2)),
            Step::Infer(0, Inference::Reflexivity(bare(2)), TAKEN),
            Step::Infer(0, follow(3, true), TAKEN),
            Step::Infer(0, Inference::Propagate, (101, 2, 0)),
            Step::Infer(0, follow(4, false), (13, 4, 1)),
        ],
    )
}

#[test]
fn equality_has_no_rules_of_rows(rt: HostRuntime) -> Result<(), Fail> {
    run::<Single<Equality>>(
        &rt,
        &[
            Step::Infer(0, Inference::Zero, (11, 0, 1)),
            Step::Infer(0, add(0, 1), (11, 0, 1)),
            Step::Infer(0, antisymmetry(0, 0, 1), (11, 0, 1)),
            Step::Infer(0, Inference::Falsify, (11, 0, 1)),
            Step::Infer(0, Inference::Strengthen, (11, 0, 1)),
            Step::Infer(0, Inference::Cut, (11, 0, 1)),
        ],
    )
}
