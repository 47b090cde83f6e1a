// Two theories side by side: which address and which literal goes where.
use crate::asking::*;
use equality::Equality;
use facts::{Comparison, Fact, Relation};
use linear::{Fractions, Whole};
use nowhere::Nowhere;
use std::test::Fail;
use theory::{Inference, Pair, Single};

fn follow(fact: u8) -> Inference {
    Inference::Transitivity(fact, false)
}

#[test]
fn even_addresses_are_the_left_ones(rt: HostRuntime) -> Result<(), Fail> {
    run::<Pair<Single<Equality>, Single<Fractions>>>(
        &rt,
        &[
            Step::Assume(Fact::Equal(bare(0), bare(1)), 0),
            Step::Infer(0, Inference::Zero, (11, 0, 1)),
            Step::Infer(1, Inference::Zero, TAKEN),
            Step::Infer(0, Inference::Push, (12, 0, 1)),
            Step::Infer(1, add(0, 1), (13, 0, 2)),
            Step::Tell(Comparison::Less(name(0), name(1)), 0),
            Step::Gives(1, add(0, 1), (0, -1, 1)),
            Step::Infer(0, Inference::Reflexivity(bare(0)), TAKEN),
            Step::Infer(0, follow(2), (13, 2, 1)),
            Step::Infer(0, follow(0), TAKEN),
            Step::Infer(0, Inference::Clash(1), CONTRADICTION),
            Step::Infer(2, Inference::Zero, (9, 0, 0)),
            Step::Infer(3, Inference::Zero, (9, 0, 0)),
        ],
    )
}

#[test]
fn a_literal_that_no_side_keeps_is_refused(rt: HostRuntime) -> Result<(), Fail> {
    run::<Pair<Single<Equality>, Nowhere>>(
        &rt,
        &[
            Step::Assume(row(Relation::Zero, 0, 1, 0), 10),
            Step::Assume(Fact::Equal(bare(0), bare(1)), 0),
            Step::Infer(1, Inference::Zero, (9, 0, 0)),
            Step::Infer(0, Inference::Reflexivity(bare(0)), TAKEN),
            Step::Infer(0, follow(1), (13, 1, 1)),
            Step::Open(0),
            Step::Drop(0),
            Step::Drop(8),
        ],
    )
}

#[test]
fn a_full_side_refuses_a_telling_for_both(rt: HostRuntime) -> Result<(), Fail> {
    let equality = Fact::Equal(bare(0), bare(0));
    let told = Comparison::Equal(name(0), name(1));
    run::<Pair<Single<Equality>, Single<Whole>>>(
        &rt,
        &[
            Step::Assume(row(Relation::Zero, 0, 1, 0), 0),
            Step::Fill(64, equality),
            Step::Tell(told, 18),
            Step::Infer(1, Inference::Zero, TAKEN),
            Step::Infer(1, add(1, 1), (13, 1, 3)),
            Step::Infer(1, Inference::Push, TAKEN),
            Step::Infer(1, add(2, 1), (13, 2, 3)),
            Step::Assume(equality, 18),
            Step::Assume(row(Relation::Zero, 0, 1, 0), 0),
            Step::Infer(1, add(2, 1), TAKEN),
        ],
    )
}

#[test]
fn the_right_side_may_be_full_too(rt: HostRuntime) -> Result<(), Fail> {
    let told = Comparison::Greater(name(0), name(1));
    run::<Pair<Single<Equality>, Single<Whole>>>(
        &rt,
        &[
            Step::Fill(64, row(Relation::Zero, 0, 1, 0)),
            Step::Tell(told, 18),
            Step::Infer(0, Inference::Reflexivity(bare(0)), TAKEN),
            Step::Infer(0, follow(0), (13, 0, 1)),
            Step::Assume(Fact::Equal(bare(0), bare(0)), 0),
            Step::Infer(0, follow(0), TAKEN),
        ],
    )
}

#[test]
fn pairs_nest(rt: HostRuntime) -> Result<(), Fail> {
    run::<Pair<Pair<Single<Equality>, Single<Fractions>>, Single<Whole>>>(
        &rt,
        &[
            Step::Assume(row(Relation::NonNegative, 0, 1, 0), 0),
            Step::Tell(Comparison::Equal(name(0), name(1)), 0),
            Step::Infer(0, Inference::Reflexivity(bare(0)), TAKEN),
            Step::Infer(0, follow(1), (13, 1, 1)),
            Step::Infer(0, follow(0), TAKEN),
            Step::Infer(2, Inference::Zero, TAKEN),
            Step::Infer(2, add(2, 1), (13, 2, 2)),
            Step::Infer(2, Inference::Cut, (11, 0, 2)),
            Step::Infer(1, Inference::Push, (12, 0, 3)),
            Step::Infer(1, Inference::Zero, TAKEN),
            Step::Gives(1, add(1, -2), (0, -2, 2)),
            Step::Infer(3, Inference::Zero, (9, 0, 0)),
            Step::Infer(4, Inference::Zero, (9, 0, 0)),
            Step::Infer(6, Inference::Zero, (9, 0, 0)),
        ],
    )
}
