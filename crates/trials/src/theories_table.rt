// How many facts and levels an address holds.
use crate::asking::*;
use equality::Equality;
use facts::{Fact, Relation};
use linear::Whole;
use std::test::Fail;
use theory::{Inference, Single};

#[test]
fn an_address_holds_64_facts(rt: HostRuntime) -> Result<(), Fail> {
    let fact = Fact::Equal(bare(0), bare(0));
    run::<Single<Equality>>(
        &rt,
        &[
            Step::Fill(63, fact),
            Step::Infer(0, Inference::Reflexivity(bare(0)), TAKEN),
            Step::Infer(0, Inference::Transitivity(63, false), (13, 63, 1)),
            Step::Infer(0, Inference::Push, TAKEN),
            Step::Infer(0, Inference::Transitivity(63, false), TAKEN),
            Step::Infer(0, Inference::Push, (18, 0, 1)),
            Step::Assume(fact, 18),
            Step::Assume(row(Relation::Zero, 0, 0, 0), 10),
            Step::Infer(0, Inference::Transitivity(64, false), (13, 64, 1)),
        ],
    )
}

#[test]
fn pushing_ends_at_64_facts_too(rt: HostRuntime) -> Result<(), Fail> {
    run::<Single<Whole>>(
        &rt,
        &[
            Step::Fill(63, row(Relation::Zero, 0, 0, 0)),
            Step::Infer(0, Inference::Zero, TAKEN),
            Step::Infer(0, Inference::Push, TAKEN),
            Step::Infer(0, Inference::Push, (18, 0, 3)),
            Step::Assume(row(Relation::Zero, 0, 0, 0), 18),
            Step::Assume(Fact::Equal(bare(0), bare(0)), 10),
            Step::Infer(0, add(63, 1), TAKEN),
            Step::Infer(0, add(64, 1), (13, 64, 3)),
        ],
    )
}

#[test]
fn there_are_nine_levels(rt: HostRuntime) -> Result<(), Fail> {
    run::<Single<Equality>>(
        &rt,
        &[
            Step::Drop(8),
            Step::Open(0),
            Step::Open(0),
            Step::Open(0),
            Step::Open(0),
            Step::Open(0),
            Step::Open(0),
            Step::Open(0),
            Step::Open(0),
            Step::Open(8),
            Step::Drop(0),
            Step::Drop(0),
            Step::Drop(0),
            Step::Drop(0),
            Step::Drop(0),
            Step::Drop(0),
            Step::Drop(0),
            Step::Drop(0),
            Step::Drop(8),
        ],
    )
}

#[test]
fn a_level_is_dropped_with_its_facts(rt: HostRuntime) -> Result<(), Fail> {
    run::<Single<Whole>>(
        &rt,
        &[
            Step::Assume(row(Relation::NonNegative, 0, 1, 0), 0),
            Step::Infer(0, Inference::Zero, TAKEN),
            Step::Open(0),
            Step::Infer(0, Inference::Push, (12, 0, 3)),
            Step::Infer(0, Inference::Zero, TAKEN),
            Step::Infer(0, Inference::Push, TAKEN),
            Step::Infer(0, add(0, 1), TAKEN),
            Step::Infer(0, add(1, 1), TAKEN),
            Step::Drop(0),
            Step::Infer(0, Inference::Push, (12, 0, 3)),
            Step::Infer(0, Inference::Zero, TAKEN),
            Step::Infer(0, add(1, 1), (13, 1, 3)),
            Step::Infer(0, add(0, 1), TAKEN),
        ],
    )
}
