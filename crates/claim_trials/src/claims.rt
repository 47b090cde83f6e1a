use crate::sending::*;
use claim::{Claim, Derivation, Ending, SentStep, replay};
use facts::Relation;
use std::alloc::Global;
use std::process::Abort;
use std::test::Fail;

// A seal's counts, or the branches left.
fn ending(ending: Ending) -> Result<(u32, u32, u32), u32> {
    match ending {
        Ending::Sealed(seal) => Ok((seal.literals(), seal.steps(), seal.splits())),
        Ending::Open(branches) => Err(branches),
    }
}

fn ends(
    rt: &impl Abort,
    heap: Global,
    steps: &[SentStep],
    expected: Result<(u32, u32, u32), u32>,
) -> Result<(), Fail> {
    let run = replay::<Rows>(heap, &[impossible()], steps)?;
    assert!(rt; ending(run.ending) == expected);
    Ok(())
}

#[test]
fn the_branches_of_a_split_come_in_order(rt: HostRuntime) -> Result<(), Fail> {
    let heap = rt.alloc();
    let [zero, add, falsify] = refute();
    let split = SentStep::Split(0, 1);
    ends(&rt, heap, &[], Err(1))?;
    ends(&rt, heap, &[split], Err(3))?;
    ends(&rt, heap, &[split, zero, add, falsify], Err(2))?;
    ends(
        &rt,
        heap,
        &[split, zero, add, falsify, zero, add, falsify],
        Err(1),
    )?;
    ends(
        &rt,
        heap,
        &[
            split, zero, add, falsify, zero, add, falsify, zero, add, falsify,
        ],
        Ok((1, 10, 1)),
    )
}

// Told n0 < n1, n0 = n1, n0 > n1 in turn: only an equality may be multiplied by -1.
#[test]
fn each_branch_is_told_its_own(rt: HostRuntime) {
    let mut steps = begun();
    let turned = SentStep::Add(0, 1, -1);
    assert!(rt; told(steps.step(SentStep::Split(0, 1))).is_none());
    assert!(rt; told(steps.step(SentStep::Zero(0))).is_none());
    assert!(rt; told(steps.step(turned)) == Some((15, 0, 3, 1)));
    close_branch(&rt, &mut steps);
    assert!(rt; told(steps.step(SentStep::Zero(0))).is_none());
    assert!(rt; told(steps.step(turned)).is_none());
    close_branch(&rt, &mut steps);
    assert!(rt; told(steps.step(SentStep::Zero(0))).is_none());
    assert!(rt; told(steps.step(turned)) == Some((15, 0, 12, 1)));
    close_branch(&rt, &mut steps);
    assert!(rt; ending(steps.end()) == Ok((1, 14, 1)));
}

fn close_branch(rt: &impl Abort, steps: &mut Derivation<Rows>) {
    for step in refute() {
        assert!(rt; told(steps.step(step)).is_none());
    }
}

#[test]
fn eight_splits_may_be_open(rt: HostRuntime) {
    let mut steps = begun();
    for _ in 0..8 {
        assert!(rt; told(steps.step(SentStep::Split(2, 3))).is_none());
    }
    assert!(rt; told(steps.step(SentStep::Split(2, 3))) == Some((8, 0, 9, 8)));
    assert!(rt; told(steps.step(SentStep::Split(2, 32))) == Some((6, 2, 9, 8)));
    close_branch(&rt, &mut steps);
    assert!(rt; ending(steps.end()) == Err(16));
}

#[test]
fn a_closed_claim_takes_no_step(rt: HostRuntime) {
    let mut steps = begun();
    close_branch(&rt, &mut steps);
    assert!(rt; told(steps.step(SentStep::Zero(0))) == Some((5, 0, 4, 0)));
    assert!(rt; told(steps.step(SentStep::Split(32, 0))) == Some((5, 0, 4, 0)));
    assert!(rt; ending(steps.end()) == Ok((1, 3, 0)));
}

#[test]
fn a_claim_refuses_what_it_cannot_take(rt: HostRuntime) {
    let mut claim = Claim::<Rows>::open();
    assert!(rt; told(claim.literal(row(Relation::Zero, i32::MIN, 0))) == Some((6, 1, 0, 0)));
    for _ in 0..64 {
        assert!(rt; told(claim.literal(row(Relation::NonNegative, 1, 0))).is_none());
    }
    assert!(rt; told(claim.literal(row(Relation::NonNegative, 1, 0))) == Some((18, 0, 64, 0)));
    let mut steps = claim.begin();
    assert!(rt; told(steps.step(SentStep::Split(0, 1))) == Some((18, 0, 64, 0)));
    assert!(rt; told(steps.step(SentStep::Zero(1))) == Some((9, 0, 64, 0)));
    assert!(rt; told(steps.step(SentStep::Transitivity(0, 0, 2))) == Some((6, 3, 64, 0)));
    assert!(rt; told(steps.step(SentStep::Falsify(0))) == Some((12, 0, 64, 0)));
    assert!(rt; ending(steps.end()) == Err(1));
}
