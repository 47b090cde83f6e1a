use crate::pairs::OverWhole;
use claim::{Claim, Derivation, SentStep};
use claimfile::{LONGEST_FILE, Verdict, check as check_file};
use facts::{CallFault, Literal, SentTerm};
use linear::Whole;
use std::test::Fail;
use theory::Single;

// A refusal's number, and the offset, place, theory and detail beside it.
fn refused(verdict: &Verdict) -> Option<(u8, usize, u32, u8, u8)> {
    match verdict {
        Verdict::Refused(fault) => Some((
            fault.call.cause.refusal.number(),
            fault.offset,
            fault.call.place,
            fault.call.cause.theory,
            fault.call.cause.detail,
        )),
        Verdict::Established(_) | Verdict::Open(_) => None,
    }
}

// The number of a call's refusal.
fn number(answer: Result<(), CallFault>) -> Option<u8> {
    answer.err().map(|fault| fault.cause.refusal.number())
}

#[test]
fn a_file_has_at_most_32768_bytes(rt: HostRuntime) -> Result<(), Fail> {
    let mut file = vec![in rt.alloc(); b'B'; LONGEST_FILE]?;
    let verdict = check_file::<OverWhole>(file.as_slice());
    assert!(rt; refused(&verdict) == Some((4, 1, 0, 0, 0)));
    file.push(b'B')?;
    let verdict = check_file::<OverWhole>(file.as_slice());
    assert!(rt; refused(&verdict) == Some((1, 0, 0, 0, 0)));
    Ok(())
}

// One record of five bytes, and then a push of two bytes for each fact.
#[test]
fn a_table_has_64_facts(rt: HostRuntime) -> Result<(), Fail> {
    let mut file = b"BR\0\0\0\0\0".to_vec(rt.alloc())?;
    for _ in 0..64 {
        file.push(b'P')?;
        file.push(0)?;
    }
    let verdict = check_file::<OverWhole>(file.as_slice());
    assert!(rt; refused(&verdict).is_none());
    file.push(b'P')?;
    file.push(0)?;
    let verdict = check_file::<OverWhole>(file.as_slice());
    assert!(rt; refused(&verdict) == Some((18, 135, 65, 1, 0)));
    Ok(())
}

// No file of a pair with rows reaches these two: a literal that no address keeps, and a call past
// the most that a claim takes.
#[test]
fn what_no_file_reaches(rt: HostRuntime) {
    let mut claim = Claim::<Single<Whole>>::open();
    let bare = SentTerm {
        tag: 0,
        letter: 0,
        first: 0,
        second: 0,
    };
    assert_eq!(rt; number(claim.literal(Literal::Equal(bare, bare))), Some(10));
    let mut steps = claim.begin();
    assert_eq!(rt; most_steps(&mut steps), 50_000);
    assert_eq!(rt; number(steps.step(SentStep::Zero(0))), Some(7));
    assert_eq!(rt; steps.counts().steps(), 50_000);
}

// How many of 50,001 steps are taken: they are made, and stand in no list.
fn most_steps(steps: &mut Derivation<Single<Whole>>) -> u32 {
    let mut taken: u32 = 0;
    for _ in 0..50_001 {
        if steps.step(SentStep::Zero(0)).is_ok() {
            taken = taken.saturating_add(1);
        }
    }
    taken
}
