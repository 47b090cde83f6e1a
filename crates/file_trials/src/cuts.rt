use crate::pairs::OverWhole;
use claimfile::{Verdict, check as check_file};
use std::test::Fail;

// Two readings, an overload and the steps against it.
const FILE: &[u8] =
    b"K\0\x2c\x03K\x01\x62\x02G\x24\xfa\xff\xff\0\x01\0\0\0\x01\x01\0\0\0\0\0\0\0\0\0\0\0\0\0BO\x01M\x01\x01\x01\0\0\0M\x01\x03\x01\0\0\0M\x01\x04\x01\0\0\0F\x01";

// Where its records begin.
const RECORDS: [usize; 9] = [0, 4, 8, 33, 34, 36, 43, 50, 57];

// The start of the record that a cut falls into, or none where it falls between two.
fn torn(cut: usize) -> Option<usize> {
    let start = RECORDS.into_iter().rfind(|start| *start <= cut)?;
    (start < cut).then_some(start)
}

#[test]
fn every_cut_has_its_verdict(rt: HostRuntime) -> Result<(), Fail> {
    // the lengths are what is tested, and stand in no list
    for cut in 0..FILE.len() {
        let verdict = check_file::<OverWhole>(&FILE[..cut]);
        match (verdict, torn(cut)) {
            (Verdict::Open(_), None) => {}
            (Verdict::Refused(fault), Some(start)) => {
                assert_eq!(rt; fault.call.cause.refusal.number(), 3);
                assert_eq!(rt; fault.offset, start);
            }
            (_, _) => return Err(Fail::new("another verdict")),
        }
    }
    match check_file::<OverWhole>(FILE) {
        Verdict::Established(seal) => {
            assert_eq!(rt; seal.steps(), 5);
            Ok(())
        }
        Verdict::Open(_) => Err(Fail::new("open")),
        Verdict::Refused(_) => Err(Fail::new("refused")),
    }
}
