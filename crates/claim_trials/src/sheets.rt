use crate::sending::*;
use claim::{Ending, Seal, Sheet};
use std::test::Fail;

fn sealed() -> Result<Seal, Fail> {
    let mut steps = begun();
    for step in refute() {
        let _ = steps.step(step);
    }
    match steps.end() {
        Ending::Sealed(seal) => Ok(seal),
        Ending::Open(_) => Err(Fail::new("a seal")),
    }
}

#[test]
fn a_sheet_has_64_lines(rt: HostRuntime) -> Result<(), Fail> {
    let mut sheet = Sheet::new();
    // the numbers are what is tested, and stand in no list
    for line in 0..64 {
        match sheet.enter(sealed()?) {
            Ok(number) => assert_eq!(rt; number, line),
            Err(_) => return Err(Fail::new("a line")),
        }
    }
    match sheet.enter(sealed()?) {
        Ok(_) => Err(Fail::new("a full sheet")),
        Err(back) => {
            assert_eq!(rt; back.refusal.number(), 19);
            assert_eq!(rt; back.seal.steps(), 3);
            Ok(())
        }
    }
}
