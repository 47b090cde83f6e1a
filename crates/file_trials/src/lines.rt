use crate::pairs::{OverFractions, OverWhole};
use claimfile::report;
use std::alloc::Global;
use std::process::Abort;
use std::test::Fail;
use theory::Theory;

// A file, and the line that is printed of it.
#[derive(Clone, Copy)]
struct Case<'a> {
    file: &'a [u8],
    line: &'a str,
}

// Each file prints its line, over a theory.
fn prints<T: Theory + Drop>(rt: &impl Abort, heap: Global, cases: &[Case]) -> Result<(), Fail> {
    for case in cases {
        let text = report::<T>(heap, case.file)?;
        assert!(rt; text.as_str() == case.line, "{}", case.line);
    }
    Ok(())
}

#[test]
fn verdicts(rt: HostRuntime) -> Result<(), Fail> {
    let cases = [
        Case {
            file: b"",
            line: "OPEN literals 0 steps 0 splits 0 branches 1\n",
        },
        Case {
            file: b"E\0\0\0\0\0\0\x01\0D\0\0\0\0\0\0\x01\0BR\0\0\0\0\0T\0\0\0N\0\x01",
            line: "ESTABLISHED literals 2 steps 3 splits 0\n",
        },
        Case {
            file: b"E\0\0\0\0\0\0\x01\0D\0\0\0\0\0\0\x01\0BR\0\0\0\0\0T\0\0\0",
            line: "OPEN literals 2 steps 2 splits 0 branches 1\n",
        },
        Case {
            file: b"E\0\0\0\0\0\0\x01\0D\0\0\0\0\0\0\x01\0BR\0\0\0\0\0T\0\0\0N\0\0",
            line: "REFUSED 14 offset 29 place 4 depth 0 side 0 theory 1 detail 0\n",
        },
        Case {
            file: b"K\0\xfe\x0fK\0\xff\x0f",
            line: "OPEN literals 3 steps 0 splits 0 branches 1\n",
        },
        Case {
            file: b"BY\0\x01Y\0\x01",
            line: "OPEN literals 0 steps 2 splits 2 branches 5\n",
        },
    ];
    prints::<OverFractions>(&rt, rt.alloc(), &cases)?;
    prints::<OverWhole>(&rt, rt.alloc(), &cases)
}

#[test]
fn the_reader_refuses(rt: HostRuntime) -> Result<(), Fail> {
    let cases = [
        Case {
            file: b"\x3f",
            line: "REFUSED 2 offset 0 place 0 depth 0 side 0 theory 0 detail 0\n",
        },
        Case {
            file: b"B\x3f",
            line: "REFUSED 2 offset 1 place 0 depth 0 side 0 theory 0 detail 0\n",
        },
        Case {
            file: b"K\0\0",
            line: "REFUSED 3 offset 0 place 0 depth 0 side 0 theory 0 detail 0\n",
        },
        Case {
            file: b"BM\x01\0",
            line: "REFUSED 3 offset 1 place 0 depth 0 side 0 theory 0 detail 0\n",
        },
        Case {
            file: b"BB",
            line: "REFUSED 4 offset 1 place 0 depth 0 side 0 theory 0 detail 0\n",
        },
        Case {
            file: b"F\x01",
            line: "REFUSED 4 offset 0 place 0 depth 0 side 0 theory 0 detail 0\n",
        },
        Case {
            file: b"K\0\x05\0BK\0\x05\0",
            line: "REFUSED 4 offset 5 place 2 depth 0 side 0 theory 0 detail 0\n",
        },
        Case {
            file: b"BY\0\x01\x3f",
            line: "REFUSED 2 offset 4 place 1 depth 1 side 0 theory 0 detail 0\n",
        },
        Case {
            file: b"BY\0\x01B",
            line: "REFUSED 4 offset 4 place 1 depth 1 side 0 theory 0 detail 0\n",
        },
    ];
    prints::<OverFractions>(&rt, rt.alloc(), &cases)?;
    prints::<OverWhole>(&rt, rt.alloc(), &cases)
}

#[test]
fn the_claim_refuses(rt: HostRuntime) -> Result<(), Fail> {
    let cases = [
        Case {
            file: b"E\0\0\0\0\0\0\x01\0D\0\0\0\0\0\0\x01\0BR\0\0\0\0\0T\0\0\0N\0\x01O\x01",
            line: "REFUSED 5 offset 32 place 5 depth 0 side 1 theory 0 detail 0\n",
        },
        Case {
            file: b"E\0\0\0\0\0\0\x01\0D\0\0\0\0\0\0\x01\0BR\0\0\0\0\0T\0\0\0N\0\x01B",
            line: "REFUSED 4 offset 32 place 5 depth 0 side 0 theory 0 detail 0\n",
        },
        Case {
            file: b"K\x20\0\0",
            line: "REFUSED 6 offset 0 place 0 depth 0 side 0 theory 0 detail 1\n",
        },
        Case {
            file: b"K\x03\0\x10",
            line: "REFUSED 6 offset 0 place 0 depth 0 side 0 theory 0 detail 2\n",
        },
        Case {
            file: b"E\0\0\0\0\0\0\0\x01",
            line: "REFUSED 6 offset 0 place 0 depth 0 side 0 theory 0 detail 8\n",
        },
        Case {
            file: b"G\0\0\0\0\0\x01\xca\x9a\x3b\0\0\0\0\0\0\0\0\0\0\0\0\0\0\0",
            line: "REFUSED 6 offset 0 place 0 depth 0 side 0 theory 0 detail 6\n",
        },
        Case {
            file: b"BC\x07\0\x03\0",
            line: "REFUSED 6 offset 1 place 0 depth 0 side 7 theory 0 detail 3\n",
        },
        Case {
            file: b"BY\0\x20",
            line: "REFUSED 6 offset 1 place 0 depth 0 side 0 theory 0 detail 2\n",
        },
        Case {
            file: b"BY\0\x01Y\0\x01Y\0\x01Y\0\x01Y\0\x01Y\0\x01Y\0\x01Y\0\x01Y\0\x01",
            line: "REFUSED 8 offset 25 place 8 depth 8 side 0 theory 0 detail 0\n",
        },
        Case {
            file: b"BO\x02",
            line: "REFUSED 9 offset 1 place 0 depth 0 side 2 theory 0 detail 0\n",
        },
    ];
    prints::<OverFractions>(&rt, rt.alloc(), &cases)?;
    prints::<OverWhole>(&rt, rt.alloc(), &cases)
}

#[test]
fn fractions_refuse(rt: HostRuntime) -> Result<(), Fail> {
    let cases = [
        Case {
            file: b"BO\0",
            line: "REFUSED 11 offset 1 place 0 depth 0 side 0 theory 1 detail 0\n",
        },
        Case {
            file: b"BF\x01",
            line: "REFUSED 12 offset 1 place 0 depth 0 side 1 theory 2 detail 0\n",
        },
        Case {
            file: b"BO\x01M\x01\0\x01\0\0\0",
            line: "REFUSED 13 offset 3 place 1 depth 0 side 1 theory 2 detail 0\n",
        },
        Case {
            file: b"G\0\0\0\0\0\x01\0\0\0\0\0\0\0\0\0\0\0\0\0\0\0\0\0\0BO\x01M\x01\x03\x01\0\0\0",
            line: "REFUSED 13 offset 28 place 2 depth 0 side 1 theory 2 detail 1\n",
        },
        Case {
            file: b"E\0\0\0\0\0\0\x01\0D\0\0\0\0\0\0\x01\0BR\0\0\0\0\0T\0\0\0N\0\0",
            line: "REFUSED 14 offset 29 place 4 depth 0 side 0 theory 1 detail 0\n",
        },
        Case {
            file: b"G\0\0\0\0\0\x01\0\0\0\0\0\0\0\0\0\0\0\0\0\0\0\0\0\0BO\x01M\x01\0\0\0\0\0",
            line: "REFUSED 15 offset 28 place 2 depth 0 side 1 theory 2 detail 0\n",
        },
        Case {
            file: b"BO\x01F\x01",
            line: "REFUSED 16 offset 3 place 1 depth 0 side 1 theory 2 detail 0\n",
        },
        Case {
            file: b"G\0\0\0\0\0\x40B\x0f\0\0\0\0\0\0\0\0\0\0\0\0\0\0\0\0BO\x01M\x01\0\x40B\x0f\0M\x01\0\x01\0\0\0",
            line: "REFUSED 17 offset 35 place 3 depth 0 side 1 theory 2 detail 0\n",
        },
        Case {
            file: b"BO\x01I\x01",
            line: "REFUSED 11 offset 3 place 1 depth 0 side 1 theory 2 detail 0\n",
        },
        Case {
            file: b"BO\x01U\x01",
            line: "REFUSED 11 offset 3 place 1 depth 0 side 1 theory 2 detail 0\n",
        },
    ];
    prints::<OverFractions>(&rt, rt.alloc(), &cases)
}

// not one list with that of fractions: each line stands as it is printed
#[test]
fn whole_numbers_refuse(rt: HostRuntime) -> Result<(), Fail> {
    let cases = [
        Case {
            file: b"BO\0",
            line: "REFUSED 11 offset 1 place 0 depth 0 side 0 theory 1 detail 0\n",
        },
        Case {
            file: b"BF\x01",
            line: "REFUSED 12 offset 1 place 0 depth 0 side 1 theory 3 detail 0\n",
        },
        Case {
            file: b"BO\x01M\x01\0\x01\0\0\0",
            line: "REFUSED 13 offset 3 place 1 depth 0 side 1 theory 3 detail 0\n",
        },
        Case {
            file: b"G\0\0\0\0\0\x01\0\0\0\0\0\0\0\0\0\0\0\0\0\0\0\0\0\0BO\x01M\x01\x03\x01\0\0\0",
            line: "REFUSED 13 offset 28 place 2 depth 0 side 1 theory 3 detail 1\n",
        },
        Case {
            file: b"E\0\0\0\0\0\0\x01\0D\0\0\0\0\0\0\x01\0BR\0\0\0\0\0T\0\0\0N\0\0",
            line: "REFUSED 14 offset 29 place 4 depth 0 side 0 theory 1 detail 0\n",
        },
        Case {
            file: b"G\0\0\0\0\0\x01\0\0\0\0\0\0\0\0\0\0\0\0\0\0\0\0\0\0BO\x01M\x01\0\0\0\0\0",
            line: "REFUSED 15 offset 28 place 2 depth 0 side 1 theory 3 detail 0\n",
        },
        Case {
            file: b"BO\x01F\x01",
            line: "REFUSED 16 offset 3 place 1 depth 0 side 1 theory 3 detail 0\n",
        },
        Case {
            file: b"G\0\0\0\0\0\x40B\x0f\0\0\0\0\0\0\0\0\0\0\0\0\0\0\0\0BO\x01M\x01\0\x40B\x0f\0M\x01\0\x01\0\0\0",
            line: "REFUSED 17 offset 35 place 3 depth 0 side 1 theory 3 detail 0\n",
        },
        Case {
            file: b"BO\x01I\x01",
            line: "REFUSED 16 offset 3 place 1 depth 0 side 1 theory 3 detail 0\n",
        },
        Case {
            file: b"BO\x01U\x01",
            line: "REFUSED 16 offset 3 place 1 depth 0 side 1 theory 3 detail 0\n",
        },
    ];
    prints::<OverWhole>(&rt, rt.alloc(), &cases)
}
