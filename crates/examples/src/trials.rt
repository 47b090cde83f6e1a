// The runs, run.
use crate::runs::*;
use claim::{Line, SentStep};
use std::test::Fail;

fn told(line: Option<Line>) -> Option<(u32, u32, u32)> {
    line.map(|line| (line.literals, line.steps, line.splits))
}

#[test]
fn the_runs_end_as_proved(rt: HostRuntime) -> Result<(), Fail> {
    let heap = rt.alloc();
    assert!(rt; told(run_rows(heap)?) == Some((3, 9, 0)));
    assert!(rt; told(run_equality(heap)?) == Some((4, 5, 0)));
    assert!(rt; told(run_both(heap)?) == Some((3, 6, 0)));
    assert!(rt; run_clipped(heap, &[SentStep::Zero(1), SentStep::Falsify(1)])?.is_none());
    Ok(())
}
