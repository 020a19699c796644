// The eight cases that mark the rules, run.
use crate::{DOUBLE_ROW, tally};
use inspection::status::Status;
use inspection::tally::Tally;
use inspection::verdict::Verdict;
use regimes::on_line::OnLine;
use regimes::stationary::judge_first;
use std::alloc::Global;
use std::test::Fail;

// The verdict on the last portion of a stretch of so many clean ones and this one.
fn after_clean(heap: Global, clean: usize, status: Status, last: Tally) -> Result<Verdict, Fail> {
    let mut tallies = vec![in heap; Tally::CLEAN; clean]?;
    tallies.push(last)?;
    let verdicts = OnLine.judge_stretch(status, &tallies, heap)?;
    Ok(*verdicts.last().ok_or("no verdict")?)
}

#[test]
fn one_critical_after_clean_portions(rt: HostRuntime) -> Result<(), Fail> {
    for (clean, verdict) in [
        (6, Verdict::Rejected),
        (7, Verdict::Accepted),
        (0, Verdict::Rejected),
    ] {
        let last = after_clean(rt.alloc(), clean, Status::Normal, tally(1, 0, 0))?;
        assert_eq!(rt; last, verdict);
    }
    Ok(())
}

#[test]
fn another_critical_is_rejected_again(rt: HostRuntime) -> Result<(), Fail> {
    let one = tally(1, 0, 0);
    let verdicts = OnLine.judge_stretch(Status::Normal, &[one, one], rt.alloc())?;
    assert!(rt; verdicts.as_slice() == [Verdict::Rejected, Verdict::Rejected].as_slice());
    Ok(())
}

#[test]
fn major_defects_on_tightened(rt: HostRuntime) -> Result<(), Fail> {
    for (major, verdict) in [(2, Verdict::Accepted), (3, Verdict::Rejected)] {
        let last = after_clean(rt.alloc(), 0, Status::Tightened, tally(0, major, 0))?;
        assert_eq!(rt; last, verdict);
    }
    Ok(())
}

#[test]
fn a_double_row_awaits_one_critical_and_rejects_three(rt: HostRuntime) {
    for (critical, verdict) in [(1, Verdict::Awaited), (3, Verdict::Rejected)] {
        assert_eq!(rt; judge_first(&DOUBLE_ROW, tally(critical, 0, 0)).0, verdict);
    }
}
