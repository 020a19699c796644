// Lots: by the fresh plan, and by a double plan's row.
use crate::{DOUBLE_ROW, per_class, tally};
use inspection::status::Status;
use inspection::tally::Tally;
use inspection::verdict::Verdict;
use plan_texts::reading::read_plan;
use plans::plan_book::PlanBook;
use regimes::judge::{Judge, Regime};
use regimes::stationary::{Stationary, judge_both, judge_first};
use std::test::Fail;

#[test]
fn the_fresh_plan_accepts_no_defect(rt: HostRuntime) -> Result<(), Fail> {
    let lots = Stationary::new(PlanBook::fresh(rt.alloc())?);
    for status in Status::ALL {
        for size in [1, 9_999_999] {
            assert_eq!(rt; lots.sample_units(status, size, None), Some(1));
            for (counts, verdict) in [
                (Tally::CLEAN, Verdict::Accepted),
                (tally(0, 0, 1), Verdict::Rejected),
            ] {
                assert_eq!(rt; lots.first_verdict(status, size, counts), verdict);
            }
        }
    }
    Ok(())
}

#[test]
fn no_row_is_for_a_lot_out_of_range(rt: HostRuntime) -> Result<(), Fail> {
    let lots = Stationary::new(PlanBook::fresh(rt.alloc())?);
    for size in [0, 10_000_000, u32::MAX] {
        for first in [None, Some(Tally::CLEAN)] {
            assert_eq!(rt; lots.sample_units(Status::Normal, size, first), None);
        }
    }
    Ok(())
}

#[test]
fn window_cap_and_limits_of_lots(rt: HostRuntime) -> Result<(), Fail> {
    let lots = Stationary::new(PlanBook::fresh(rt.alloc())?);
    assert_eq!(rt; lots.window_length(), 10);
    assert_eq!(rt; lots.most_rejected(), 0);
    assert!(rt; !lots.judges_portions());
    assert_eq!(rt; lots.relief_limits(0), None);
    assert_eq!(rt; lots.relief_limits(10), Some(per_class(0, 0, 0)));
    let plan = lots.into_plan();
    assert!(rt; plan.relief_limits(1).is_some());
    Ok(())
}

#[test]
fn a_first_sample_by_a_double_row(rt: HostRuntime) {
    for (minor, verdict) in [
        (5, Verdict::Accepted),
        (6, Verdict::Awaited),
        (7, Verdict::Rejected),
    ] {
        assert_eq!(rt; judge_first(&DOUBLE_ROW, tally(0, 0, minor)).0, verdict);
        assert_eq!(rt; judge_first(&DOUBLE_ROW, tally(0, minor, 0)).0, verdict);
    }
    let critical = tally(2, 0, 0);
    assert_eq!(rt;
        judge_first(&DOUBLE_ROW, critical),
        (Verdict::Awaited, Some(critical))
    );
    assert_eq!(rt;
        judge_first(&DOUBLE_ROW, tally(2, 0, 5)).0,
        Verdict::Rejected
    );
}

#[test]
fn both_samples_by_a_double_row(rt: HostRuntime) {
    let most = tally(u32::MAX, u32::MAX, u32::MAX);
    for (first, second, verdict) in [
        (tally(1, 0, 0), tally(2, 0, 0), Verdict::Accepted),
        (tally(1, 0, 0), tally(3, 0, 0), Verdict::Rejected),
        (tally(0, 0, 6), tally(0, 0, 2), Verdict::Accepted),
        (tally(0, 0, 6), tally(0, 0, 3), Verdict::Rejected),
        (most, most, Verdict::Rejected),
    ] {
        assert_eq!(rt; judge_both(&DOUBLE_ROW, first, second).0, verdict);
    }
}

// The double row for lots from 100 on in each status, and limits from 0 and from 200 units on.
const PLAN: &[u8] = b"L\tN\t100\t13\t26\t0\t3\t3\t5\t7\t8\t5\t7\t8\n\
L\tT\t100\t13\t26\t0\t3\t3\t5\t7\t8\t5\t7\t8\n\
L\tR\t100\t13\t26\t0\t3\t3\t5\t7\t8\t5\t7\t8\n\
M\t0\t0\t1\t2\nM\t200\t3\t4\t5\n";

#[test]
fn both_samples_of_a_lot_by_a_plan_text(rt: HostRuntime) -> Result<(), Fail> {
    let Ok(plan) = read_plan(PLAN, rt.alloc()) else {
        return Err("the plan was refused".into());
    };
    let lots = Stationary::new(plan);
    assert_eq!(rt; lots.sample_units(Status::Normal, 99, None), None);
    assert_eq!(rt; lots.sample_units(Status::Normal, 100, None), Some(13));
    let (verdict, first) = lots.judge(Status::Normal, 100, tally(1, 0, 0), None);
    assert_eq!(rt; verdict, Verdict::Awaited);
    assert_eq!(rt; lots.sample_units(Status::Normal, 100, first), Some(13));
    for (second, verdict) in [
        (tally(2, 0, 5), Verdict::Accepted),
        (tally(2, 0, 6), Verdict::Rejected),
        (tally(3, 0, 0), Verdict::Rejected),
    ] {
        assert_eq!(rt; lots.judge(Status::Normal, 100, second, first).0, verdict);
    }
    assert_eq!(rt; lots.relief_limits(199), Some(per_class(0, 1, 2)));
    assert_eq!(rt; lots.relief_limits(200), Some(per_class(3, 4, 5)));
    Ok(())
}
