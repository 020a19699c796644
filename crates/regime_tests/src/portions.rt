// Portions: stretches whose values were reckoned by hand, and the counts at the edge of each status.
use crate::{per_class, tally};
use inspection::status::Status;
use inspection::tally::Tally;
use inspection::verdict::Verdict;
use regimes::cusum::Values;
use regimes::judge::{Judge, Regime};
use regimes::on_line::OnLine;
use std::process::Abort;

// A stretch of portions, each with its verdict and the values after it.
fn goes_by(rt: &impl Abort, status: Status, steps: &[(Tally, Verdict, Values)]) {
    let mut values = OnLine.starting(status);
    for (tally, verdict, after) in steps {
        let (answer, held) = OnLine.judge(status, 0, *tally, values);
        assert_eq!(rt; answer, *verdict);
        assert_eq!(rt; held, *after);
        values = held;
    }
}

#[test]
fn stretches_go_by_the_values_reckoned_by_hand(rt: HostRuntime) {
    // From 35, 100 and 100 on.
    let on_normal = [
        (tally(0, 1, 1), Verdict::Accepted, per_class(30, 150, 100)),
        (tally(0, 1, 2), Verdict::Accepted, per_class(25, 200, 200)),
        // Major reaches 250.
        (tally(0, 1, 0), Verdict::Rejected, per_class(20, 200, 100)),
        (tally(0, 0, 4), Verdict::Accepted, per_class(15, 150, 300)),
        // The total reaches 400.
        (tally(0, 0, 3), Verdict::Rejected, per_class(10, 100, 300)),
        (tally(0, 0, 0), Verdict::Accepted, per_class(5, 50, 100)),
        // The total would fall to -100.
        (tally(0, 0, 0), Verdict::Accepted, per_class(0, 0, 0)),
        (tally(0, 2, 0), Verdict::Accepted, per_class(0, 150, 0)),
        (tally(1, 0, 0), Verdict::Accepted, per_class(95, 100, 0)),
        // Critical reaches 190.
        (tally(1, 0, 0), Verdict::Rejected, per_class(95, 50, 0)),
    ];
    goes_by(&rt, Status::Normal, &on_normal);
    // From 0, 0 and 0 on.
    let on_reduced = [
        (tally(0, 1, 2), Verdict::Accepted, per_class(0, 50, 100)),
        (tally(0, 0, 3), Verdict::Rejected, per_class(0, 0, 100)),
        (tally(0, 0, 2), Verdict::Accepted, per_class(0, 0, 100)),
        (tally(0, 2, 0), Verdict::Rejected, per_class(0, 50, 100)),
        (tally(1, 0, 0), Verdict::Rejected, per_class(0, 0, 0)),
    ];
    goes_by(&rt, Status::Reduced, &on_reduced);
}

// The verdicts are those of an independent reading of the rules, in another language; the values were reckoned by hand.
#[test]
fn a_stretch_on_tightened_is_judged_as_an_independent_reading_has_it(rt: HostRuntime) {
    // From 30, 40 and 100 on.
    let on_tightened = [
        (tally(0, 3, 0), Verdict::Rejected, per_class(20, 160, 150)),
        (tally(0, 0, 2), Verdict::Accepted, per_class(10, 80, 100)),
        (tally(0, 2, 0), Verdict::Rejected, per_class(0, 160, 50)),
        (tally(0, 0, 0), Verdict::Accepted, per_class(0, 80, 0)),
        (tally(0, 0, 0), Verdict::Accepted, per_class(0, 0, 0)),
        (tally(0, 0, 0), Verdict::Accepted, per_class(0, 0, 0)),
        (tally(0, 0, 0), Verdict::Accepted, per_class(0, 0, 0)),
        (tally(2, 0, 0), Verdict::Rejected, per_class(90, 0, 0)),
        (tally(1, 0, 0), Verdict::Rejected, per_class(90, 0, 0)),
        (tally(0, 0, 0), Verdict::Accepted, per_class(80, 0, 0)),
        (tally(0, 3, 0), Verdict::Rejected, per_class(70, 160, 50)),
    ];
    goes_by(&rt, Status::Tightened, &on_tightened);
}

// The largest count of each kind that a first portion is accepted with; one more rejects it.
#[test]
fn a_first_portion_is_accepted_up_to_its_edge(rt: HostRuntime) {
    for (status, accepted, rejected) in [
        (Status::Normal, tally(0, 0, 0), tally(1, 0, 0)),
        (Status::Normal, tally(0, 1, 0), tally(0, 2, 0)),
        (Status::Normal, tally(0, 0, 4), tally(0, 0, 5)),
        (Status::Tightened, tally(0, 0, 0), tally(1, 0, 0)),
        (Status::Tightened, tally(0, 2, 0), tally(0, 3, 0)),
        (Status::Tightened, tally(0, 0, 4), tally(0, 0, 5)),
        (Status::Reduced, tally(0, 0, 0), tally(1, 0, 0)),
        (Status::Reduced, tally(0, 1, 0), tally(0, 2, 0)),
        (Status::Reduced, tally(0, 0, 3), tally(0, 0, 4)),
    ] {
        assert_eq!(rt;
            OnLine.first_verdict(status, 0, accepted),
            Verdict::Accepted
        );
        assert_eq!(rt;
            OnLine.first_verdict(status, 0, rejected),
            Verdict::Rejected
        );
    }
}

#[test]
fn the_largest_counts_and_values_are_judged_too(rt: HostRuntime) {
    let most = tally(u32::MAX, u32::MAX, u32::MAX);
    let high = per_class(u32::MAX, u32::MAX, u32::MAX);
    assert_eq!(rt;
        OnLine.judge(Status::Normal, 0, most, high),
        (Verdict::Rejected, per_class(95, 200, 300))
    );
}

#[test]
fn units_window_and_cap_of_portions(rt: HostRuntime) {
    for (status, units) in [
        (Status::Normal, 25),
        (Status::Tightened, 50),
        (Status::Reduced, 13),
    ] {
        let values = OnLine.starting(status);
        assert_eq!(rt; OnLine.sample_units(status, 0, values), Some(units));
    }
    assert_eq!(rt; OnLine.window_length(), 40);
    assert_eq!(rt; OnLine.most_rejected(), 1);
    for units in [0, 1000, u64::MAX] {
        assert_eq!(rt; OnLine.relief_limits(units), Some(per_class(0, 9, 54)));
    }
    assert!(rt; OnLine.judges_portions());
}
