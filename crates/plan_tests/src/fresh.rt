// What the fresh plan book says.
use inspection::class::PerClass;
use inspection::status::Status;
use plans::plan_book::PlanBook;
use plans::rows::{ClassNumbers, LimitRow, LotRow};
use std::test::Fail;

const NONE_ACCEPTED: ClassNumbers = ClassNumbers {
    accept_first: 0,
    reject_first: 1,
    accept_both: 0,
};

#[test]
fn the_fresh_plan_has_a_row_for_every_lot(rt: HostRuntime) -> Result<(), Fail> {
    let plan = PlanBook::fresh(rt.alloc())?;
    for status in Status::ALL {
        let row = LotRow {
            status,
            lowest_size: 1,
            first_sample: 1,
            total_sample: 1,
            numbers: PerClass {
                critical: NONE_ACCEPTED,
                major: NONE_ACCEPTED,
                total: NONE_ACCEPTED,
            },
        };
        assert_eq!(rt; plan.lot_row(status, 0), None);
        for size in [1, 2, 9_999_999, u32::MAX] {
            assert_eq!(rt; plan.lot_row(status, size), Some(row));
        }
    }
    Ok(())
}

#[test]
fn the_fresh_plan_has_limits_from_one_unit_on(rt: HostRuntime) -> Result<(), Fail> {
    let plan = PlanBook::fresh(rt.alloc())?;
    let none = LimitRow {
        lowest_units: 1,
        limits: PerClass {
            critical: 0,
            major: 0,
            total: 0,
        },
    };
    assert_eq!(rt; plan.relief_limits(0), None);
    assert_eq!(rt; plan.relief_limits(1), Some(none));
    assert_eq!(rt; plan.relief_limits(20_000), Some(none));
    Ok(())
}
