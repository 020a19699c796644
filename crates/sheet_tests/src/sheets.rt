// What whole sheets score.
use inspection::class::DefectClass;
use inspection::refusal::Refusal;
use inspection::tally::Tally;
use std::fmt::Write;
use std::test::Fail;
use worksheet::defect::Defect;
use worksheet::scoring::{read, score};

// A sheet, the units of its sample, and what it scores or is refused with.
struct Case<T> {
    sheet: &'static [u8],
    units: u32,
    answer: T,
}

const SCORED: [Case<Tally>; 14] = [
    Case {
        sheet: b"",
        units: 25,
        answer: Tally {
            critical: 0,
            major: 0,
            minor: 0,
        },
    },
    Case {
        sheet: b"",
        units: 0,
        answer: Tally {
            critical: 0,
            major: 0,
            minor: 0,
        },
    },
    Case {
        sheet: b"3\t1\tM\n",
        units: 25,
        answer: Tally {
            critical: 0,
            major: 1,
            minor: 0,
        },
    },
    Case {
        sheet: b"25\t9\tC\n",
        units: 25,
        answer: Tally {
            critical: 1,
            major: 0,
            minor: 0,
        },
    },
    Case {
        sheet: b"9999\t1\tN\n",
        units: 9999,
        answer: Tally {
            critical: 0,
            major: 0,
            minor: 1,
        },
    },
    // Related defects score once, as the most serious, in every order of their classes.
    Case {
        sheet: b"3\t1\tC\n3\t1\tM\n3\t1\tN\n",
        units: 25,
        answer: Tally {
            critical: 1,
            major: 0,
            minor: 0,
        },
    },
    Case {
        sheet: b"3\t1\tM\n3\t1\tN\n3\t1\tC\n",
        units: 25,
        answer: Tally {
            critical: 1,
            major: 0,
            minor: 0,
        },
    },
    Case {
        sheet: b"3\t1\tN\n3\t1\tC\n3\t1\tM\n",
        units: 25,
        answer: Tally {
            critical: 1,
            major: 0,
            minor: 0,
        },
    },
    Case {
        sheet: b"3\t1\tN\n3\t1\tM\n",
        units: 25,
        answer: Tally {
            critical: 0,
            major: 1,
            minor: 0,
        },
    },
    Case {
        sheet: b"3\t1\tM\n3\t1\tN\n",
        units: 25,
        answer: Tally {
            critical: 0,
            major: 1,
            minor: 0,
        },
    },
    Case {
        sheet: b"3\t1\tN\n3\t1\tN\n",
        units: 25,
        answer: Tally {
            critical: 0,
            major: 0,
            minor: 1,
        },
    },
    // Equal units with rising causes, and equal causes with rising units, are different pairs.
    Case {
        sheet: b"3\t1\tM\n3\t2\tN\n3\t9\tC\n",
        units: 25,
        answer: Tally {
            critical: 1,
            major: 1,
            minor: 1,
        },
    },
    Case {
        sheet: b"1\t9\tM\n2\t1\tM\n10\t1\tM\n",
        units: 25,
        answer: Tally {
            critical: 0,
            major: 3,
            minor: 0,
        },
    },
    Case {
        sheet: b"1\t1\tN\n1\t1\tN\n2\t2\tC\n2\t2\tM\n2\t3\tM\n",
        units: 2,
        answer: Tally {
            critical: 1,
            major: 1,
            minor: 1,
        },
    },
];

#[test]
fn sheets_score(rt: HostRuntime) {
    for case in &SCORED {
        assert_eq!(rt; score(case.sheet, case.units), Ok(case.answer));
    }
}

const REFUSED: [Case<Refusal>; 36] = [
    Case {
        sheet: b"\n",
        units: 25,
        answer: Refusal::SheetLineNotOfForm { line: 1 },
    },
    Case {
        sheet: b"3\t1\tM",
        units: 25,
        answer: Refusal::SheetLineNotOfForm { line: 1 },
    },
    Case {
        sheet: b"3\t1\tM\n4\t1\tM",
        units: 25,
        answer: Refusal::SheetLineNotOfForm { line: 2 },
    },
    Case {
        sheet: b"3\t1\tM\n\n",
        units: 25,
        answer: Refusal::SheetLineNotOfForm { line: 2 },
    },
    Case {
        sheet: b"3\t1\tM\r\n",
        units: 25,
        answer: Refusal::SheetLineNotOfForm { line: 1 },
    },
    Case {
        sheet: b"3\t1\tM\n3\t2\tM\r\n",
        units: 25,
        answer: Refusal::SheetLineNotOfForm { line: 2 },
    },
    Case {
        sheet: b"3\t1\t\0\n",
        units: 25,
        answer: Refusal::SheetLineNotOfForm { line: 1 },
    },
    Case {
        sheet: b"\0",
        units: 25,
        answer: Refusal::SheetLineNotOfForm { line: 1 },
    },
    Case {
        sheet: b"3\0\t1\tM\n",
        units: 25,
        answer: Refusal::SheetLineNotOfForm { line: 1 },
    },
    Case {
        sheet: b"3\t1\tM\n\0\n",
        units: 25,
        answer: Refusal::SheetLineNotOfForm { line: 2 },
    },
    Case {
        sheet: b"31\tM\n",
        units: 25,
        answer: Refusal::SheetLineNotOfForm { line: 1 },
    },
    Case {
        sheet: b"3\t1M\n",
        units: 25,
        answer: Refusal::SheetLineNotOfForm { line: 1 },
    },
    Case {
        sheet: b"31M\n",
        units: 25,
        answer: Refusal::SheetLineNotOfForm { line: 1 },
    },
    Case {
        sheet: b"3\t0\tM\n",
        units: 25,
        answer: Refusal::SheetLineNotOfForm { line: 1 },
    },
    Case {
        sheet: b"3\t10\tM\n",
        units: 25,
        answer: Refusal::SheetLineNotOfForm { line: 1 },
    },
    Case {
        sheet: b"0\t1\tM\n",
        units: 25,
        answer: Refusal::SheetLineNotOfForm { line: 1 },
    },
    Case {
        sheet: b"03\t1\tM\n",
        units: 25,
        answer: Refusal::SheetLineNotOfForm { line: 1 },
    },
    Case {
        sheet: b"10000\t1\tM\n",
        units: 10000,
        answer: Refusal::SheetLineNotOfForm { line: 1 },
    },
    Case {
        sheet: b"\t1\tM\n",
        units: 25,
        answer: Refusal::SheetLineNotOfForm { line: 1 },
    },
    Case {
        sheet: b"3\t\tM\n",
        units: 25,
        answer: Refusal::SheetLineNotOfForm { line: 1 },
    },
    Case {
        sheet: b"3\t1\t\n",
        units: 25,
        answer: Refusal::SheetLineNotOfForm { line: 1 },
    },
    Case {
        sheet: b"3\t1\tm\n",
        units: 25,
        answer: Refusal::SheetLineNotOfForm { line: 1 },
    },
    Case {
        sheet: b"3\t1\tX\n",
        units: 25,
        answer: Refusal::SheetLineNotOfForm { line: 1 },
    },
    Case {
        sheet: b" 3\t1\tM\n",
        units: 25,
        answer: Refusal::SheetLineNotOfForm { line: 1 },
    },
    Case {
        sheet: b"+3\t1\tM\n",
        units: 25,
        answer: Refusal::SheetLineNotOfForm { line: 1 },
    },
    Case {
        sheet: b"3\t1\tM \n",
        units: 25,
        answer: Refusal::SheetLineNotOfForm { line: 1 },
    },
    Case {
        sheet: b"3\t1\tM\t\n",
        units: 25,
        answer: Refusal::SheetLineNotOfForm { line: 1 },
    },
    Case {
        sheet: b"\xff\xfe\t1\tM\n",
        units: 25,
        answer: Refusal::SheetLineNotOfForm { line: 1 },
    },
    // The unit above the sample.
    Case {
        sheet: b"26\t1\tM\n",
        units: 25,
        answer: Refusal::UnitAboveSample { line: 1 },
    },
    Case {
        sheet: b"1\t1\tM\n",
        units: 0,
        answer: Refusal::UnitAboveSample { line: 1 },
    },
    Case {
        sheet: b"9999\t1\tN\n",
        units: 9998,
        answer: Refusal::UnitAboveSample { line: 1 },
    },
    // A falling pair, the unit compared first.
    Case {
        sheet: b"3\t1\tM\n2\t9\tM\n",
        units: 25,
        answer: Refusal::PairFalls { line: 2 },
    },
    Case {
        sheet: b"3\t2\tM\n3\t1\tM\n",
        units: 25,
        answer: Refusal::PairFalls { line: 2 },
    },
    Case {
        sheet: b"1\t1\tN\n3\t2\tM\n3\t2\tM\n3\t1\tM\n",
        units: 25,
        answer: Refusal::PairFalls { line: 4 },
    },
    // On one line the lowest number, and over the sheet the first bad line.
    Case {
        sheet: b"30\t2\tM\n29\t1\tM\n",
        units: 25,
        answer: Refusal::UnitAboveSample { line: 1 },
    },
    Case {
        sheet: b"3\t2\tM\n3\t1\tM\n26\t1\tM\nx\n",
        units: 25,
        answer: Refusal::PairFalls { line: 2 },
    },
];

#[test]
fn first_bad_lines_are_named(rt: HostRuntime) {
    for case in &REFUSED {
        assert_eq!(rt; score(case.sheet, case.units), Err(case.answer));
    }
}

// 1,000 units with nine causes each, every line twice, the second time as a major defect.
#[test]
fn a_sheet_of_eighteen_thousand_lines(rt: HostRuntime) -> Result<(), Fail> {
    let mut sheet = String::new(rt.alloc());
    for unit in 1..=1000u16 {
        for cause in 1..=9u8 {
            for class in [DefectClass::Minor, DefectClass::Major] {
                write!(sheet, "{}", Defect { unit, cause, class })?;
            }
        }
    }
    let scored = read(sheet.as_bytes(), 1000)?;
    assert_eq!(rt; scored.lines, 18000);
    assert_eq!(rt;
        scored.tally,
        Tally {
            critical: 0,
            major: 9000,
            minor: 0,
        }
    );
    assert_eq!(rt; scored.tally.total(), 9000);
    assert_eq!(rt;
        score(sheet.as_bytes(), 999),
        Err(Refusal::UnitAboveSample { line: 17983 })
    );
    Ok(())
}
