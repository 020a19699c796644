// Lines of text, both ways.
use crate::{lot, opened, portion};
use entries::entry::Entry;
use entries::line::{LINE, read_line, write_line};
use inspection::kind::Kind;
use inspection::status::Status;
use inspection::verdict::Verdict;
use std::process::Abort;

// The entry's line reads back as the entry.
fn reads_back(rt: &impl Abort, entry: Entry) {
    let mut line = [0u8; LINE];
    assert!(rt; write_line(&mut line, &entry));
    assert_eq!(rt; read_line(&line), entry);
}

#[test]
fn lines_are_zero_filled_and_tab_parted(rt: HostRuntime) {
    let mut line = [0u8; LINE];
    assert!(rt; write_line(&mut line, &lot(6000, 50, 1, 20, 300)));
    assert!(rt; line.as_slice() == b"L\tN\tA\t0006000\t0050\t00001\t00020\t00300\n".as_slice());
    assert!(rt; write_line(&mut line, &opened()));
    assert!(rt; line.as_slice() == b"O\tN\t-\t0000000\t0000\t00000\t00000\t00000\n".as_slice());
    assert!(rt; !write_line(&mut line[0..36], &opened()));
}

#[test]
fn each_field_at_its_ends_reads_back(rt: HostRuntime) {
    for n in [0, 1, 9_999_999] {
        reads_back(&rt, lot(n, 0, 0, 0, 0));
    }
    for n in [0, 1, 9_999] {
        reads_back(&rt, lot(1, n, 0, 0, 0));
    }
    for n in [0, 1, 99_999] {
        reads_back(&rt, lot(1, 1, n, 0, 0));
        reads_back(&rt, lot(1, 1, 0, n, 0));
        reads_back(&rt, lot(1, 1, 0, 0, n));
    }
    reads_back(&rt, portion(12));
}

#[test]
fn each_letter_reads_back(rt: HostRuntime) {
    for status in Status::ALL {
        for verdict in [
            Verdict::Accepted,
            Verdict::Rejected,
            Verdict::Awaited,
            Verdict::Full,
            Verdict::Brief,
            Verdict::Undecided,
        ] {
            for kind in [
                Kind::Portion,
                Kind::PeriodEnded,
                Kind::Lot,
                Kind::SecondSample,
            ] {
                reads_back(
                    &rt,
                    Entry {
                        kind,
                        status,
                        verdict,
                        ..lot(0, 0, 0, 0, 0)
                    },
                );
            }
        }
        for kind in [Kind::PeriodOpened, Kind::Relief, Kind::IrregularNotice] {
            reads_back(
                &rt,
                Entry {
                    kind,
                    status,
                    ..opened()
                },
            );
        }
    }
}

#[test]
fn what_is_not_writable_reads_as_spoiled(rt: HostRuntime) {
    let unwritable = [
        Entry::SPOILED,
        lot(10_000_000, 1, 0, 0, 0),
        lot(1, 10_000, 0, 0, 0),
        lot(1, 1, 100_000, 0, 0),
        lot(1, 1, 0, 100_000, 0),
        lot(1, 1, 0, 0, 100_000),
        Entry {
            lot_size: 1,
            ..portion(0)
        },
        Entry {
            verdict: Verdict::Accepted,
            ..opened()
        },
        Entry {
            units: 1,
            ..opened()
        },
        Entry {
            kind: Kind::PeriodEnded,
            units: 1,
            ..opened()
        },
    ];
    for entry in unwritable {
        assert!(rt; !entry.is_writable());
        assert_eq!(rt; entry.or_spoiled(), Entry::SPOILED);
    }
    assert_eq!(rt;
        read_line(b"X\tN\t-\t0000000\t0000\t00000\t00000\t00000\n"),
        Entry::SPOILED
    );
    assert_eq!(rt;
        read_line(b"P\tN\tA\t0000001\t0025\t00000\t00000\t00000\n"),
        Entry::SPOILED
    );
    assert_eq!(rt; read_line(b""), Entry::SPOILED);
    assert_eq!(rt;
        read_line(b"P\tN\tA\t0000000\t0025\t00000\t00000\t00000\n\n"),
        Entry::SPOILED
    );
}

// A portion's line with each of its bytes changed to a letter that stands nowhere in a line.
#[test]
fn each_damaged_byte_spoils_a_line(rt: HostRuntime) {
    let mut line = [0u8; LINE];
    assert!(rt; write_line(&mut line, &portion(7)));
    for i in 0..LINE {
        let mut damaged = line;
        damaged[i] = b'z';
        assert_eq!(rt; read_line(&damaged), Entry::SPOILED);
    }
    assert_eq!(rt; read_line(&line), portion(7));
}
