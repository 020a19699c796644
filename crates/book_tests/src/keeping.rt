// What books keep.
ghost use Rattle.std.specs.Prelude.{◌≡◌, OnOk, OnErr};
ghost use Rattle.books.specs.Stores.{line_after, record_after};

use crate::{lot, opened, portion};
use books::book::Book;
use books::table::TableBook;
use books::text::TextBook;
use books::volumes::TwoVolumes;
use entries::entry::Entry;
use inspection::refusal::Refusal;
use std::process::Abort;

// Adds entries until the book is full, and reads them back.
fn fills<B: Book>(rt: &impl Abort, book: &mut B, room: u32) {
    assert_eq!(rt; book.count(), 0);
    assert_eq!(rt; book.room_left(), room);
    assert_eq!(rt; book.entry(1), None);
    for n in 0..room {
        assert_eq!(rt; book.add(Entry::SPOILED), Err(Refusal::EntryUnwritable));
        assert_eq!(rt; book.add(lot(n, 1, 0, 0, 0)), Ok(()));
        assert_eq!(rt; book.room_left(), room - 1 - n);
    }
    assert_eq!(rt; book.add(portion(0)), Err(Refusal::NoRoom));
    assert_eq!(rt; book.add(Entry::SPOILED), Err(Refusal::NoRoom));
    assert_eq!(rt; book.count(), room);
    assert_eq!(rt; book.entry(0), None);
    assert_eq!(rt; book.entry(room.saturating_add(1)), None);
    for n in 0..room {
        assert_eq!(rt; book.entry(n + 1), Some(lot(n, 1, 0, 0, 0)));
    }
}

#[test]
fn a_table_book_fills(rt: HostRuntime) {
    let mut records = [opened(); 5];
    fills(&rt, &mut TableBook::set(&mut records, 0), 5);
}

#[test]
fn a_text_book_fills(rt: HostRuntime) {
    let mut bytes = [b'?'; 37 * 4 + 36];
    fills(&rt, &mut TextBook::set(&mut bytes, 0), 4);
    let tail = &bytes[37 * 4..37 * 4 + 36];
    assert!(rt; tail == [b'?'; 36].as_slice());
}

// What a caller learns of the bytes that it lent: an entry that is added has its line, and no other byte changes.
fn add_first_line(bytes: &mut [u8], entry: Entry) -> Result<(), Refusal>
    ensures added { OnOk result (bytes.new ≡ line_after 0 entry bytes.old) }
    ensures same { OnErr result (bytes.new ≡ bytes.old) }
{
    TextBook::set(bytes, 0).add_entry(entry)
}

// The same of records.
fn add_first_record(records: &mut [Entry], entry: Entry) -> Result<(), Refusal>
    ensures added { OnOk result (records.new ≡ record_after 0 entry records.old) }
    ensures same { OnErr result (records.new ≡ records.old) }
{
    TableBook::set(records, 0).add_entry(entry)
}

#[test]
fn an_entry_is_written_into_its_place_alone(rt: HostRuntime) {
    let mut bytes = [b'?'; 37 + 3];
    assert_eq!(rt;
        add_first_line(&mut bytes, Entry::SPOILED),
        Err(Refusal::EntryUnwritable)
    );
    assert!(rt; bytes == [b'?'; 37 + 3]);
    assert_eq!(rt; add_first_line(&mut bytes, portion(7)), Ok(()));
    assert!(rt; bytes.as_slice() == b"P\tN\tA\t0000000\t0025\t00000\t00000\t00007\n???".as_slice());
    let mut records = [opened(); 2];
    assert_eq!(rt;
        add_first_record(&mut records, Entry::SPOILED),
        Err(Refusal::EntryUnwritable)
    );
    assert_eq!(rt; add_first_record(&mut records, portion(7)), Ok(()));
    assert_eq!(rt; records, [portion(7), opened()]);
}

#[test]
fn books_without_memory_are_full(rt: HostRuntime) {
    let mut none: [Entry; 0] = [];
    fills(&rt, &mut TableBook::set(&mut none, 9), 0);
    let mut short = [0u8; 36];
    fills(&rt, &mut TextBook::set(&mut short, 9), 0);
}

#[test]
fn a_count_is_cut_to_the_places(rt: HostRuntime) {
    let mut records = [opened(), Entry::SPOILED, lot(10_000_000, 0, 0, 0, 0)];
    let book = TableBook::set(&mut records, 4);
    assert_eq!(rt; book.count(), 3);
    assert_eq!(rt; book.room_left(), 0);
    assert_eq!(rt; book.entry(1), Some(opened()));
    assert_eq!(rt; book.entry(3), Some(Entry::SPOILED));
    let mut bytes = [0u8; 37 * 2];
    let book = TextBook::set(&mut bytes, usize::MAX);
    assert_eq!(rt; book.count(), 2);
    assert_eq!(rt; book.entry(2), Some(Entry::SPOILED));
    assert_eq!(rt; book.entry(3), None);
}

#[test]
fn two_volumes_fill_the_first_and_then_the_second(rt: HostRuntime) {
    let mut records = [opened(); 2];
    let mut bytes = [0u8; 37 * 3];
    let mut book = TwoVolumes::of(
        TableBook::set(&mut records, 0),
        TextBook::set(&mut bytes, 0),
    );
    fills(&rt, &mut book, 5);
}

#[test]
fn volumes_nest(rt: HostRuntime) {
    let mut a = [opened(); 1];
    let mut b = [opened(); 2];
    let mut c = [0u8; 37];
    let inner = TwoVolumes::of(TableBook::set(&mut a, 0), TableBook::set(&mut b, 0));
    let mut book = TwoVolumes::of(inner, TextBook::set(&mut c, 0));
    fills(&rt, &mut book, 4);
}

// Once the second volume has begun, what room the first has is not used.
#[test]
fn a_second_volume_that_has_begun_takes_over(rt: HostRuntime) {
    let mut first = [opened(); 3];
    let mut second = [portion(1); 3];
    let mut book = TwoVolumes::of(
        TableBook::set(&mut first, 1),
        TableBook::set(&mut second, 1),
    );
    assert_eq!(rt; book.count(), 2);
    assert_eq!(rt; book.room_left(), 2);
    assert_eq!(rt; book.entry(2), Some(portion(1)));
    assert_eq!(rt; book.add(portion(2)), Ok(()));
    assert_eq!(rt; book.entry(3), Some(portion(2)));
    assert_eq!(rt; book.room_left(), 1);
}
