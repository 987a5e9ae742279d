// Files read as books: one table of refusals, the counts, the lengths, and the example cut short and changed.
use crate::files::{BOOK, check_all, check_count, refused};
use book::table::Book;
use book_file::reading::read_book;
use format::refusal::Refused;
use std::process::Abort;
use std::test::Fail;

// Reads the file into a book that holds the example; a refused one leaves no operation and no call.
fn read_over(rt: &impl Abort, file: &[u8]) -> Result<(), Refused> {
    let mut book = Book::empty();
    assert!(rt; read_book(BOOK, &mut book).is_ok());
    let answer = read_book(file, &mut book);
    if answer.is_err() {
        assert_eq!(rt; (book.operations().len(), book.calls().len()), (0, 0));
    }
    answer
}

#[test]
fn commands_are_refused(rt: HostRuntime) {
    check_all(
        &rt,
        read_over,
        &[
            refused(b"\x00", 1, 0),
            refused(b"\x80reg.put \x13\x01", 1, 9),
            refused(b"\x80reg.put", 2, 0),
            refused(b"\x80reg.put \x10", 2, 9),
            refused(b"\x10\x01", 3, 0),
            refused(b"\x80reg.put \x81bury    \x80reg.look", 3, 18),
            refused(b"\x80reg.put \x11\x00", 3, 9),
            refused(b"\x80reg.put \x81bury    \x11\x00\x10\x01", 3, 20),
            refused(b"\x80reg.put \x81bury    \x10\x01\x12\x01\x11\x00", 3, 22),
            refused(b"\x81bury    \x10\x01\x12\x01\x12\x01", 3, 13),
            refused(b"\x80reg.put \x81bury    \x20\x00\x00", 3, 18),
            refused(b"\x12\x01", 3, 0),
        ],
    );
}

#[test]
fn operands_are_refused(rt: HostRuntime) {
    check_all(
        &rt,
        read_over,
        &[
            refused(b"\x80reg\x1fput ", 5, 0),
            refused(b"\x81bury   \x7f", 5, 0),
            refused(b"\x80reg.put \x10\x00", 5, 9),
            refused(b"\x81bury    \x10\xff", 5, 9),
            refused(b"\x81bury    \x10\x01\x12\x03", 5, 11),
            refused(
                b"\x80a       \x81bury    \x10\x01\x12\x01\x20\x09\x03",
                5,
                22,
            ),
            refused(b"\x80a       \x81bury    \x11\x01", 6, 18),
            refused(
                b"\x80a       \x81bury    \x10\x01\x12\x01\x20\x09\x02",
                6,
                22,
            ),
            refused(b"\x80a       \x80a       ", 7, 9),
            refused(b"\x81a       \x81a       ", 7, 9),
            refused(b"\x80a       \x10\x07\x10\x07", 7, 11),
            refused(b"\x81a       \x10\x07\x10\x07", 7, 11),
        ],
    );
}

#[test]
fn missing_marks_are_refused(rt: HostRuntime) {
    check_all(
        &rt,
        read_over,
        &[
            refused(b"\x80a       \x10\x04\x81bury    \x10\x01\x11\x00", 8, 22),
            refused(
                b"\x80a       \x10\x04\x81bury    \x10\x01\x12\x01\x20\x00\x00",
                8,
                24,
            ),
            refused(b"\x81bury    \x10\x02\x12\x01", 8, 11),
            refused(b"\x81bury    \x10\x01\x12\x02", 8, 11),
            // BEFORE 2 in bury, whose operation takes the answer
            refused(
                b"\x80reg.put \x10\x01\x10\x02\x80reg.look\x10\x01\x80overwrit\x10\xff\x81bury    \x10\x01\x10\x02\x10\x03\x11\x02",
                8,
                50,
            ),
            // FIELD 255 in bury
            refused(
                b"\x80reg.put \x10\x01\x10\x02\x80reg.look\x10\x01\x80overwrit\x10\xff\x81bury    \x10\xff",
                5,
                44,
            ),
        ],
    );
}

#[test]
fn counts_are_refused(rt: HostRuntime) -> Result<(), Fail> {
    check_count(&rt, read_over, b"", b"\x80oper... ", 64, 1)?;
    check_count(&rt, read_over, b"\x80a       ", b"\x10\x01", 6, 1)?;
    check_count(&rt, read_over, b"", b"\x81call... ", 64, 1)?;
    check_count(&rt, read_over, b"\x81a       ", b"\x10\x01", 8, 1)?;
    check_count(
        &rt,
        read_over,
        b"\x80a       \x81a       ",
        b"\x11\x00",
        8,
        0,
    )?;
    check_count(
        &rt,
        read_over,
        b"\x80a       \x81a       \x10\x01\x12\x01",
        b"\x20\x00\x00",
        8,
        0,
    )
}

#[test]
fn lengths_are_tested_first(rt: HostRuntime) -> Result<(), Fail> {
    let short = vec![in rt.alloc(); 0; 32767]?;
    let long = vec![in rt.alloc(); 0; 32768]?;
    check_all(
        &rt,
        read_over,
        &[
            refused(short.as_slice(), 1, 0),
            refused(long.as_slice(), 4, 0),
        ],
    );
    Ok(())
}

#[test]
fn each_beginning_of_the_example_is_a_book_or_cut_off(rt: HostRuntime) {
    // counted in the loop, which asserts what each refused file comes to
    let mut books = 0u32;
    let example: &[u8] = BOOK;
    for length in 0..=example.len() {
        match read_book(&example[0..length], &mut Book::empty()) {
            Ok(()) => books = books.saturating_add(1),
            Err(refused) => assert_eq!(rt; refused.refusal.number(), 2),
        }
    }
    assert_eq!(rt; books, 20);
}

#[test]
fn each_byte_of_the_example_changed_is_a_book_or_refused(rt: HostRuntime) {
    // counted in the loop, which asserts what each refused file comes to; by index, since a byte is put at each place
    let mut books = 0u32;
    for place in 0..BOOK.len() {
        for byte in 0..=255u8 {
            let mut file = *BOOK;
            file[place] = byte;
            let mut book = Book::empty();
            match read_book(&file, &mut book) {
                Ok(()) => {
                    books = books.saturating_add(1);
                    assert!(rt; book.operations().len() > 0);
                }
                Err(refused) => {
                    assert!(rt; refused.refusal.number() <= 8 && refused.offset < 81);
                    assert_eq!(rt; (book.operations().len(), book.calls().len()), (0, 0));
                }
            }
        }
    }
    assert_eq!(rt; books, 4856);
}
