// Files read as policies against the example book: refusals, counts, coverage, naming, and the example cut short and changed.
use crate::files::{BOOK, POLICY, check_all, check_count, example_table, refused, repeated};
use book::table::Book;
use book_file::reading::read_book;
use format::refusal::Refused;
use policy::naming::{Asked, name_of};
use policy::table::Table;
use policy_file::reading::read_policy;
use std::array;
use std::process::Abort;
use std::test::Fail;

fn example_book(rt: &impl Abort) -> Book {
    let mut book = Book::empty();
    assert!(rt; read_book(BOOK, &mut book).is_ok());
    book
}

// Nothing of a book or a policy is left in the table.
fn check_empty(rt: &impl Abort, table: &Table) {
    assert_eq!(rt;
        (table.book().operations().len(), table.book().calls().len()),
        (0, 0)
    );
    assert_eq!(rt;
        (
            table.cells().len(),
            table.groups().len(),
            table.clauses().len(),
        ),
        (0, 0, 0)
    );
}

// As for books, into this file's own kind of table, which is asked for its own rows.
// Reads the file into a table that holds the example; a refused one leaves the table of two empty
// files.
fn read_over(rt: &impl Abort, file: &[u8]) -> Result<(), Refused> {
    let book = example_book(rt);
    let mut table = Table::empty();
    assert!(rt; read_policy(POLICY, &book, &mut table).is_ok());
    let answer = read_policy(file, &book, &mut table);
    if answer.is_err() {
        check_empty(rt, &table);
    }
    answer
}

#[test]
fn commands_are_refused(rt: HostRuntime) {
    check_all(
        &rt,
        read_over,
        &[
            refused(b"\x02", 1, 0),
            refused(b"@\x00\x00\x00\x00\x12\x01", 1, 5),
            refused(b"@\x00\x00\x00", 2, 0),
            refused(b"\x90\x00limit  ", 2, 0),
            refused(b"\x10\x00", 3, 0),
            refused(b"\x00@\x00\x00\x00\x00", 3, 1),
            refused(b"\x01", 3, 0),
            refused(b"\xb0\x00\x00\x00\x00\x00\x00\x00\x00\x00\x00\x00", 3, 0),
            refused(b"\x90\x00limit   \x01\x00", 3, 11),
            refused(b"\x00\x90\x00limit   \x01\x10\x00", 3, 12),
            refused(b"\x90\x00limit   \x90\x00count   ", 3, 10),
            refused(b"\x90\x00limit   \x01\x01", 3, 11),
            refused(
                b"@\x00\x00\x00\x00\x90\x00limit   \x60\x00\x00\x00\x00\x00\x01\x61\x00\x00\x00\x00\x00\x01",
                3,
                22,
            ),
        ],
    );
}

#[test]
fn operands_are_refused(rt: HostRuntime) {
    check_all(
        &rt,
        read_over,
        &[
            refused(b"\x90\x00limit  \x7f", 5, 0),
            refused(
                b"\x90\x00limit   \xb0\x04\x00\x00\x00\x00\x00\x00\x00\x00\x00\x00",
                5,
                10,
            ),
            refused(
                b"\x90\x00limit   \xb0\x00\x03\x00\x00\x00\x00\x02\x00\x00\x00\x09",
                5,
                10,
            ),
            refused(
                b"\x90\x00limit   \xb0\x00\x00\x00\x00\x00\x00\x01\x00\x00\x00\x00",
                5,
                10,
            ),
            refused(
                b"@\x00\x00\x00\x00\x90\x00limit   \x60\x00\x01\x00\x00\x01\x00",
                5,
                15,
            ),
            refused(b"\x00\x10\x03", 6, 1),
            refused(b"\x00\x11\x00", 6, 1),
            refused(b"\x90\x03limit   ", 6, 0),
            refused(b"\x91\x00limit   ", 6, 0),
            refused(b"\x90\x00limit   \x60\x00\x00\x00\x00\x00\x01", 6, 10),
            refused(
                b"@\x00\x00\x00\x00\x90\x00limit   \xb0\x00\x00\x00\x00\x00\x00\x02\x00\x00\x00\x01",
                6,
                15,
            ),
            refused(b"\x90\x00limit   \x01\x90\x01limit   ", 7, 11),
            refused(b"\x00\x91\x00limit   \x01\x90\x01limit   ", 7, 12),
        ],
    );
}

#[test]
fn marks_and_ends_are_refused(rt: HostRuntime) {
    check_all(
        &rt,
        read_over,
        &[
            // operation 1 has no mark 2
            refused(
                b"\x90\x01looks   \xb0\x00\x01\x00\x00\x00\x02\x00\x00\x00\x00\x00",
                8,
                10,
            ),
            refused(
                b"@\x00\x00\x00\x00\x90\x01looks   \x60\x00\x01\x00\x00\x00\x02",
                8,
                15,
            ),
            // nor has a group that covers it
            refused(
                b"\x00\x10\x00\x10\x01\x91\x00looks   \xb0\x00\x00\x00\x00\x00\x00\x01\x00\x00\x00\x02",
                8,
                15,
            ),
            refused(b"\x90\x00limit   ", 9, 10),
            refused(
                b"\x90\x00limit   \xb0\x00\x00\x00\x00\x00\x00\x00\x00\x00\x00\x00",
                9,
                22,
            ),
        ],
    );
}

#[test]
fn counts_are_refused(rt: HostRuntime) -> Result<(), Fail> {
    check_count(&rt, read_over, b"", b"@\x00\x00\x00\x00", 128, 0)?;
    check_count(&rt, read_over, b"", b"\x00", 32, 0)?;
    check_count(&rt, read_over, b"\x00", b"\x10\x00", 16, 0)?;
    check_count(
        &rt,
        read_over,
        b"\x90\x00limit   ",
        b"\xb0\x00\x00\x00\x00\x00\x00\x00\x00\x00\x00\x00",
        3,
        0,
    )
}

#[test]
fn the_last_of_257_clauses_is_refused(rt: HostRuntime) -> Result<(), Fail> {
    let mut file = Vec::new(rt.alloc());
    for number in 0..257u32 {
        file.extend_from_slice(b"\x90\x00")?;
        file.push((48 + number / 64) as u8)?;
        file.push((48 + number % 64) as u8)?;
        file.extend_from_slice(b"......\x01")?;
    }
    check_all(&rt, read_over, &[refused(file.as_slice(), 4, 2816)]);
    Ok(())
}

// Of one shape with the cases of books, and of other bytes: shared, they would be handed in as all there is to them.
#[test]
fn lengths_are_tested_first(rt: HostRuntime) -> Result<(), Fail> {
    let short = vec![in rt.alloc(); 2; 32767]?;
    let long = vec![in rt.alloc(); 2; 32768]?;
    check_all(
        &rt,
        read_over,
        &[
            refused(short.as_slice(), 1, 0),
            refused(long.as_slice(), 4, 0),
        ],
    );
    Ok(())
}

#[test]
fn a_policy_on_a_refused_book_has_no_operation(rt: HostRuntime) {
    let mut book = example_book(&rt);
    assert!(rt; read_book(b"\x00", &mut book).is_err());
    check_all(
        &rt,
        |_, file| read_policy(file, &book, &mut Table::empty()),
        &[refused(POLICY, 6, 10)],
    );
}

// The policy is read, and its clause 0 applies to these of the three operations.
fn check_applies(rt: &impl Abort, file: &[u8], applies: [bool; 3]) -> Result<(), Fail> {
    let book = example_book(rt);
    let mut table = Table::empty();
    assert!(rt; read_policy(file, &book, &mut table).is_ok());
    let clause = table
        .clauses()
        .first()
        .ok_or_else(|| Fail::new("no clause"))?;
    assert_eq!(rt;
        array::from_fn(|operation| clause.applies_to(operation)),
        applies
    );
    assert!(rt; !clause.applies_to(3) && !clause.applies_to(64));
    Ok(())
}

#[test]
fn groups_cover(rt: HostRuntime) -> Result<(), Fail> {
    // an operation twice
    check_applies(
        &rt,
        b"\x00\x10\x01\x10\x01\x91\x00looks   \x01",
        [false, true, false],
    )?;
    // a diamond: group 3 nests 1 and 2, which both nest 0
    check_applies(
        &rt,
        b"\x00\x10\x00\x00\x11\x00\x10\x02\x00\x11\x00\x00\x11\x01\x11\x02\x91\x03looks   \x01",
        [true, false, true],
    )?;
    // nothing: a field's mark is lacked by no operation
    check_applies(
        &rt,
        b"\x00\x91\x00looks   \xb0\x00\x01\x00\x00\x00\x09\x00\x00\x00\x00\x00\x01",
        [false, false, false],
    )
}

#[test]
fn a_chain_of_32_groups_covers(rt: HostRuntime) -> Result<(), Fail> {
    let chain = repeated(&rt, b"\x00\x10\x02", b"\x00\x11\x00", 31, 1)?;
    let mut file = chain.file;
    file.extend_from_slice(b"\x91\x1flooks   \x01")?;
    check_applies(&rt, file.as_slice(), [false, false, true])
}

// What is asked has that name in the two files, or no name, with that number.
fn check_name(rt: &impl Abort, book: &[u8], policy: &[u8], asked: Asked, says: Result<&[u8], u8>) {
    let table = example_table(rt, POLICY);
    let answer = name_of(&table, asked, book, policy);
    assert_eq!(rt; answer.map_err(|refusal| refusal.number()), says);
}

#[test]
fn calls_and_clauses_are_named(rt: HostRuntime) {
    check_name(&rt, BOOK, POLICY, Asked::Call(0), Ok(b"bury    "));
    check_name(&rt, BOOK, POLICY, Asked::Clause(3), Ok(b"rebury  "));
    check_name(&rt, BOOK, POLICY, Asked::Call(3), Err(25));
    check_name(&rt, BOOK, POLICY, Asked::Clause(4), Err(25));
    check_name(&rt, b"", POLICY, Asked::Call(0), Err(26));
    check_name(&rt, BOOK, b"short", Asked::Clause(3), Err(26));
}

#[test]
fn each_beginning_of_the_example_ends_as_it_must(rt: HostRuntime) {
    let book = example_book(&rt);
    // counted in the loop, which asserts what each refused file comes to
    let mut read = 0u32;
    let mut cut = 0u32;
    let example: &[u8] = POLICY;
    for length in 0..=example.len() {
        match read_policy(&example[0..length], &book, &mut Table::empty()) {
            Ok(()) => read = read.saturating_add(1),
            Err(refused) if refused.refusal.number() == 2 => cut = cut.saturating_add(1),
            Err(refused) => assert_eq!(rt;
                (refused.refusal.number(), refused.offset as usize),
                (9, length)
            ),
        }
    }
    assert_eq!(rt; (read, cut), (7, 67));
}

#[test]
fn the_example_cut_short_is_refused(rt: HostRuntime) {
    let example: &[u8] = POLICY;
    check_all(
        &rt,
        read_over,
        &[
            refused(&example[0..77], 9, 77),
            refused(&example[0..76], 2, 67),
        ],
    );
}

#[test]
fn each_byte_of_the_example_changed_is_a_policy_or_refused(rt: HostRuntime) {
    let book = example_book(&rt);
    // counted in the loop, which asserts what each refused file comes to; by index, since a byte is put at each place
    let mut read = 0u32;
    for place in 0..POLICY.len() {
        for byte in 0..=255u8 {
            let mut file = *POLICY;
            file[place] = byte;
            let mut table = Table::empty();
            match read_policy(&file, &book, &mut table) {
                Ok(()) => read = read.saturating_add(1),
                Err(refused) => {
                    assert!(rt; refused.refusal.number() <= 9 && refused.offset <= 78);
                    check_empty(&rt, &table);
                }
            }
        }
    }
    assert_eq!(rt; read, 8210);
}
