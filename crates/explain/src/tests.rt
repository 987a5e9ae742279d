// Examples of steps that the shipped book does not have.
use crate::book_lines::{AfterLine, BeforeLine};
use crate::policy_lines::{ClauseLine, GroupLine};
use book::table::{Book, Condition};
use book_file::reading::read_book;
use policy::table::Table;
use policy_file::reading::read_policy;
use std::test::Fail;

// Operation 0 takes marks 1, 2 and the answer, operation 1 the mark 3, and operation 2 nothing.
const BOOK: &[u8; 35] = b"\x80all     \x10\x01\x10\xff\x10\x02\x80own     \x10\x03\x80none    ";

#[test]
fn steps_are_told(rt: HostRuntime) -> Result<(), Fail> {
    let mut book = Book::empty();
    assert!(rt; read_book(BOOK, &mut book).is_ok());
    let (Some(all), Some(own), Some(none)) = (
        book.operations().get(0),
        book.operations().get(1),
        book.operations().get(2),
    ) else {
        return Err(Fail::new("no operation"));
    };
    let line = AfterLine {
        place: 3,
        operation: all,
        condition: Condition::Zero,
    };
    assert_eq!(rt;
        line.to_string(rt.alloc())?.as_str(),
        "  after 3: all takes marks 1 2 and the answer, when it is 0"
    );
    let line = AfterLine {
        place: 0,
        operation: own,
        condition: Condition::NotZero,
    };
    assert_eq!(rt;
        line.to_string(rt.alloc())?.as_str(),
        "  after 0: own takes marks 3, when the answer is not 0"
    );
    let line = BeforeLine {
        place: 1,
        operation: none,
    };
    assert_eq!(rt;
        line.to_string(rt.alloc())?.as_str(),
        "  before 1: none takes no marks"
    );
    Ok(())
}

// Group 0 has operations 0 and 1; a clause on it takes 7 from cell 0 when two conditions hold.
const POLICY: &[u8; 51] =
    b"\x40\x00\x00\x00\x05\x00\x10\x00\x10\x01\x91\x00spare   \xb0\x02\x02\x00\x00\x00\x00\x00\x00\x00\x00\x09\xb0\x01\x02\x00\x00\x00\x00\x00\x00\x00\x00\x00\x62\x00\x00\x00\x00\x00\x07";

#[test]
fn a_group_and_its_clause_are_told(rt: HostRuntime) -> Result<(), Fail> {
    let mut book = Book::empty();
    assert!(rt; read_book(BOOK, &mut book).is_ok());
    let mut table = Table::empty();
    assert!(rt; read_policy(POLICY, &book, &mut table).is_ok());
    let line = GroupLine {
        number: 0,
        book: &book,
        covers: table.coverage(0),
    };
    assert_eq!(rt;
        line.to_string(rt.alloc())?.as_str(),
        "group 0: covers all, own"
    );
    let clause = table
        .clauses()
        .first()
        .ok_or_else(|| Fail::new("no clause"))?;
    let line = ClauseLine {
        number: 0,
        book: &book,
        clause,
    };
    assert_eq!(rt;
        line.to_string(rt.alloc())?.as_str(),
        "clause 0: spare on all, own: when cell 0 is less than 9 and cell 0 is not 0, take 7 from cell 0"
    );
    Ok(())
}
