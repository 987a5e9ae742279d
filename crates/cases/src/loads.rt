// Pairs of files that give a table or the one fault.
use crate::files::{BOOK, POLICY};
use loading::load::load;
use policy::table::Table;
use std::process::Abort;
use std::test::Fail;

// The fault of two files is that line, and it leaves the table of two empty files.
fn check_fault(
    rt: &(impl Abort + AllocGlobal),
    book: Option<&[u8]>,
    policy: Option<&[u8]>,
    line: &str,
) -> Result<(), Fail> {
    let mut table = Table::empty();
    assert!(rt; load(Some(BOOK), Some(POLICY), &mut table).is_ok());
    assert_eq!(rt; table.clauses().len(), 4);
    let Err(fault) = load(book, policy, &mut table) else {
        return Err(Fail::new("loaded"));
    };
    assert_eq!(rt; format!(in rt.alloc(); "{fault}")?.as_str(), line);
    assert_eq!(rt;
        (
            table.book().calls().len(),
            table.cells().len(),
            table.clauses().len(),
        ),
        (0, 0, 0)
    );
    Ok(())
}

#[test]
fn faults_are_told_the_book_first(rt: HostRuntime) -> Result<(), Fail> {
    let book: &[u8] = BOOK;
    let policy: &[u8] = POLICY;
    let short_book = &book[0..67];
    let short_policy = &policy[0..76];
    let open_policy = &policy[0..77];
    check_fault(&rt, None, None, "book missing")?;
    check_fault(&rt, None, Some(b"\x02"), "book missing")?;
    check_fault(&rt, Some(short_book), None, "book 2 at 66")?;
    check_fault(&rt, Some(b"\x02"), Some(b"\x02"), "book 1 at 0")?;
    check_fault(&rt, Some(BOOK), None, "policy missing")?;
    check_fault(&rt, Some(BOOK), Some(short_policy), "policy 2 at 67")?;
    check_fault(&rt, Some(BOOK), Some(open_policy), "policy 9 at 77")?;
    check_fault(&rt, Some(b""), Some(POLICY), "policy 6 at 10")
}
