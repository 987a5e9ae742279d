// Examples of texts that are read, and of faults and the lines that tell them.
use crate::lines::Ground;
use crate::reading::{Fault, Problem, read_burials, read_entries};
use std::test::Fail;
use texts::number::NotNumber;
use texts::unread::Unread;

// The problem of a word on that line that is no number.
fn not_number(line: usize, why: NotNumber) -> Problem {
    Problem::NotNumber { line, why }
}

#[test]
fn entries_are_read(rt: HostRuntime) -> Result<(), Fail> {
    let Ok(entries) = read_entries(rt.alloc(), " 1 2\n\n\t4294967295 007\n") else {
        return Err(Fail::new("refused"));
    };
    let ground = Ground {
        entries: entries.as_slice(),
    };
    assert_eq!(rt; ground.to_string(rt.alloc())?.as_str(), "1 2 4294967295 7");
    Ok(())
}

#[test]
fn entries_are_refused(rt: HostRuntime) {
    for (text, problem) in [
        ("1 2\n3 x", not_number(2, NotNumber::NoDigits)),
        ("1 -2", not_number(1, NotNumber::NoDigits)),
        ("+1", not_number(1, NotNumber::NoDigits)),
        ("1\n\n4294967296", not_number(3, NotNumber::TooLarge)),
    ] {
        let refused = read_entries(rt.alloc(), text).err();
        assert_eq!(rt; refused, Some(problem), "at {text}");
    }
}

#[test]
fn burials_are_refused(rt: HostRuntime) {
    for (text, problem) in [
        ("1 2\n3\n", Problem::NotTwo { line: 2 }),
        ("1 2 3", Problem::NotTwo { line: 1 }),
        ("1 2\n\n3 4", Problem::NotTwo { line: 2 }),
        ("1 2\n3 y", not_number(2, NotNumber::NoDigits)),
        ("4294967296 1", not_number(1, NotNumber::TooLarge)),
    ] {
        let refused = read_burials(rt.alloc(), text).err();
        assert_eq!(rt; refused, Some(problem), "at {text}");
    }
}

#[test]
fn a_fault_is_one_line(rt: HostRuntime) -> Result<(), Fail> {
    let file = "old.txt";
    for (problem, line) in [
        (Problem::Unread(Unread::Missing), "old.txt is missing"),
        (
            not_number(3, NotNumber::NoDigits),
            "old.txt line 3: a word is no number",
        ),
    ] {
        let fault = Fault { file, problem };
        assert_eq!(rt; fault.to_string(rt.alloc())?.as_str(), line);
    }
    Ok(())
}
