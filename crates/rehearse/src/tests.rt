// Examples of texts that are read, and of faults and the lines that tell them.
use crate::asked::{Asked, Line};
use crate::lines::Plots;
use crate::reading::{Fault, Problem, read_plots, read_requests};
use book::table::Book;
use std::process::Abort;
use std::test::Fail;
use texts::unread::Unread;

#[test]
fn plots_are_read(rt: HostRuntime) -> Result<(), Fail> {
    let Ok(entries) = read_plots(rt.alloc(), " 1 2\n\n\t4294967295 007\n") else {
        return Err(Fail::new("refused"));
    };
    let plots = Plots {
        entries: entries.as_slice(),
    };
    assert_eq!(rt;
        plots.to_string(rt.alloc())?.as_str(),
        "plots 1 2 4294967295 7"
    );
    for (text, line) in [("1 2\n3 x", 2), ("+1", 1), ("1\n\n4294967296", 3)] {
        let refused = read_plots(rt.alloc(), text).err();
        assert_eq!(rt; refused, Some(Problem::NoNumber { line }), "at {text}");
    }
    Ok(())
}

// The one request of a line.
fn check_request(
    rt: &impl Abort,
    line: &Line,
    text: &str,
    number: u32,
    count: usize,
) -> Result<(), Fail> {
    assert_eq!(rt; line.text.as_str(), text);
    match &line.asked {
        Asked::Call {
            number: read,
            values,
        } => {
            assert_eq!(rt; *read, number);
            assert_eq!(rt; values.len(), count);
            Ok(())
        }
        Asked::Cell(_) => Err(Fail::new("a cell")),
    }
}

#[test]
fn requests_are_read(rt: HostRuntime) -> Result<(), Fail> {
    let text = "# none\n\n  call 7  1 2 \n cell 3\ncall show 1\ncall ninebytes\n";
    let Ok(lines) = read_requests(rt.alloc(), &Book::empty(), text) else {
        return Err(Fail::new("refused"));
    };
    let [call, cell, unknown, long] = lines.as_slice() else {
        return Err(Fail::new("not four"));
    };
    check_request(&rt, call, "call 7  1 2", 7, 2)?;
    assert!(rt; matches!(cell.asked, Asked::Cell(3)));
    check_request(&rt, unknown, "call show 1", u32::MAX, 1)?;
    check_request(&rt, long, "call ninebytes", u32::MAX, 0)
}

#[test]
fn requests_are_refused(rt: HostRuntime) {
    for (text, problem) in [
        ("cell 0\ncall", Problem::NoRequest { line: 2 }),
        ("look 1", Problem::NoRequest { line: 1 }),
        ("cell 1 2", Problem::NoRequest { line: 1 }),
        ("\ncell x", Problem::NoNumber { line: 2 }),
        ("call show -1", Problem::NoNumber { line: 1 }),
        ("call 4294967296", Problem::NoNumber { line: 1 }),
    ] {
        let refused = read_requests(rt.alloc(), &Book::empty(), text).err();
        assert_eq!(rt; refused, Some(problem), "at {text}");
    }
}

#[test]
fn a_fault_is_one_line(rt: HostRuntime) -> Result<(), Fail> {
    for (file, problem, line) in [
        (
            "plots.txt",
            Problem::Unread(Unread::Missing),
            "plots.txt missing",
        ),
        (
            "calls.txt",
            Problem::NoRequest { line: 2 },
            "calls.txt line 2: no request",
        ),
    ] {
        let fault = Fault { file, problem };
        assert_eq!(rt; fault.to_string(rt.alloc())?.as_str(), line);
    }
    Ok(())
}
