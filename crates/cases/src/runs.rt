// The worked cases run on the code, each afresh on three plots of 0: as a flat register, and as two joined.
use crate::files::{BOOK, POLICY};
use loading::load::load;
use policy::table::Table;
use register::flat::Flat;
use register::joined::Joined;
use register::register::Register;
use run::answers::Request;
use run::run::Run;
use std::process::Abort;
use std::test::Fail;

// A request, and what is said of its answer.
#[derive(Clone, Copy)]
struct Step<'a> {
    request: Request<'a>,
    says: &'a str,
}

fn call<'a>(number: u32, values: &'a [u32], says: &'a str) -> Step<'a> {
    Step {
        request: Request::Call(number, values),
        says,
    }
}

fn cell(number: u32, says: &str) -> Step<'_> {
    Step {
        request: Request::Cell(number),
        says,
    }
}

// Runs the requests in order on a register, each with its answer, and hands the register back.
// A table and its steps go together through this file alone: a struct of both would be made once, and taken apart here.
fn check_steps<R: Register + Drop>(
    rt: &(impl Abort + AllocGlobal),
    table: &Table,
    register: R,
    steps: &[Step],
) -> Result<R, Fail> {
    let mut run = Run::open(table, register);
    for step in steps {
        let answer = run.answer(step.request);
        assert_eq!(rt; format!(in rt.alloc(); "{answer}")?.as_str(), step.says);
    }
    Ok(run.close())
}

// The requests have those answers, and the plots end so, on a flat register.
fn check_flat(
    rt: &(impl Abort + AllocGlobal),
    table: &Table,
    steps: &[Step],
    plots: &[u32],
) -> Result<(), Fail> {
    let mut numbers = [0; 3];
    let register = check_steps(rt, table, Flat::new(&mut numbers), steps)?;
    let left: &[u32] = register.into_numbers();
    assert_eq!(rt; left, plots);
    Ok(())
}

// The same on two registers joined, of one plot and of two.
fn check_joined(
    rt: &(impl Abort + AllocGlobal),
    table: &Table,
    steps: &[Step],
    old: &[u32],
    extension: &[u32],
) -> Result<(), Fail> {
    let mut first = [0; 1];
    let mut second = [0; 2];
    let grounds = Joined::new(Flat::new(&mut first), Flat::new(&mut second));
    let (one, two) = check_steps(rt, table, grounds, steps)?.into_parts();
    let left: &[u32] = one.into_numbers();
    assert_eq!(rt; left, old);
    let right: &[u32] = two.into_numbers();
    assert_eq!(rt; right, extension);
    Ok(())
}

// The requests have those answers, and the plots, three in every case, end as the old ground and its extension, on both
// registers.
fn check_case(
    rt: &(impl Abort + AllocGlobal),
    book: &[u8],
    steps: &[Step],
    plots: [u32; 3],
) -> Result<(), Fail> {
    let mut table = Table::empty();
    assert!(rt; load(Some(book), Some(POLICY), &mut table).is_ok());
    let [one, two, three] = plots;
    check_flat(rt, &table, steps, &[one, two, three])?;
    check_joined(rt, &table, steps, &[one], &[two, three])
}

#[test]
fn a_second_burial_stops_the_run(rt: HostRuntime) -> Result<(), Fail> {
    check_case(
        &rt,
        BOOK,
        &[
            call(0, &[1, 70, 5], "done 0"),
            call(0, &[1, 71, 5], "stopped 70 after 0 operation 2 clause 3"),
            call(1, &[0], "refused 20"),
            cell(0, "value 2"),
        ],
        [0, 71, 0],
    )
}

#[test]
fn the_third_burial_is_denied(rt: HostRuntime) -> Result<(), Fail> {
    check_case(
        &rt,
        BOOK,
        &[
            call(0, &[0, 70, 5], "done 0"),
            call(0, &[1, 70, 5], "done 0"),
            call(0, &[2, 70, 5], "denied before 0 operation 0 clause 0"),
            cell(0, "value 2"),
            call(1, &[1], "done 70"),
        ],
        [70, 70, 0],
    )
}

#[test]
fn refused_calls_change_nothing(rt: HostRuntime) -> Result<(), Fail> {
    check_case(
        &rt,
        BOOK,
        &[
            call(0, &[9, 70, 5], "refused 23"),
            cell(0, "value 0"),
            call(0, &[1, 70], "refused 22"),
            call(3, &[], "refused 21"),
            cell(2, "refused 24"),
            call(2, &[], "done 0"),
        ],
        [0, 0, 0],
    )
}

// With mark 4 put first in bury, its values come one place later.
#[test]
fn values_go_by_their_marks(rt: HostRuntime) -> Result<(), Fail> {
    check_case(
        &rt,
        b"\x80reg.put \x10\x01\x10\x02\x80reg.look\x10\x01\x80overwrit\x10\xff\x81bury    \x10\x04\x10\x01\x10\x02\x10\x03\x11\x00\x12\x02\x20\x02\x01\x81show    \x10\x01\x11\x01\x12\x01\x81ping    ",
        &[
            call(0, &[8, 1, 70, 5], "done 0"),
            call(0, &[8, 1, 71, 5], "stopped 70 after 0 operation 2 clause 3"),
            call(1, &[0], "refused 20"),
        ],
        [0, 71, 0],
    )
}
