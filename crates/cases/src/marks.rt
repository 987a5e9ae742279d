// Tables that are marked: the example, an empty policy, a long chain, a cycle, a group that covers nothing.
use crate::files::{POLICY, chain, example_table};
use policy::table::Table;
use pruning::marking::mark;
use pruning::marks::Marks;
use pruning::reasons::Marking;
use std::process::Abort;
use std::test::Fail;

// How many steps of each call of the example book are kept, and how many there are.
fn check_steps(rt: &impl Abort, table: &Table, marks: &Marks, kept: [usize; 3]) {
    let calls = table.book().calls();
    assert_eq!(rt; calls.len(), 3);
    for (call, expected) in calls.iter().zip(kept.into_iter().zip([2, 1, 0])) {
        let steps = Marking { table, marks }.count_steps(call);
        assert_eq!(rt; (steps.kept, steps.all), expected);
    }
}

#[test]
fn the_example_is_marked(rt: HostRuntime) {
    let table = example_table(&rt, POLICY);
    let marks = mark(&table);
    assert_eq!(rt; &marks.cells[0..3], &[true, false, false][..]);
    assert_eq!(rt; &marks.clauses[0..5], &[true, true, false, true, false][..]);
    check_steps(&rt, &table, &marks, [2, 0, 0]);
}

#[test]
fn an_empty_policy_keeps_no_step(rt: HostRuntime) {
    let table = example_table(&rt, b"");
    check_steps(&rt, &table, &mark(&table), [0, 0, 0]);
}

// Cell 0 is read by a violation, and each cell is written from the next: all matter. Without the
// violation nothing does.
#[test]
fn a_chain_is_marked_to_its_end(rt: HostRuntime) -> Result<(), Fail> {
    let file = chain(rt.alloc(), true)?;
    let table = example_table(&rt, file.as_slice());
    let marks = mark(&table);
    assert_eq!(rt; table.clauses().len(), 128);
    assert!(rt; (0..128).all(|number| marks.cell(number) && marks.clause(number)));
    assert!(rt; !marks.clause(128));
    let file = chain(rt.alloc(), false)?;
    let table = example_table(&rt, file.as_slice());
    let marks = mark(&table);
    assert_eq!(rt; table.clauses().len(), 127);
    assert!(rt; (0..128).all(|number| !marks.cell(number) && !marks.clause(number)));
    Ok(())
}

// Two cells that are written from each other, beside a violation that reads a third.
#[test]
fn a_cycle_is_idle(rt: HostRuntime) {
    let table = example_table(
        &rt,
        b"@\x00\x00\x00\x00@\x00\x00\x00\x00@\x00\x00\x00\x00\x90\x00there   \x60\x00\x02\x00\x00\x00\x01\x90\x00back    \x60\x01\x02\x00\x00\x00\x00\x90\x01third   \xb0\x00\x00\x00\x00\x00\x00\x02\x00\x00\x00\x02\x01",
    );
    let marks = mark(&table);
    assert_eq!(rt; &marks.cells[0..3], &[false, false, true][..]);
    assert_eq!(rt; &marks.clauses[0..3], &[false, false, true][..]);
    check_steps(&rt, &table, &marks, [0, 1, 0]);
}

// A violation on a group that covers nothing matters, and no step is kept for it.
#[test]
fn a_clause_on_nothing_keeps_no_step(rt: HostRuntime) {
    let table = example_table(&rt, b"\x00\x91\x00nothing \x01");
    let marks = mark(&table);
    assert!(rt; marks.clause(0));
    check_steps(&rt, &table, &marks, [0, 0, 0]);
}
