// What the cases share: the example's files, a table of refusals, and files that repeat a part.
use format::refusal::Refused;
use loading::load::load;
use policy::table::Table;
use std::alloc::Global;
use std::process::Abort;
use std::test::Fail;

// The example book: three operations, and the calls bury, show and ping.
pub(crate) const BOOK: &[u8; 81] =
    b"\x80reg.put \x10\x01\x10\x02\x80reg.look\x10\x01\x80overwrit\x10\xff\x81bury    \x10\x01\x10\x02\x10\x03\x11\x00\x12\x02\x20\x02\x01\x81show    \x10\x01\x11\x01\x12\x01\x81ping    ";

// The example policy: two cells, and the clauses limit, count, looks and rebury.
pub(crate) const POLICY: &[u8; 78] =
    b"@\x00\x00\x00\x00@\x00\x00\x00\x00\x90\x00limit   \xb0\x03\x00\x00\x00\x00\x02\x02\x00\x00\x00\x00\x01\x90\x00count   a\x00\x00\x00\x00\x00\x01\x90\x01looks   a\x01\x00\x00\x00\x00\x01\x90\x02rebury  \x01";

// The table of the example book and that policy.
pub(crate) fn example_table(rt: &impl Abort, policy: &[u8]) -> Table {
    let mut table = Table::empty();
    assert!(rt; load(Some(BOOK), Some(policy), &mut table).is_ok());
    table
}

// A file, and the number and the offset with which it is refused.
#[derive(Clone, Copy)]
pub(crate) struct Case<'a> {
    pub(crate) file: &'a [u8],
    pub(crate) number: u8,
    pub(crate) offset: u32,
}

pub(crate) fn refused(file: &[u8], number: u8, offset: u32) -> Case<'_> {
    Case {
        file,
        number,
        offset,
    }
}

// Each file is refused as it says, where `read` reads a file as a book or as a policy.
pub(crate) fn check_all<A: Abort, R: Fn(&A, &[u8]) -> Result<(), Refused>>(
    rt: &A,
    read: R,
    cases: &[Case<'_>],
)
    requires { R.IsAlwaysCallable read }
{
    for case in cases {
        let answer = read(rt, case.file).map_err(|met| (met.refusal.number(), met.offset));
        assert_eq!(rt; answer, Err((case.number, case.offset)));
    }
}

// A file, and where its last part begins.
#[derive(Drop)]
pub(crate) struct Built {
    pub(crate) file: Vec<u8>,
    pub(crate) last: u32,
}

// A first part, and then a part so many times; from part to part its last byte grows by that much.
pub(crate) fn repeated(
    rt: &(impl Abort + AllocGlobal),
    first: &[u8],
    part: &[u8],
    times: u32,
    grows: u32,
) -> Result<Built, Fail> {
    let mut file = Vec::new(rt.alloc());
    file.extend_from_slice(first)?;
    let mut offset = 0;
    for number in 0..times {
        offset = file.len();
        file.extend_from_slice(part)?;
        if let Some(last) = file.last_mut() {
            *last = last.saturating_add((number.saturating_mul(grows) % 256) as u8);
        }
    }
    assert!(rt; offset < 32768);
    Ok(Built {
        file,
        last: offset as u32,
    })
}

// A part that stands once more than it may: the last is refused with 4.
pub(crate) fn check_count<A: Abort + AllocGlobal, R: Fn(&A, &[u8]) -> Result<(), Refused>>(
    rt: &A,
    read: R,
    first: &[u8],
    part: &[u8],
    most: u32,
    grows: u32,
) -> Result<(), Fail>
    requires { R.IsAlwaysCallable read }
{
    let long = repeated(rt, first, part, most.saturating_add(1), grows)?;
    check_all(rt, read, &[refused(long.file.as_slice(), 4, long.last)]);
    Ok(())
}

// A policy of 128 cells in which each cell is set from the next, and where asked a violation reads
// cell 0.
pub(crate) fn chain(heap: Global, violates: bool) -> Result<Vec<u8>, Fail> {
    let mut file = Vec::new(heap);
    for _ in 0..128 {
        file.extend_from_slice(b"@\x00\x00\x00\x00")?;
    }
    for number in 0u8..127 {
        file.extend_from_slice(b"\x90\x00chain")?;
        file.extend_from_slice(&[
            b'0' + number / 100,
            b'0' + number / 10 % 10,
            b'0' + number % 10,
        ])?;
        file.extend_from_slice(&[0x60, number, 2, 0, 0, 0, number + 1])?;
    }
    if violates {
        file.extend_from_slice(
            b"\x90\x00violate \xb0\x00\x00\x00\x00\x00\x00\x02\x00\x00\x00\x00\x01",
        )?;
    }
    Ok(file)
}
