// The name of a call and the label of a clause, as parts of the files that they were read from.
ghost use Rattle.book.specs.Meaning.{call_places};
ghost use Rattle.policy.specs.Meaning.{label_places};
ghost use Rattle.policy.specs.Naming.{naming_number, handed, eight_at, name_of, HandsOut};
ghost use Rattle.std.specs.Prelude.{◌≡◌};

use crate::table::Table;

// What is to be named: a call of the book, or a clause of the policy.
#[derive(Clone, Copy, Debug, PartialEq, Eq)]
pub enum Asked {
    Call(usize),
    Clause(usize),
}

// Why there is no name to hand out, by number.
#[derive(Clone, Copy, Debug, PartialEq, Eq)]
pub enum NamingRefusal {
    NoSuchNumber = 25,
    EndsTooEarly = 26,
}

impl NamingRefusal {
    // Its discriminant, by a name: `u8::from(refusal)` would not say what the number is.
    pub fn number(self) -> u8
        ensures { result ≡ naming_number self }
    {
        self as u8
    }
}

// The eight bytes at that place.
fn eight_at(bytes: &[u8], place: u32) -> Result<&[u8], NamingRefusal>
    ensures { handed result ≡ eight_at bytes.now place }
{
    let from = place as usize;
    bytes.get(from..from + 8).ok_or(NamingRefusal::EndsTooEarly)
}

// The eight bytes of a call's name, a part of the book's file, or of a clause's label, a part of the
// policy's, at the place found in reading.
#[tactic(auto, using(book::proofs::Slices::slices, crate::proofs::Handing::hands_out))]
pub fn name_of<'a>(
    table: &Table,
    asked: Asked,
    book: &'a [u8],
    policy: &'a [u8],
) -> Result<&'a [u8], NamingRefusal>
    ensures is { handed result ≡ name_of (call_places table.now.book) (label_places table.now) asked book.now policy.now }
    ensures hands { HandsOut (call_places table.now.book) (label_places table.now) asked book.now policy.now (handed result) }
{
    match asked {
        Asked::Call(number) => {
            let calls = table.book().calls();
            let call = calls.get(number).ok_or(NamingRefusal::NoSuchNumber)?;
            eight_at(book, call.place())
        }
        Asked::Clause(number) => {
            let clauses = table.clauses();
            let clause = clauses.get(number).ok_or(NamingRefusal::NoSuchNumber)?;
            eight_at(policy, clause.place())
        }
    }
}
