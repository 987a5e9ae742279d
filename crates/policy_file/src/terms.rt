// The terms that operands stand for.
ghost use Rattle.policy.specs.Meaning.{policy_of};
ghost use Rattle.policy_file.specs.Terms.{is_mark, known, term_of};
ghost use Rattle.std.specs.Prelude.{◌≡◌};

use crate::commands::RawTerm;
use policy::table::{Table, Term};

// Whether the number is a mark.
fn is_mark(number: u32) -> bool
    ensures { result ≡ is_mark number }
{
    1 <= number && number <= 255
}

impl RawTerm {
    // Whether there is a term of that kind, and of a field whether the number is a mark.
    pub(crate) fn is_known(self) -> bool
        ensures { result ≡ known self }
    {
        match self.kind {
            0 | 2 => true,
            1 => is_mark(self.number),
            _ => false,
        }
    }

    // The term of that table, where it is known and its cell, if it is one, is defined.
    pub(crate) fn term(self, table: &Table) -> Option<Term>
        ensures { result ≡ term_of (policy_of table.now).cells self }
    {
        let number = self.number;
        match self.kind {
            0 => Some(Term::Number(number)),
            1 if is_mark(number) => Some(Term::Field(number as u8)),
            2 if (number as usize) < table.cells().len() => Some(Term::Cell(number as u8)),
            _ => None,
        }
    }
}
