ghost use Rattle.loading.specs.Faults.{shown_as};
ghost use Rattle.std.specs.Prelude.{Some};

use format::refusal::Refused;
use std::fmt;

// Why there is no table: a file is missing, or it is refused. The book's fault comes first.
#[derive(Clone, Copy, Debug, PartialEq, Eq)]
pub enum Fault {
    BookMissing,
    BookRefused(Refused),
    PolicyMissing,
    PolicyRefused(Refused),
}

// A fault is one line: `book missing`, or for example `policy 2 at 67`.
impl fmt::Display for Fault {
    ghost output = { λ e. Some (shown_as e) };

    fn fmt<W: fmt::Write>(&self, f: &mut fmt::Formatter<W>) -> fmt::Result {
        match *self {
            Fault::BookMissing => write!(f, "book missing"),
            Fault::BookRefused(refused) => write!(f, "book {refused}"),
            Fault::PolicyMissing => write!(f, "policy missing"),
            Fault::PolicyRefused(refused) => write!(f, "policy {refused}"),
        }
    }
}
