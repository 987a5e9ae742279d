// An operation, and what may be asked of it.
ghost use Rattle.book.specs.Books.{new_op};
ghost use Rattle.book.specs.Meaning.{op_of, op_place};
ghost use Rattle.std.specs.Prelude.{◌≡◌};

use crate::table::Operation;
use tables::lookup::Named;
use tables::name::{Name, Placed};
use tables::rows::Rows;

// What is handed out of an operation, as of a call: one line each, and a trait for both would need as many.
impl Operation {
    // An operation with no marks yet.
    pub(crate) fn new(placed: Placed) -> Operation
        ensures is { op_of result ≡ new_op placed.name }
        ensures place { op_place result ≡ placed.place }
    {
        Operation {
            placed,
            marks: Rows::new(0),
        }
    }

    pub fn name(&self) -> Name
        ensures { result ≡ (op_of self.now).name }
    {
        self.placed.name
    }

    // The offset in the file at which the name stands.
    pub fn place(&self) -> u32
        ensures { result ≡ op_place self.now }
    {
        self.placed.place
    }

    pub fn marks(&self) -> &[u8]
        ensures { result.now ≡ (op_of self.now).marks }
    {
        self.marks.held()
    }
}

impl Named for Operation {
    ghost name = { λ o. o.placed.name.letters };

    fn name(&self) -> Name {
        Operation::name(self)
    }
}
