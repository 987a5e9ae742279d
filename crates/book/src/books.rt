// A book, and what may be asked of it.
ghost use Rattle.book.specs.Books.{empty_book};
ghost use Rattle.book.specs.Meaning.{op_of, cl_of, book_of, op_place, cl_place, operation_places, call_places};
ghost use Rattle.std.specs.Prelude.{◌≡◌, [], map};

use crate::table::{Book, Call, Operation};
use tables::name::{Name, Placed};
use tables::rows::Rows;

impl Book {
    // The book of an empty file.
    pub fn empty() -> Book
        ensures is { book_of result ≡ empty_book }
        ensures operations { operation_places result ≡ [] }
        ensures calls { call_places result ≡ [] }
    {
        let placed = Placed {
            name: Name { letters: [b' '; 8] },
            place: 0,
        };
        Book {
            operations: Rows::new(Operation::new(placed)),
            calls: Rows::new(Call::new(placed)),
        }
    }

    // The operations, in the order of the file.
    pub fn operations(&self) -> &[Operation]
        ensures is { map op_of result.now ≡ (book_of self.now).operations }
        ensures places { map op_place result.now ≡ operation_places self.now }
    {
        self.operations.held()
    }

    // The calls, in the order of the file.
    pub fn calls(&self) -> &[Call]
        ensures is { map cl_of result.now ≡ (book_of self.now).calls }
        ensures places { map cl_place result.now ≡ call_places self.now }
    {
        self.calls.held()
    }
}
