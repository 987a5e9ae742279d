// The reader: it takes a book from a file, or says why the file is refused.
ghost use Rattle.std.specs.Prelude.{◌≡◌, [], ◌∷◌, map, refl};
ghost use Rattle.book.specs.Books.{op_name, cl_name};
ghost use Rattle.book.specs.Meaning.{book_of, operation_places, call_places};
ghost use Rattle.book_file.specs.Law.{book_format, operation_name, call_name};
ghost use Rattle.book_file.specs.Reading.{Emptied};
ghost use Rattle.format.specs.Format.{read_file, answer_of, whole_left, name_places, Accepts, Refuses, OneWriting, Stand};
ghost use Rattle.format.specs.Refusals.{numbered};

use crate::changes::obey;
use crate::commands::read_command;
use book::table::Book;
use format::reading::{Reading, read};
use format::refusal::{Refusal, Refused};

// A book that is read from a file.
#[derive(Drop)]
struct BookReading {
    book: Book,
}

impl Reading for BookReading {
    ghost Against = { Unit {0} };

    ghost against = { λ _. tt };

    ghost format = { λ _. book_format };

    ghost whole = { λ _ r. book_of r.book };

    ghost names = { λ _. operation_name ∷ call_name ∷ [] };

    ghost places = { λ r. operation_places r.book ∷ call_places r.book ∷ [] };

    ghost refused = { λ r. Emptied r.book };

    ghost longest = { λ _. refl };

    // A book without operations and calls is empty already, and is not made again.
    fn start(&mut self) {
        let blank = self.book.operations().is_empty() && self.book.calls().is_empty();
        if !blank {
            self.book = Book::empty();
        }
    }

    // These lines are each reader's own: shared, they would take the type of its commands through the law of reading.
    fn step<'a>(&mut self, rest: &'a [u8], offset: u16) -> Result<&'a [u8], Refusal> {
        let (command, after) = read_command(rest)?;
        obey(&mut self.book, command, offset)?;
        Ok(after)
    }

    fn is_unfinished(&self) -> bool {
        false
    }

    fn refuse(&mut self) {
        self.start();
    }
}

// Reads a book: exactly the writings of lawful books are accepted, and a file that is refused
// leaves the book of an empty file.
pub fn read_book(file: &[u8], book: &mut Book) -> Result<(), Refused>
    ensures answer { numbered result ≡ answer_of (read_file book_format file.now) }
    ensures left { book_of book.new ≡ whole_left book_format (read_file book_format file.now) }
    ensures accepts { Accepts book_format file.now (numbered result) (book_of book.new) }
    ensures refuses { Refuses book_format file.now (numbered result) }
    ensures apart { OneWriting book_format }
    ensures operations { operation_places book.new ≡ name_places book_format operation_name (book_of book.new) }
    ensures calls { call_places book.new ≡ name_places book_format call_name (book_of book.new) }
    ensures operation_names { Stand file.now (operation_places book.new) (map op_name (book_of book.new).operations) }
    ensures call_names { Stand file.now (call_places book.new) (map cl_name (book_of book.new).calls) }
{
    let mut reading = BookReading {
        book: Book::empty(),
    };
    let answer = read(file, &mut reading);
    *book = reading.book;
    answer
}
