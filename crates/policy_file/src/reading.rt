// The reader: it takes a policy from a file against a book, or says why the file is refused.
ghost use Rattle.std.specs.Prelude.{◌≡◌, [], ◌∷◌, map, refl};
ghost use Rattle.book.specs.Meaning.{book_of, operation_places, call_places};
ghost use Rattle.book.specs.declared.table.Book.{Book};
ghost use Rattle.format.specs.Format.{read_file, answer_of, name_places, Accepts, Refuses, OneWriting, Stand};
ghost use Rattle.format.specs.Refusals.{numbered};
ghost use Rattle.policy.specs.Meaning.{policy_of, table_of, label_places};
ghost use Rattle.policy.specs.Policies.{cs_label};
ghost use Rattle.policy_file.specs.Law.{policy_format, label_name, Flagged};
ghost use Rattle.policy_file.specs.Reading.{table_left, places_left, Emptied};

use crate::changes::obey;
use crate::commands::read_command;
use book::table::Book;
use format::reading::{Reading, read};
use format::refusal::{Refusal, Refused};
use policy::table::Table;

// A policy that is read from a file, in the table that has the book it is read against.
#[derive(Drop)]
struct PolicyReading {
    table: Table,
}

impl Reading for PolicyReading {
    ghost Against = { Book };

    ghost against = { λ r. r.table.book };

    ghost format = { λ b. policy_format (book_of b) };

    ghost whole = { λ _ r. policy_of r.table };

    ghost names = { λ _. label_name ∷ [] };

    ghost places = { λ r. label_places r.table ∷ [] };

    ghost refused = { λ r. Emptied r.table };

    ghost longest = { λ _. refl };

    fn start(&mut self) {
        let book = *self.table.book();
        self.table = Table::new(&book);
    }

    // These lines are each reader's own: shared, they would take the type of its commands through the law of reading.
    fn step<'a>(&mut self, rest: &'a [u8], offset: u16) -> Result<&'a [u8], Refusal> {
        let (command, after) = read_command(rest)?;
        obey(&mut self.table, command, offset)?;
        Ok(after)
    }

    fn is_unfinished(&self) -> bool {
        self.table.is_unfinished()
    }

    fn refuse(&mut self) {
        self.table = Table::empty();
    }
}

// Reads a policy against a book into the full table: exactly the writings of lawful policies are
// accepted, and a file that is refused leaves the table of two empty files.
pub fn read_policy(file: &[u8], book: &Book, table: &mut Table) -> Result<(), Refused>
    ensures answer { numbered result ≡ answer_of (read_file (policy_format (book_of book.now)) file.now) }
    ensures left { table_of table.new ≡ table_left (book_of book.now) (read_file (policy_format (book_of book.now)) file.now) }
    ensures accepts { Accepts (policy_format (book_of book.now)) file.now (numbered result) (policy_of table.new) }
    ensures refuses { Refuses (policy_format (book_of book.now)) file.now (numbered result) }
    ensures apart { OneWriting (policy_format (book_of book.now)) }
    ensures operations { operation_places table.new.book ≡ places_left (operation_places book.now) (read_file (policy_format (book_of book.now)) file.now) }
    ensures calls { call_places table.new.book ≡ places_left (call_places book.now) (read_file (policy_format (book_of book.now)) file.now) }
    ensures labels { label_places table.new ≡ name_places (policy_format (book_of book.now)) label_name (policy_of table.new) }
    ensures label_names { Stand file.now (label_places table.new) (map cs_label (policy_of table.new).clauses) }
    ensures flagged { Flagged (policy_of table.new) }
{
    let mut reading = PolicyReading {
        table: Table::new(book),
    };
    let answer = read(file, &mut reading);
    *table = reading.table;
    answer
}
