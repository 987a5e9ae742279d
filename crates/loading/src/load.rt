ghost use Rattle.book_file.specs.Law.{book_format, operation_name, call_name};
ghost use Rattle.book.specs.Meaning.{book_of, operation_places, call_places};
ghost use Rattle.format.specs.Format.{name_places};
ghost use Rattle.loading.specs.Faults.{answered};
ghost use Rattle.loading.specs.Loading.{with_book, book_loaded, loaded, verdict_of, table_after, book_verdict, book_after, places_after};
ghost use Rattle.policy_file.specs.Law.{policy_format, label_name};
ghost use Rattle.policy.specs.Meaning.{policy_of, table_of, label_places};
ghost use Rattle.std.specs.Option.{option_map};
ghost use Rattle.std.specs.Prelude.{◌≡◌, Ok};

use crate::fault::Fault;
use book::table::Book;
use book_file::reading::read_book;
use policy::table::Table;
use policy_file::reading::read_policy;

// Reads the book, where its file is there; a fault leaves the book of an empty file.
pub fn load_book(file: Option<&[u8]>, book: &mut Book) -> Result<(), Fault>
    ensures answer { answered result ≡ book_verdict (book_loaded (option_map (λ x. x.now) file.entry)) }
    ensures left { book_of book.new ≡ book_after (book_loaded (option_map (λ x. x.now) file.entry)) }
    ensures operations { operation_places book.new ≡ name_places book_format operation_name (book_of book.new) }
    ensures calls { call_places book.new ≡ name_places book_format call_name (book_of book.new) }
{
    match file {
        Some(file) => read_book(file, book).map_err(Fault::BookRefused),
        None => {
            *book = Book::empty();
            Err(Fault::BookMissing)
        }
    }
}

// Reads the policy against a book into the table, where its file is there; a fault leaves the table of two empty files.
pub fn load_policy(file: Option<&[u8]>, book: &Book, table: &mut Table) -> Result<(), Fault>
    ensures answer { answered result ≡ verdict_of (with_book (option_map (λ x. x.now) file.entry) (Ok (book_of book.now))) }
    ensures left { table_of table.new ≡ table_after (with_book (option_map (λ x. x.now) file.entry) (Ok (book_of book.now))) }
    ensures operations { operation_places table.new.book ≡ places_after (with_book (option_map (λ x. x.now) file.entry) (Ok (book_of book.now))) (operation_places book.now) }
    ensures calls { call_places table.new.book ≡ places_after (with_book (option_map (λ x. x.now) file.entry) (Ok (book_of book.now))) (call_places book.now) }
    ensures labels { label_places table.new ≡ name_places (policy_format (book_of table.new.book)) label_name (policy_of table.new) }
{
    match file {
        Some(file) => read_policy(file, book, table).map_err(Fault::PolicyRefused),
        None => {
            *table = Table::empty();
            Err(Fault::PolicyMissing)
        }
    }
}

// Reads the book, and the policy against it, into the table; a fault leaves the table of two empty
// files.
pub fn load(book: Option<&[u8]>, policy: Option<&[u8]>, table: &mut Table) -> Result<(), Fault>
    ensures answer { answered result ≡ verdict_of (loaded (option_map (λ x. x.now) book.entry) (option_map (λ x. x.now) policy.entry)) }
    ensures left { table_of table.new ≡ table_after (loaded (option_map (λ x. x.now) book.entry) (option_map (λ x. x.now) policy.entry)) }
    ensures operations { operation_places table.new.book ≡ name_places book_format operation_name (book_of table.new.book) }
    ensures calls { call_places table.new.book ≡ name_places book_format call_name (book_of table.new.book) }
    ensures labels { label_places table.new ≡ name_places (policy_format (book_of table.new.book)) label_name (policy_of table.new) }
{
    *table = Table::empty();
    let mut read = Book::empty();
    load_book(book, &mut read)?;
    // and not load_policy: the table is empty already, and that would fill another one in its place
    let policy = policy.ok_or(Fault::PolicyMissing)?;
    read_policy(policy, &read, table).map_err(Fault::PolicyRefused)
}
