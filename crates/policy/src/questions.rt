// A full table, and what may be asked of it.
#![tactic(auto, using(book::proofs::Slices::slices))]

ghost use Rattle.book.specs.Books.{empty_book, marks_at, filled, has as has_mark};
ghost use Rattle.book.specs.Meaning.{book_of, operation_places, call_places};
ghost use Rattle.policy.specs.Meaning.{gr_of, cs_of, policy_of, table_of, cs_place, label_places};
ghost use Rattle.policy.specs.Policies.{empty_policy, lacks as lacks_term, lacked_from};
ghost use Rattle.std.specs.Prelude.{◌≡◌, [], map, length, is_some};
ghost use Rattle.std.specs.Option.{option_map};
ghost use Rattle.std.specs.List.{slice_get};
ghost use Rattle.tables.specs.Lists.{last_of};
ghost use Rattle.tables.specs.Rows.{rows_of};

use crate::table::{CELLS, Clause, Group, Table, Target, Term};
use book::marks::has;
use book::table::{Book, OPERATIONS};
use tables::name::{Name, Placed};
use tables::rows::Rows;

impl Table {
    // The table of that book and an empty policy.
    pub fn new(book: &Book) -> Table
        ensures is { policy_of result ≡ empty_policy }
        ensures book { result.book ≡ book.now }
        ensures places { label_places result ≡ [] }
    {
        let label = Placed {
            name: Name { letters: [b' '; 8] },
            place: 0,
        };
        let clause = Clause::new(label, Target::Operation(0), [false; OPERATIONS]);
        Table {
            book: *book,
            cells: Rows::new(0),
            groups: Rows::new(Group::new()),
            clauses: Rows::new(clause),
        }
    }

    // The table of two empty files.
    pub fn empty() -> Table
        ensures is { table_of result ≡ record { book = empty_book; policy = empty_policy } }
        ensures operations { operation_places result.book ≡ [] }
        ensures calls { call_places result.book ≡ [] }
        ensures labels { label_places result ≡ [] }
    {
        Table::new(&Book::empty())
    }

    // The book that the policy was read against.
    pub fn book(&self) -> &Book
        ensures { result.now ≡ self.now.book }
    {
        &self.book
    }

    // The first values of the cells, in the order of the file.
    pub fn cells(&self) -> &[u32]
        ensures { result.now ≡ (policy_of self.now).cells }
    {
        self.cells.held()
    }

    // The table of the cells' first values.
    pub fn first_values(&self) -> Rows<u32, CELLS>
        ensures { rows_of result ≡ (policy_of self.now).cells }
    {
        let Table { cells, .. } = self;
        *cells
    }

    // The groups, in the order of the file.
    pub fn groups(&self) -> &[Group]
        ensures { map gr_of result.now ≡ (policy_of self.now).groups }
    {
        self.groups.held()
    }

    // The clauses, in the order of the file.
    pub fn clauses(&self) -> &[Clause]
        ensures is { map cs_of result.now ≡ (policy_of self.now).clauses }
        ensures places { map cs_place result.now ≡ label_places self.now }
    {
        self.clauses.held()
    }

    // Whether an operation to which the clause applies lacks the mark, where the term is a field.
    pub fn lacks(&self, clause: &Clause, term: Term) -> bool
        ensures { result ≡ lacks_term (book_of self.now.book).operations (cs_of clause.now).covers term }
    {
        match term {
            Term::Field(mark) => self.lacks_mark(clause, mark),
            Term::Number(_) | Term::Cell(_) => false,
        }
    }

    // Whether an operation to which the clause applies lacks the mark.
    fn lacks_mark(&self, clause: &Clause, mark: u8) -> bool
        ensures { result ≡ lacked_from (book_of self.now.book).operations mark 0 (cs_of clause.now).covers }
    {
        clause.covers.iter().enumerate().any(|(number, applies)| *applies
            && !self.has_mark(number, mark))
    }

    // Whether the operation of that number has the mark.
    fn has_mark(&self, number: usize, mark: u8) -> bool
        ensures { result ≡ has_mark (marks_at (book_of self.now.book).operations number) mark }
    {
        let operation = self.book.operations().get(number);
        operation.is_some_and(|operation| has(operation.marks(), mark))
    }
}
