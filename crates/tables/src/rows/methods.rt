ghost use Rattle.std.specs.Option.{ghost_name_of as name_of, option_map};
ghost use Rattle.std.specs.List.{slice_get};
ghost use Rattle.tables.specs.Lists.{last_of, pushed, roomy};
ghost use Rattle.tables.specs.Rows.{rows_of, LastIs};
ghost use Rattle.tables.specs.contracts.rows.Rows.{the_row};
ghost use Rattle.std.specs.Borrow.{follows_so, sem};
ghost use Rattle.std.specs.Prelude.{◌≡◌, not, [], length, slice_set};

use crate::rows::Rows;

impl<T, const N: usize> Rows<T, N> {
    // How many rows are taken.
    pub fn len(&self) -> usize
        ensures { result ≡ length (rows_of self.now) }
    {
        self.held().len()
    }

    // Whether there is no room for one more row.
    pub fn is_full(&self) -> bool
        ensures { result ≡ not (roomy N (rows_of self.now)) }
    {
        self.count >= N
    }

    // The rows, in the order in which they came.
    pub fn held(&self) -> &[T]
        ensures { result.now ≡ rows_of self.now }
    {
        let items = &self.items[..];
        &items[0..self.count]
    }

    // The row of that number, counted from 0.
    pub fn get(&self, number: usize) -> Option<&T>
        ensures { option_map (λ x. x.now) result ≡ slice_get (rows_of self.now) number }
    {
        self.held().get(number)
    }

    // The row that came last.
    pub fn last(&self) -> Option<&T>
        ensures { option_map (λ x. x.now) result ≡ last_of (rows_of self.now) }
    {
        self.held().last()
    }

    // The row that came last, lent to be changed, by its index since only that says which row was lent: the table then has what was made of it in its place.
    pub fn last_mut(&mut self) -> Option<&mut T>
        ensures* lends { sem 𝓛 (follows_so (the_row T.row N.row) T.row self.entry.ghost_name (name_of result) (LastIs self.old) (λ n. n ≡ self.old)) }
        ensures value { option_map (λ x. x.now) result ≡ last_of (rows_of self.old) }
    {
        if self.count > 0 {
            return Some(&mut self.items[self.count - 1]);
        }
        None
    }
}

impl<T: Copy, const N: usize> Rows<T, N> {
    // A table with no rows; `fill` stands where none is taken yet.
    pub fn new(fill: T) -> Rows<T, N>
        ensures { rows_of result ≡ [] }
    {
        Rows {
            items: [fill; N],
            count: 0,
        }
    }

    // Puts a row at that number, where there is one. By its index: no contract says what a slice ends as after a write
    // through its `get_mut`.
    pub fn set(&mut self, number: usize, row: T)
        ensures { rows_of self.new ≡ slice_set (rows_of self.old) number row }
    {
        if number < self.count {
            self.items[number] = row;
        }
    }

    // Adds a row where there is room, and says whether there was. The count is kept by hand, the array being fixed; the
    // answer is a `bool` and no `Result`, since a full table is no error here: who adds has asked before, or is refused first.
    pub fn push(&mut self, row: T) -> bool
        ensures after { rows_of self.new ≡ pushed N (rows_of self.old) row }
        ensures done { result ≡ roomy N (rows_of self.old) }
    {
        if self.count < N {
            self.items[self.count] = row;
            self.count += 1;
            true
        } else {
            false
        }
    }
}
