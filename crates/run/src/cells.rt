// The cells of a run.
ghost use Rattle.policy.specs.Meaning.{policy_of};
ghost use Rattle.run.specs.Cells.{cells_of};
ghost use Rattle.std.specs.List.{slice_get};
ghost use Rattle.std.specs.Prelude.{◌≡◌, slice_index, slice_set};

use policy::table::{CELLS, Table};
use tables::rows::Rows;

// The values of the cells.
#[derive(Clone, Copy)]
pub struct Cells {
    pub(crate) values: Rows<u32, CELLS>,
}

impl Cells {
    // The cells of a table, with their first values.
    pub(crate) fn first(table: &Table) -> Cells
        ensures { cells_of result ≡ (policy_of table.now).cells }
    {
        Cells {
            values: table.first_values(),
        }
    }

    // The value of the cell of that number, where there is one.
    pub(crate) fn get(&self, number: usize) -> Option<u32>
        ensures { result ≡ slice_get (cells_of self.now) number }
    {
        self.values.get(number).copied()
    }

    // The value of the cell of that number, or 0 where there is none.
    pub(crate) fn value(&self, number: usize) -> u32
        ensures { result ≡ slice_index (cells_of self.now) number }
    {
        self.get(number).unwrap_or(0)
    }

    // Puts a value into the cell of that number, where there is one.
    pub(crate) fn set(&mut self, number: usize, value: u32)
        ensures { cells_of self.new ≡ slice_set (cells_of self.old) number value }
    {
        self.values.set(number, value);
    }
}
