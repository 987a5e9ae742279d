// What fills the marks of a step.
ghost use Rattle.run.specs.Given.{given_of};
ghost use Rattle.run.specs.Steps.{value_under, fetched};
ghost use Rattle.std.specs.Prelude.{◌≡◌};

use book::marks::ANSWER;

// The marks of the call's fields, the values in their order, and after the act the register's
// answer.
#[derive(Clone, Copy)]
pub struct Given<'a, 'b> {
    pub(crate) fields: &'a [u8],
    pub(crate) values: &'b [u32],
    pub(crate) answer: Option<u32>,
}

impl Given<'_, '_> {
    // The value of the field of that mark, or 0 where there is none.
    fn value_under(&self, mark: u8) -> u32
        ensures { result ≡ value_under self.now.fields.now self.now.values.now mark }
    {
        self.fields
            .iter()
            .zip(self.values)
            .find(|(field, _)| **field == mark)
            .map_or(0, |(_, value)| *value)
    }

    // What fills the mark.
    pub(crate) fn fetch(&self, mark: u8) -> u32
        ensures { result ≡ fetched (given_of self.now) mark }
    {
        match self.answer {
            Some(answer) if mark == ANSWER => answer,
            _ => self.value_under(mark),
        }
    }
}
