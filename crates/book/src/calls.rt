// A call with its act and its steps, and what may be asked of it.
ghost use Rattle.book.specs.Books.{new_cl, act_needs};
ghost use Rattle.book.specs.Meaning.{cl_of, cl_place};
ghost use Rattle.std.specs.Prelude.{◌≡◌};

use crate::table::{Act, After, Call, Condition};
use tables::lookup::Named;
use tables::name::{Name, Placed};
use tables::rows::Rows;

impl Act {
    // The marks that the act takes from the call's fields.
    pub fn needs(self) -> &'static [u8]
        ensures { result.now ≡ act_needs self }
    {
        match self {
            Act::Look => &[1],
            Act::Put => &[1, 2],
        }
    }
}

impl Call {
    // A call with no fields and no steps yet.
    pub(crate) fn new(placed: Placed) -> Call
        ensures is { cl_of result ≡ new_cl placed.name }
        ensures place { cl_place result ≡ placed.place }
    {
        let step = After {
            operation: 0,
            condition: Condition::Always,
        };
        Call {
            placed,
            fields: Rows::new(0),
            befores: Rows::new(0),
            act: None,
            afters: Rows::new(step),
        }
    }

    pub fn name(&self) -> Name
        ensures { result ≡ (cl_of self.now).name }
    {
        self.placed.name
    }

    // The offset in the file at which the name stands.
    pub fn place(&self) -> u32
        ensures { result ≡ cl_place self.now }
    {
        self.placed.place
    }

    // The marks of the fields.
    pub fn fields(&self) -> &[u8]
        ensures { result.now ≡ (cl_of self.now).fields }
    {
        self.fields.held()
    }

    // The operations of the steps before the act.
    pub fn befores(&self) -> &[u8]
        ensures { result.now ≡ (cl_of self.now).befores }
    {
        self.befores.held()
    }

    pub fn act(&self) -> Option<Act>
        ensures { result ≡ (cl_of self.now).act }
    {
        self.act
    }

    // The steps after the act.
    pub fn afters(&self) -> &[After]
        ensures { result.now ≡ (cl_of self.now).afters }
    {
        self.afters.held()
    }
}

impl Named for Call {
    ghost name = { λ c. c.placed.name.letters };

    fn name(&self) -> Name {
        Call::name(self)
    }
}
