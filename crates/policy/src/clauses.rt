// A clause, and what may be asked of it.
ghost use Rattle.policy.specs.Meaning.{cs_of, cs_place};
ghost use Rattle.std.specs.Prelude.{◌≡◌, false, [], None, slice_index_or};

use crate::table::{Action, Clause, Comparison, Target, Term, When};
use book::table::OPERATIONS;
use tables::lookup::Named;
use tables::name::{Name, Placed};
use tables::rows::Rows;

impl Clause {
    // A clause with no conditions and no action yet.
    pub(crate) fn new(label: Placed, target: Target, covers: [bool; OPERATIONS]) -> Clause
        ensures is { cs_of result ≡ record { label = label.name; target = target; covers = covers; whens = []; action = None } }
        ensures place { cs_place result ≡ label.place }
    {
        let when = When {
            comparison: Comparison::Equal,
            left: Term::Number(0),
            right: Term::Number(0),
        };
        Clause {
            label,
            target,
            covers,
            whens: Rows::new(when),
            action: None,
        }
    }

    pub fn label(&self) -> Name
        ensures { result ≡ (cs_of self.now).label }
    {
        self.label.name
    }

    // The offset in the file at which the label stands.
    pub(crate) fn place(&self) -> u32
        ensures { result ≡ cs_place self.now }
    {
        self.label.place
    }

    // Whether the clause applies to the operation of that number.
    pub fn applies_to(&self, operation: usize) -> bool
        ensures { result ≡ slice_index_or (cs_of self.now).covers operation false }
    {
        self.covers.get(operation).copied().unwrap_or(false)
    }

    // The conditions, in the order of the file.
    pub fn whens(&self) -> &[When]
        ensures { result.now ≡ (cs_of self.now).whens }
    {
        self.whens.held()
    }

    // The action, where it has come.
    pub fn action(&self) -> Option<Action>
        ensures { result ≡ (cs_of self.now).action }
    {
        self.action
    }
}

impl Named for Clause {
    ghost name = { λ c. c.label.name.letters };

    fn name(&self) -> Name {
        Clause::label(self)
    }
}
