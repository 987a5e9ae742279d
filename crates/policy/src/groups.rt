// A group, and what it covers: the operations that it has, and all that the groups nested in it
// cover.
#![tactic(auto, using(book::proofs::Slices::slices))]

ghost use Rattle.policy.specs.Coverage.{applies_to, flags as flags_of, covered as covered_by};
ghost use Rattle.policy.specs.Meaning.{gr_of, policy_of};
ghost use Rattle.policy.specs.Policies.{new_gr};
ghost use Rattle.policy.specs.Walks.{Complete, Grown};
ghost use Rattle.std.specs.Prelude.{◌≡◌, [], ◌∷◌, length};

use crate::table::{GROUPS, Group, Member, Table, Target};
use book::table::OPERATIONS;
use tables::rows::Rows;

impl Group {
    // A group with no members yet.
    pub(crate) fn new() -> Group
        ensures { gr_of result ≡ new_gr }
    {
        Group {
            members: Rows::new(Member::Has(0)),
        }
    }

    // The members, in the order of the file.
    pub fn members(&self) -> &[Member]
        ensures { result.now ≡ (gr_of self.now).members }
    {
        self.members.held()
    }
}

// A walk over groups, in fixed arrays as all tables here: which were walked, and for each operation whether one of them covers it.
#[derive(Drop)]
struct Walk {
    walked: [bool; GROUPS],
    covers: [bool; OPERATIONS],
    ghost whole: { length covers ≡ 64 },
}

impl Table {
    // Flags what the group of that number covers; a group that was walked before is not walked
    // again. A flag is raised where it lies within the array, as marking does with its own: one
    // function for that line would have to stand below both.
    fn walk(&self, number: usize, walk: &mut Walk)
        requires { Complete (policy_of self.now).groups walk.old.walked walk.old.covers }
        ensures complete { Complete (policy_of self.now).groups walk.new.walked walk.new.covers }
        ensures grown { Grown (policy_of self.now).groups number walk.old.covers walk.new.covers }
    {
        let Some(group) = self.groups().get(number) else {
            return;
        };
        if walk.walked[number] {
            return;
        }
        for member in group.members() {
            match *member {
                Member::Has(operation) => {
                    let flag = operation as usize;
                    if flag < OPERATIONS {
                        walk.covers[flag] = true;
                    }
                }
                Member::Nest(nested) => {
                    let inner = nested as usize;
                    if inner < number {
                        self.walk(inner, walk);
                    }
                }
            }
        }
        walk.walked[number] = true;
    }

    // For each operation, whether the group of that number covers it.
    pub fn coverage(&self, number: usize) -> [bool; OPERATIONS]
        ensures { result ≡ flags_of (covered_by (policy_of self.now).groups number) }
    {
        let mut walk = Walk {
            walked: [false; GROUPS],
            covers: [false; OPERATIONS],
        };
        self.walk(number, &mut walk);
        walk.covers
    }

    // For each operation, whether a clause with that target applies to it.
    pub(crate) fn flags(&self, target: Target) -> [bool; OPERATIONS]
        ensures { result ≡ flags_of (applies_to (policy_of self.now).groups target) }
    {
        match target {
            Target::Operation(operation) => alone(operation as usize),
            Target::Group(number) => self.coverage(number as usize),
        }
    }
}

// The flag of one operation alone.
fn alone(operation: usize) -> [bool; OPERATIONS]
    ensures { result ≡ flags_of (operation ∷ []) }
{
    let mut covers = [false; OPERATIONS];
    if operation < OPERATIONS {
        covers[operation] = true;
    }
    covers
}
