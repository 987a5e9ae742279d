// The changes of a table: one more cell, group or clause, and what is added to the group or the
// clause begun last, which is lent for it.
#![tactic(auto, using(book::proofs::Slices::slices))]

ghost use Rattle.book.specs.Books.{or_else, full, named};
ghost use Rattle.policy.specs.Meaning.{gr_of, cs_of, policy_of, cs_place, label_places};
ghost use Rattle.policy.specs.Policies.{cs_label, unfinished, joining, guarded, acting, with_cell, with_group, with_clause, in_last_gr, in_last_cs};
ghost use Rattle.std.specs.Prelude.{◌≡◌, false, [], ◌∷◌, ◌++◌, map, if◌then◌else◌, Some};
ghost use Rattle.tables.specs.Lists.{last_of};

use crate::table::{Action, Clause, Group, Member, Table, Target, When};
use tables::lookup::find;
use tables::name::{Name, Placed};

// These two are one use each of the rows' push: shared, they would take which rows.
impl Group {
    // One more member, where there is room.
    fn push_member(&mut self, member: Member)
        ensures { gr_of self.new ≡ (if full 16 (gr_of self.old).members then gr_of self.old else joining member (gr_of self.old)) }
    {
        let _ = self.members.push(member);
    }
}

impl Clause {
    // One more condition, where there is room.
    fn push_when(&mut self, when: When)
        ensures is { cs_of self.new ≡ (if full 3 (cs_of self.old).whens then cs_of self.old else guarded (Some when) (cs_of self.old)) }
        ensures place { cs_place self.new ≡ cs_place self.old }
    {
        let _ = self.whens.push(when);
    }

    // The action.
    fn set_action(&mut self, action: Action)
        ensures is { cs_of self.new ≡ acting (Some action) (cs_of self.old) }
        ensures place { cs_place self.new ≡ cs_place self.old }
    {
        self.action = Some(action);
    }
}

// What each of these leaves as it was stands on it as clauses: no invariant of one table ties two of them. Each lends
// its row in one `if let`; a closure over the row would take as many lines, and promise no more than the closure does.
impl Table {
    // One more cell, where there is room, with its first value.
    pub fn push_cell(&mut self, first: u32)
        ensures is { policy_of self.new ≡ (if full 128 (policy_of self.old).cells then policy_of self.old else with_cell first (policy_of self.old)) }
        ensures book { self.new.book ≡ self.old.book }
        ensures places { label_places self.new ≡ label_places self.old }
    {
        let _ = self.cells.push(first);
    }

    // The group begun last is lent to take one more member.
    pub fn push_member(&mut self, member: Member)
        ensures is { policy_of self.new ≡ (if or_else false (λ g. full 16 g.members) (last_of (policy_of self.old).groups) then policy_of self.old else in_last_gr (joining member) (policy_of self.old)) }
        ensures book { self.new.book ≡ self.old.book }
        ensures places { label_places self.new ≡ label_places self.old }
    {
        if let Some(group) = self.groups.last_mut() {
            group.push_member(member);
        }
    }

    // The clause begun last is lent to take one more condition.
    pub fn push_when(&mut self, when: When)
        ensures is { policy_of self.new ≡ (if or_else false (λ c. full 3 c.whens) (last_of (policy_of self.old).clauses) then policy_of self.old else in_last_cs (guarded (Some when)) (policy_of self.old)) }
        ensures book { self.new.book ≡ self.old.book }
        ensures places { label_places self.new ≡ label_places self.old }
    {
        if let Some(clause) = self.clauses.last_mut() {
            clause.push_when(when);
        }
    }

    // The clause begun last is lent to take its action.
    pub fn set_action(&mut self, action: Action)
        ensures is { policy_of self.new ≡ in_last_cs (acting (Some action)) (policy_of self.old) }
        ensures book { self.new.book ≡ self.old.book }
        ensures places { label_places self.new ≡ label_places self.old }
    {
        if let Some(clause) = self.clauses.last_mut() {
            clause.set_action(action);
        }
    }

    // One more group, where there is room.
    pub fn push_group(&mut self)
        ensures is { policy_of self.new ≡ (if full 32 (policy_of self.old).groups then policy_of self.old else with_group (policy_of self.old)) }
        ensures book { self.new.book ≡ self.old.book }
        ensures places { label_places self.new ≡ label_places self.old }
    {
        let _ = self.groups.push(Group::new());
    }

    // One more clause, where there is room; what it applies to is found here, once.
    pub fn push_clause(&mut self, target: Target, label: Placed)
        ensures is { policy_of self.new ≡ (if full 256 (policy_of self.old).clauses then policy_of self.old else with_clause target label.name (policy_of self.old)) }
        ensures book { self.new.book ≡ self.old.book }
        ensures places { label_places self.new ≡ (if full 256 (policy_of self.old).clauses then label_places self.old else label_places self.old ++ label.place ∷ []) }
    {
        let covers = self.flags(target);
        let _ = self.clauses.push(Clause::new(label, target, covers));
    }

    // Whether the clause begun last has no action.
    pub fn is_unfinished(&self) -> bool
        ensures { result ≡ unfinished (policy_of self.now) }
    {
        self.clauses()
            .last()
            .is_some_and(|clause| clause.action.is_none())
    }

    // Whether a clause has that label.
    pub fn has_label(&self, label: &Name) -> bool
        ensures { result ≡ named (map cs_label (policy_of self.now).clauses) label.now.letters }
    {
        find(self.clauses.held(), label).is_some()
    }
}
