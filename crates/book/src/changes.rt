// The changes of a book: one more operation or call, and what is added to the operation or the call
// begun last, which is lent for it.
ghost use Rattle.book.specs.Books.{op_name, cl_name, or_else, marked, fielded, preceded, acting, followed, with_operation, with_call, in_last_op, in_last_cl, full, named};
ghost use Rattle.book.specs.Meaning.{op_of, cl_of, book_of, op_place, cl_place, operation_places, call_places};
ghost use Rattle.std.specs.Prelude.{◌≡◌, false, [], ◌∷◌, ◌++◌, map, if◌then◌else◌, Some};
ghost use Rattle.tables.specs.Lists.{last_of};
ghost use Rattle.tables.specs.Search.{first_named};

use crate::table::{Act, After, Book, Call, Condition, Operation};
use tables::lookup::find;
use tables::name::{Name, Placed};

// Each of these leaves the place as it was, by a clause of its own, and is one use of the rows' push: shared, they would
// take which rows.
impl Operation {
    // One more mark, where there is room.
    fn push_mark(&mut self, mark: u8)
        ensures is { op_of self.new ≡ (if full 6 (op_of self.old).marks then op_of self.old else marked mark (op_of self.old)) }
        ensures place { op_place self.new ≡ op_place self.old }
    {
        let _ = self.marks.push(mark);
    }
}

impl Call {
    // One more field, where there is room.
    fn push_field(&mut self, mark: u8)
        ensures is { cl_of self.new ≡ (if full 8 (cl_of self.old).fields then cl_of self.old else fielded mark (cl_of self.old)) }
        ensures place { cl_place self.new ≡ cl_place self.old }
    {
        let _ = self.fields.push(mark);
    }

    // One more step before the act, where there is room.
    fn push_before(&mut self, number: u8)
        ensures is { cl_of self.new ≡ (if full 8 (cl_of self.old).befores then cl_of self.old else preceded number (cl_of self.old)) }
        ensures place { cl_place self.new ≡ cl_place self.old }
    {
        let _ = self.befores.push(number);
    }

    // The act.
    fn set_act(&mut self, act: Act)
        ensures is { cl_of self.new ≡ acting (Some act) (cl_of self.old) }
        ensures place { cl_place self.new ≡ cl_place self.old }
    {
        self.act = Some(act);
    }

    // One more step after the act, where there is room.
    fn push_after(&mut self, operation: u8, condition: Condition)
        ensures is { cl_of self.new ≡ (if full 8 (cl_of self.old).afters then cl_of self.old else followed operation (Some condition) (cl_of self.old)) }
        ensures place { cl_place self.new ≡ cl_place self.old }
    {
        let _ = self.afters.push(After {
            operation,
            condition,
        });
    }
}

// What each of these leaves as it was stands on it as clauses: no invariant of one book ties two of them. Each lends
// its row in one `if let`; a closure over the row would take as many lines, and promise no more than the closure does.
impl Book {
    // The operation begun last is lent to take one more mark.
    pub fn push_mark(&mut self, mark: u8)
        ensures is { book_of self.new ≡ (if or_else false (λ o. full 6 o.marks) (last_of (book_of self.old).operations) then book_of self.old else in_last_op (marked mark) (book_of self.old)) }
        ensures operations { operation_places self.new ≡ operation_places self.old }
        ensures calls { call_places self.new ≡ call_places self.old }
    {
        if let Some(operation) = self.operations.last_mut() {
            operation.push_mark(mark);
        }
    }

    // The call begun last is lent to take one more field.
    pub fn push_field(&mut self, mark: u8)
        ensures is { book_of self.new ≡ (if or_else false (λ c. full 8 c.fields) (last_of (book_of self.old).calls) then book_of self.old else in_last_cl (fielded mark) (book_of self.old)) }
        ensures operations { operation_places self.new ≡ operation_places self.old }
        ensures calls { call_places self.new ≡ call_places self.old }
    {
        if let Some(call) = self.calls.last_mut() {
            call.push_field(mark);
        }
    }

    // The call begun last is lent to take one more step before its act.
    pub fn push_before(&mut self, number: u8)
        ensures is { book_of self.new ≡ (if or_else false (λ c. full 8 c.befores) (last_of (book_of self.old).calls) then book_of self.old else in_last_cl (preceded number) (book_of self.old)) }
        ensures operations { operation_places self.new ≡ operation_places self.old }
        ensures calls { call_places self.new ≡ call_places self.old }
    {
        if let Some(call) = self.calls.last_mut() {
            call.push_before(number);
        }
    }

    // The call begun last is lent to take its act.
    pub fn set_act(&mut self, act: Act)
        ensures is { book_of self.new ≡ in_last_cl (acting (Some act)) (book_of self.old) }
        ensures operations { operation_places self.new ≡ operation_places self.old }
        ensures calls { call_places self.new ≡ call_places self.old }
    {
        if let Some(call) = self.calls.last_mut() {
            call.set_act(act);
        }
    }

    // The call begun last is lent to take one more step after its act.
    pub fn push_after(&mut self, operation: u8, condition: Condition)
        ensures is { book_of self.new ≡ (if or_else false (λ c. full 8 c.afters) (last_of (book_of self.old).calls) then book_of self.old else in_last_cl (followed operation (Some condition)) (book_of self.old)) }
        ensures operations { operation_places self.new ≡ operation_places self.old }
        ensures calls { call_places self.new ≡ call_places self.old }
    {
        if let Some(call) = self.calls.last_mut() {
            call.push_after(operation, condition);
        }
    }

    // The number of the call that has that name.
    pub fn find_call(&self, name: &Name) -> Option<usize>
        ensures { result ≡ first_named (map cl_name (book_of self.now).calls) name.now.letters }
    {
        find(self.calls.held(), name)
    }

    // One more operation, where there is room. As for a call below, this is one use of the rows' own push: a function for
    // both would name the kind of row, and with it the list, its meaning and its places, for that one line.
    pub fn push_operation(&mut self, placed: Placed)
        ensures is { book_of self.new ≡ (if full 64 (book_of self.old).operations then book_of self.old else with_operation placed.name (book_of self.old)) }
        ensures operations { operation_places self.new ≡ (if full 64 (book_of self.old).operations then operation_places self.old else operation_places self.old ++ placed.place ∷ []) }
        ensures calls { call_places self.new ≡ call_places self.old }
    {
        let _ = self.operations.push(Operation::new(placed));
    }

    // One more call, where there is room.
    pub fn push_call(&mut self, placed: Placed)
        ensures is { book_of self.new ≡ (if full 64 (book_of self.old).calls then book_of self.old else with_call placed.name (book_of self.old)) }
        ensures operations { operation_places self.new ≡ operation_places self.old }
        ensures calls { call_places self.new ≡ (if full 64 (book_of self.old).calls then call_places self.old else call_places self.old ++ placed.place ∷ []) }
    {
        let _ = self.calls.push(Call::new(placed));
    }
}
