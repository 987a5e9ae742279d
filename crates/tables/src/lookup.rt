ghost use Rattle.std.specs.Prelude.{◌≡◌, ℕ, ◌<◌, List, map, length, IfSome};
ghost use Rattle.tables.specs.Search.{first_named, FirstPlace};

use crate::name::Name;

// A record that has a name.
pub trait Named {
    ghost name: { Self → List ℕ };

    fn name(&self) -> Name
        ensures { result.letters ≡ name self.now };
}

// The number of the first record of that name, counted from 0.
pub fn find<T: Named>(records: &[T], name: &Name) -> Option<usize>
    ensures is { result ≡ first_named (map T.Named.name records.now) name.now.letters }
    ensures place { FirstPlace (map T.Named.name records.now) name.now.letters result }
    ensures within { IfSome result (λ i. i < length records.now) }
{
    records.iter().position(|record| record.name() == *name)
}
