ghost use Rattle.book.specs.Books.{has as has_mark, has_all};
ghost use Rattle.std.specs.Prelude.{◌≡◌, ◌++◌};

// The mark that the register's answer fills; no call has such a field.
pub const ANSWER: u8 = 255;

// Whether the mark is one of those.
pub fn has(marks: &[u8], mark: u8) -> bool
    ensures { result ≡ has_mark marks.now mark }
{
    // `any` and not `contains`: a wrong comparison can then be planted, and is refused for what it answers
    marks.iter().any(|other| *other == mark)
}

// Whether each mark that is needed is one of those given or one of the fields.
pub fn has_all(given: &[u8], fields: &[u8], needed: &[u8]) -> bool
    ensures { result ≡ has_all (given.now ++ fields.now) needed.now }
{
    needed
        .iter()
        .all(|mark| has(given, *mark) || has(fields, *mark))
}
