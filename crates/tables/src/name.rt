ghost use Rattle.std.specs.Prelude.{◌≡◌, ◌+◌, Some};
ghost use Rattle.tables.specs.Names.{prints, proper, trimmed as trimmed_of};
ghost use Rattle.std.proofs.Math.Utf8.{encodes};

use std::fmt;

// A name of eight letters, filled with spaces at its end: the format's own eight bytes, and so an array.
#[derive(Clone, Copy, Debug, PartialEq, Eq)]
pub struct Name {
    pub letters: [u8; 8],
}

// A name, and the offset in its file at which it stands.
#[derive(Clone, Copy, Debug, PartialEq, Eq)]
pub struct Placed {
    pub name: Name,
    pub place: u32,
}

impl Placed {
    // The name that stands so many bytes behind that offset.
    pub fn behind(name: Name, offset: u16, bytes: u8) -> Placed
        ensures { result ≡ record { name = name; place = offset + bytes } }
    {
        Placed {
            name,
            place: u32::from(offset) + u32::from(bytes),
        }
    }
}

// Whether a letter can be printed: a space, or a visible sign of ASCII.
fn is_printed(letter: u8) -> bool
    ensures { result ≡ prints letter }
{
    0x20 <= letter && letter <= 0x7e
}

impl Name {
    // Whether each letter can be printed.
    pub fn is_proper(&self) -> bool
        ensures { result ≡ proper self.now.letters }
    {
        self.letters.iter().all(|letter| is_printed(*letter))
    }

    // The letters without the spaces at their end.
    pub fn trimmed(&self) -> &[u8]
        ensures { result.now ≡ trimmed_of self.now.letters }
    {
        // a pattern says what goes; `rposition` would say what stays, and need one more
        let mut letters = &self.letters[..];
        while let [front @ .., b' '] = letters {
            letters = front;
        }
        letters
    }
}

// A name is shown without the spaces at its end.
impl fmt::Display for Name {
    ghost output = { λ n. Some (encodes (trimmed_of n.letters)) };

    fn fmt<W: fmt::Write>(&self, f: &mut fmt::Formatter<W>) -> fmt::Result {
        for letter in self.trimmed() {
            f.write_char(*letter as char)?;
        }
        Ok(())
    }
}
