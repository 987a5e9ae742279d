// Why a file gives no text.
ghost use Rattle.std.specs.Prelude.{◌≡◌};
ghost use Rattle.texts.specs.Unread.{unread_of};

use std::io;
use std::io::ErrorKind;

// A file is not there, or cannot be read as text.
#[derive(Clone, Copy, Debug, PartialEq, Eq)]
pub enum Unread {
    Missing,
    NoText,
}

impl From<io::Error> for Unread {
    ghost from_gives = { λ e u. u ≡ unread_of e };

    fn from(error: io::Error) -> Unread {
        match error.kind() {
            ErrorKind::NotFound => Unread::Missing,
            _ => Unread::NoText,
        }
    }
}
