// A file that a program opened, as bytes that are there or not.
ghost use Rattle.loading.specs.Found.{Found};

use std::io;
use std::io::ErrorKind;

// The bytes of a file that was read, or nothing where there is no such file; another failure to
// read it is handed on.
pub fn found(read: io::Result<Vec<u8>>) -> io::Result<Option<Vec<u8>>>
    ensures { Found read result }
{
    // a match, since one of the errors is an answer: a closure for `or_else` would be the same match
    match read {
        Ok(file) => Ok(Some(file)),
        Err(error) if error.kind() == ErrorKind::NotFound => Ok(None),
        Err(error) => Err(error),
    }
}
