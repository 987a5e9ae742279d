// Examples of words that are numbers, and of files that give no text.
use crate::number::{NotNumber, read_number};
use crate::unread::Unread;
use std::io;
use std::io::ErrorKind;

#[test]
fn words_are_numbers(rt: HostRuntime) {
    for (word, number) in [
        ("0", Ok(0)),
        ("007", Ok(7)),
        ("4294967295", Ok(4294967295)),
        ("4294967296", Err(NotNumber::TooLarge)),
        ("", Err(NotNumber::NoDigits)),
        ("+1", Err(NotNumber::NoDigits)),
        ("1x", Err(NotNumber::NoDigits)),
    ] {
        assert_eq!(rt; read_number(word), number, "at {word}");
    }
}

#[test]
fn failures_are_told(rt: HostRuntime) {
    for (kind, unread) in [
        (ErrorKind::NotFound, Unread::Missing),
        (ErrorKind::InvalidData, Unread::NoText),
    ] {
        assert_eq!(rt; Unread::from(io::Error::from(kind)), unread);
    }
}
