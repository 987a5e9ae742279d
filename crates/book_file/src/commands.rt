ghost use Rattle.book_file.specs.Commands.{name_in, in_front, command_of};
ghost use Rattle.format.specs.Refusals.{read_as};
ghost use Rattle.std.specs.Prelude.{◌≡◌};

use format::refusal::Refusal;
use tables::name::Name;

// A command of a book's file, with its operands.
// Acts and conditions stay bytes: a command is written back as it was read, and its tests come in turn.
#[derive(Clone, Copy, Debug, PartialEq, Eq)]
pub enum Command {
    Operation(Name),
    Field(u8),
    Call(Name),
    Before(u8),
    Act(u8),
    After(u8, u8),
}

// The name at the front of the bytes, and the bytes behind it.
pub fn read_name(bytes: &[u8]) -> Result<(Name, &[u8]), Refusal>
    ensures { read_as result ≡ in_front 8 name_in bytes.now }
{
    let (letters, rest) = bytes.split_first_chunk().ok_or(Refusal::CutOff)?;
    Ok((Name { letters: *letters }, rest))
}

// The command at the front of the bytes, and the bytes behind it.
pub fn read_command(bytes: &[u8]) -> Result<(Command, &[u8]), Refusal>
    ensures { read_as result ≡ command_of bytes.now }
{
    match bytes {
        [0x80, operands @ ..] => {
            let (name, rest) = read_name(operands)?;
            Ok((Command::Operation(name), rest))
        }
        [0x81, operands @ ..] => {
            let (name, rest) = read_name(operands)?;
            Ok((Command::Call(name), rest))
        }
        [0x10, mark, rest @ ..] => Ok((Command::Field(*mark), rest)),
        [0x11, operation, rest @ ..] => Ok((Command::Before(*operation), rest)),
        [0x12, act, rest @ ..] => Ok((Command::Act(*act), rest)),
        [0x20, operation, condition, rest @ ..] => Ok((
            Command::After(*operation, *condition),
            rest,
        )),
        [0x10 | 0x11 | 0x12 | 0x20, ..] => Err(Refusal::CutOff),
        _ => Err(Refusal::NoCommand),
    }
}
