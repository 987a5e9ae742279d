// The commands of a policy's file. The first byte of a command says which it is, and its operands
// stand behind it.
ghost use Rattle.book_file.specs.Commands.{in_front};
ghost use Rattle.format.specs.Refusals.{read_as};
ghost use Rattle.policy_file.specs.Commands.{number_at, term_at, command_of};
ghost use Rattle.policy_file.specs.Law.{change_byte};
ghost use Rattle.std.specs.Prelude.{◌≡◌, ◌∷◌};

use book_file::commands::read_name;
use format::refusal::Refusal;
use policy::table::Write;
use tables::name::Name;

// A term as a file has it: its kind and its number.
// The kind stays a byte, as WHEN's comparison does: a command is written back as it was read, and its tests come in turn.
#[derive(Clone, Copy, Debug, PartialEq, Eq)]
pub struct RawTerm {
    pub kind: u8,
    pub number: u32,
}

// A command of a policy's file, with its operands.
#[derive(Clone, Copy, Debug, PartialEq, Eq)]
pub enum Command {
    Cell(u32),
    Group,
    Has(u8),
    Nest(u8),
    On(u8, Name),
    OnGroup(u8, Name),
    When(u8, RawTerm, RawTerm),
    Violate,
    Write(Write, u8, RawTerm),
}

// The number at the front of the bytes, the most significant byte first, and the bytes behind it.
fn read_number(bytes: &[u8]) -> Result<(u32, &[u8]), Refusal>
    ensures { read_as result ≡ in_front 4 (number_at 0) bytes.now }
{
    let (number, rest) = bytes.split_first_chunk().ok_or(Refusal::CutOff)?;
    Ok((u32::from_be_bytes(*number), rest))
}

// The term at the front of the bytes, and the bytes behind it.
fn read_term(bytes: &[u8]) -> Result<(RawTerm, &[u8]), Refusal>
    ensures { read_as result ≡ in_front 5 (term_at 0) bytes.now }
{
    let (kind, behind) = bytes.split_first().ok_or(Refusal::CutOff)?;
    let (number, rest) = read_number(behind)?;
    Ok((
        RawTerm {
            kind: *kind,
            number,
        },
        rest,
    ))
}

// WHEN, and the bytes behind it.
fn read_when(operands: &[u8]) -> Result<(Command, &[u8]), Refusal>
    ensures { read_as result ≡ command_of (176 ∷ operands.now) }
{
    let (comparison, terms) = operands.split_first().ok_or(Refusal::CutOff)?;
    let (left, behind) = read_term(terms)?;
    let (right, rest) = read_term(behind)?;
    Ok((Command::When(*comparison, left, right), rest))
}

// SET, ADD or TAKE, and the bytes behind it.
fn read_write(write: Write, operands: &[u8]) -> Result<(Command, &[u8]), Refusal>
    ensures { read_as result ≡ command_of (change_byte write ∷ operands.now) }
{
    let (cell, behind) = operands.split_first().ok_or(Refusal::CutOff)?;
    let (value, rest) = read_term(behind)?;
    Ok((Command::Write(write, *cell, value), rest))
}

// The command at the front of the bytes, and the bytes behind it.
pub(crate) fn read_command(bytes: &[u8]) -> Result<(Command, &[u8]), Refusal>
    ensures { read_as result ≡ command_of bytes.now }
{
    match bytes {
        [0x40, operands @ ..] => {
            let (first, rest) = read_number(operands)?;
            Ok((Command::Cell(first), rest))
        }
        [0x00, rest @ ..] => Ok((Command::Group, rest)),
        [0x10, operation, rest @ ..] => Ok((Command::Has(*operation), rest)),
        [0x11, group, rest @ ..] => Ok((Command::Nest(*group), rest)),
        [0x90, operation, operands @ ..] => {
            let (label, rest) = read_name(operands)?;
            Ok((Command::On(*operation, label), rest))
        }
        [0x91, group, operands @ ..] => {
            let (label, rest) = read_name(operands)?;
            Ok((Command::OnGroup(*group, label), rest))
        }
        [0xb0, operands @ ..] => read_when(operands),
        [0x01, rest @ ..] => Ok((Command::Violate, rest)),
        [0x60, operands @ ..] => read_write(Write::Set, operands),
        [0x61, operands @ ..] => read_write(Write::Add, operands),
        [0x62, operands @ ..] => read_write(Write::Take, operands),
        [] | [0x10 | 0x11 | 0x90 | 0x91, ..] => Err(Refusal::CutOff),
        _ => Err(Refusal::NoCommand),
    }
}
