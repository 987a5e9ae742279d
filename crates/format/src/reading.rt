// The one reader: it goes through a file command by command, whatever the file is read into.
ghost use Rattle.format.specs.Format.{Format, Holds, step_of, read_file, name_places};
ghost use Rattle.format.specs.Readings.{none_yet, one_more, come};
ghost use Rattle.format.specs.Refusals.{stepped};
ghost use Rattle.std.specs.Prelude.{◌≡◌, ℕ, List, [], map, Option, OnOk, OnErr};

use crate::files::{LONGEST, byte_count};
use crate::refusal::{Refusal, Refused};

// What a file of commands is read into, by the rules of its format.
pub trait Reading {
    // What the file is read against, and the format of such files.
    ghost Against: { Type 0 };

    ghost against: { Self → Against };

    ghost format: { Against → Format };

    // What was read so far.
    ghost whole: { (a : Against) → Self → (format a).Whole };

    // How far behind its command's first byte a name stands, for each kind of name, and the places of such names so far.
    ghost names: { (a : Against) → List ((format a).Command → Option ℕ) };

    ghost places: { Self → List (List ℕ) };

    // What a refused file leaves.
    ghost refused: { Self → Type 0 };

    // No file of the format has more bytes than any file may have.
    ghost longest: { (a : Against) → (format a).longest ≡ 32767 };

    // Nothing was read yet. The format shows what the law of reading asks.
    fn start(&mut self)
        ensures holds { Holds (format (against self.old)) }
        ensures against { against self.new ≡ against self.old }
        ensures whole { whole (against self.old) self.new ≡ (format (against self.old)).empty }
        ensures places { places self.new ≡ none_yet (names (against self.old)) };

    // Reads the command at the front of the rest of the file, which begins at that offset, and hands
    // out what stands behind it.
    fn step<'a>(&mut self, rest: &'a [u8], offset: u16) -> Result<&'a [u8], Refusal>
        ensures against { against self.new ≡ against self.old }
        ensures is { stepped result (whole (against self.old) self.new) ≡ step_of (format (against self.old)) rest.now (whole (against self.old) self.old) }
        ensures places { OnOk result (places self.new ≡ one_more (names (against self.old)) ((format (against self.old)).command_at rest.now) offset (places self.old)) };

    // Whether the file may not end so.
    fn is_unfinished(&self) -> bool
        ensures { result ≡ (format (against self.now)).unfinished (whole (against self.now) self.now) };

    // The file is refused.
    fn refuse(&mut self)
        ensures { refused self.new };
}

// Reads the commands of the file, one after the other.
fn read_commands<R: Reading>(file: &[u8], reading: &mut R) -> Result<(), Refused>
    requires holds { Holds (R.format (R.against reading.old)) }
    requires whole { R.whole (R.against reading.old) reading.old ≡ (R.format (R.against reading.old)).empty }
    requires places { R.places reading.old ≡ none_yet (R.names (R.against reading.old)) }
    ensures is { come result (R.whole (R.against reading.old) reading.new) ≡ read_file (R.format (R.against reading.old)) file.now }
    ensures against { R.against reading.new ≡ R.against reading.old }
    ensures places { OnOk result (R.places reading.new ≡ map (λ behind. name_places (R.format (R.against reading.old)) behind (R.whole (R.against reading.old) reading.new)) (R.names (R.against reading.old))) }
{
    if byte_count(file) > LONGEST {
        return Err(Refused::at(Refusal::OverCount, 0));
    }
    let mut rest = file;
    let mut offset: u16 = 0;
    while !rest.is_empty() {
        match reading.step(rest, offset) {
            Ok(after) => {
                // by hand: how far it comes is what a step leaves, and no iterator's count
                offset += (rest.len() - after.len()) as u16;
                rest = after;
            }
            Err(refusal) => return Err(Refused::at(refusal, offset)),
        }
    }
    if reading.is_unfinished() {
        return Err(Refused::at(Refusal::Unfinished, offset));
    }
    Ok(())
}

// Reads the file from its beginning; a file that is refused leaves what refusing leaves.
pub fn read<R: Reading>(file: &[u8], reading: &mut R) -> Result<(), Refused>
    ensures is { come result (R.whole (R.against reading.old) reading.new) ≡ read_file (R.format (R.against reading.old)) file.now }
    ensures against { OnOk result (R.against reading.new ≡ R.against reading.old) }
    ensures places { OnOk result (R.places reading.new ≡ map (λ behind. name_places (R.format (R.against reading.old)) behind (R.whole (R.against reading.old) reading.new)) (R.names (R.against reading.old))) }
    ensures refused { OnErr result (R.refused reading.new) }
{
    reading.start();
    let answer = read_commands(file, reading);
    if answer.is_err() {
        reading.refuse();
    }
    answer
}
