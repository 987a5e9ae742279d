ghost use Rattle.std.specs.Prelude.{◌≡◌, ℕ, List, length};
ghost use Rattle.register.specs.Plots.{entry_at, with_entry, cut, numbers_after, Fit};
ghost use Rattle.register.specs.Grounds.{SameLoan};
ghost use Rattle.register.specs.Shown.{cut_short, loan_still, loan_linked};

use crate::register::{MOST, Register};

// A register over numbers handed in: the first 65,535 of them are its plots, and later ones are never written.
#[derive(Drop)]
pub struct Flat<'a> {
    numbers: &'a mut [u32],
}

impl<'a> Flat<'a> {
    // The register over these numbers.
    pub fn new(numbers: &'a mut [u32]) -> Flat<'a>
        ensures { result.numbers ≡ numbers.entry }
    {
        Flat { numbers }
    }

    // The numbers handed in, handed back.
    pub fn into_numbers(self) -> &'a mut [u32]
        ensures { result ≡ self.entry.numbers }
    {
        let Flat { numbers } = self;
        numbers
    }
}

// The plots among the numbers. As each number is a u32, it is below 2^32.
fn plots_of(numbers: &[u32]) -> &[u32]
    ensures plots { result.now ≡ cut numbers.now }
    ensures fit { Fit (cut numbers.now) }
{
    let count = numbers.len().min(MOST as usize);
    &numbers[..count]
}

impl Register for Flat<'_> {
    ghost meaning = { λ f. cut f.numbers.now };

    ghost short = { λ f. cut_short f.numbers.now };

    ghost stays = { λ f g. SameLoan f.numbers g.numbers };

    ghost still = { λ f. loan_still f.numbers };

    ghost linked = { λ f g h. loan_linked f.numbers g.numbers h.numbers };

    fn plots(&self) -> u32 {
        plots_of(self.numbers).len() as u32
    }

    fn look(&self, plot: u32) -> Option<u32> {
        plots_of(self.numbers).get(plot as usize).copied()
    }

    fn put(&mut self, plot: u32, entry: u32) -> Option<u32>
        ensures found { result ≡ entry_at (cut self.old.numbers.now) plot }
        ensures plots { cut self.new.numbers.now ≡ with_entry (cut self.old.numbers.now) plot entry }
        ensures beside { SameLoan self.old.numbers self.new.numbers }
        ensures numbers { self.new.numbers.now ≡ numbers_after self.old.numbers.now plot entry }
    {
        let found = self.look(plot)?;
        self.numbers[plot as usize] = entry;
        Some(found)
    }
}
