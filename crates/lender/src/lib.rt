// A lender of memory: it lends its numbers to registers, puts an entry through them, and knows all its numbers afterwards.
#![tactic(auto)]

ghost use Rattle.std.specs.Prelude.{◌≡◌};
ghost use Rattle.register.specs.Plots.{entry_at, numbers_after, cut};
ghost use Rattle.register.specs.Grounds.{both_plots, first_numbers, second_numbers};

use register::flat::Flat;
use register::joined::Joined;
use register::register::Register;

// Puts an entry into a flat register over the numbers.
pub fn put_flat(numbers: &mut [u32], plot: u32, entry: u32) -> Option<u32>
    ensures found { result ≡ entry_at (cut numbers.old) plot }
    ensures numbers { numbers.new ≡ numbers_after numbers.old plot entry }
{
    let mut ground = Flat::new(numbers);
    ground.put(plot, entry)
}

// What a put into two joined grounds found, and the numbers of both grounds, handed back.
#[derive(Drop)]
pub struct Returned<'a> {
    pub found: Option<u32>,
    pub old: &'a mut [u32],
    pub extension: &'a mut [u32],
}

// Puts an entry into two flat registers over the numbers, joined, and takes the numbers back from them.
pub fn put_joined<'a>(
    old: &'a mut [u32],
    extension: &'a mut [u32],
    plot: u32,
    entry: u32,
) -> Returned<'a>
    ensures found { result.found ≡ entry_at (cut (both_plots old.old extension.old)) plot }
    ensures old { result.old.now ≡ first_numbers old.old (numbers_after (both_plots old.old extension.old) plot entry) }
    ensures extension { result.extension.now ≡ second_numbers old.old extension.old (numbers_after (both_plots old.old extension.old) plot entry) }
{
    let mut grounds = Joined::new(Flat::new(old), Flat::new(extension));
    let found = grounds.put(plot, entry);
    let (first, second) = grounds.into_parts();
    Returned {
        found,
        old: first.into_numbers(),
        extension: second.into_numbers(),
    }
}
