// Recording burials in an old ground and its extension, joined.
ghost use Rattle.std.specs.Prelude.{◌≡◌, ◌++◌, length, drop, is_ok, IfOk, if◌then◌else◌};
ghost use Rattle.register.specs.Plots.{cut, most};
ghost use Rattle.register.specs.Grounds.{both_plots, first_numbers, second_numbers};
ghost use Rattle.grounds.specs.Burials.{found_by, buried};

use register::flat::Flat;
use register::joined::Joined;
use register::register::Register;
use std::alloc::{AllocError, Global};

// An entry to be put at a plot.
#[derive(Clone, Copy, Debug, PartialEq, Eq)]
pub struct Burial {
    pub plot: u32,
    pub entry: u32,
}

// How many plots the grounds have, what each burial found, and the numbers of both grounds, handed back.
// The burials stay the caller's, so what they found is the list of the answers to them, in their order.
#[derive(Drop)]
pub struct Recorded<'a> {
    pub old_plots: u32,
    pub extension_plots: u32,
    pub joined_plots: u32,
    pub found: Vec<Option<u32>>,
    pub old: &'a mut [u32],
    pub extension: &'a mut [u32],
}

// Records all burials in order; without memory for the answers none is recorded.
pub(crate) fn bury_all<R: Register>(
    heap: Global,
    ground: &mut R,
    burials: &[Burial],
) -> Result<Vec<Option<u32>>, AllocError>
    ensures found { IfOk result (λ v. v.items ≡ found_by (R.Register.meaning ground.old) burials.now) }
    ensures plots { R.Register.meaning ground.new ≡ (if is_ok result then buried (R.Register.meaning ground.old) burials.now else R.Register.meaning ground.old) }
    ensures beside { R.Register.stays ground.old ground.new }
{
    let mut found = Vec::with_capacity(heap, burials.len())?;
    for burial in burials {
        found.push_reserved(ground.put(burial.plot, burial.entry));
    }
    Ok(found)
}

// Records all burials, in order, in the joined ground over the numbers of both grounds.
pub(crate) fn record_burials<'a>(
    heap: Global,
    old: &'a mut [u32],
    extension: &'a mut [u32],
    burials: &[Burial],
) -> Result<Recorded<'a>, AllocError>
    ensures counts { IfOk result (λ d. (d.old_plots ≡ length (cut old.old)) × (d.extension_plots ≡ length (cut extension.old)) × (d.joined_plots ≡ length (cut (both_plots old.old extension.old)))) }
    ensures found { IfOk result (λ d. d.found.items ≡ found_by (cut (both_plots old.old extension.old)) burials.now) }
    ensures old { IfOk result (λ d. d.old.now ≡ first_numbers old.old (buried (cut (both_plots old.old extension.old)) burials.now ++ drop most (both_plots old.old extension.old))) }
    ensures extension { IfOk result (λ d. d.extension.now ≡ second_numbers old.old extension.old (buried (cut (both_plots old.old extension.old)) burials.now ++ drop most (both_plots old.old extension.old))) }
{
    let first = Flat::new(old);
    let second = Flat::new(extension);
    let old_plots = first.plots();
    let extension_plots = second.plots();
    let mut grounds = Joined::new(first, second);
    let joined_plots = grounds.plots();
    let found = bury_all(heap, &mut grounds, burials)?;
    let (first, second) = grounds.into_parts();
    Ok(Recorded {
        old_plots,
        extension_plots,
        joined_plots,
        found,
        old: first.into_numbers(),
        extension: second.into_numbers(),
    })
}
