ghost use Rattle.std.specs.Prelude.{◌≡◌, ℕ, List, ◌++◌, length};
ghost use Rattle.register.specs.Plots.{cut};
ghost use Rattle.register.specs.Grounds.{SameSeam};
ghost use Rattle.register.specs.Shown.{cut_short, seam_still, seam_linked};

use crate::register::{MOST, Register};

// An old ground and its extension: the plots of the first and then those of the second, cut after 65,535.
#[derive(Drop)]
pub struct Joined<A, B> {
    first: A,
    second: B,
}

impl<A, B> Joined<A, B> {
    // The two registers as one.
    pub fn new(first: A, second: B) -> Joined<A, B>
        ensures { result ≡ record { first = first; second = second } }
    {
        Joined { first, second }
    }

    // The two registers that were joined.
    pub fn into_parts(self) -> (A, B)
        ensures { result ≡ (self.first, self.second) }
    {
        let Joined { first, second } = self;
        (first, second)
    }
}

impl<A: Register, B: Register> Register for Joined<A, B> {
    ghost meaning = { λ j. cut (A.Register.meaning j.first ++ B.Register.meaning j.second) };

    ghost short = { λ j. cut_short (A.Register.meaning j.first ++ B.Register.meaning j.second) };

    ghost stays = { λ i j. A.Register.stays i.first j.first × B.Register.stays i.second j.second × SameSeam (A.Register.meaning i.first) (B.Register.meaning i.second) (A.Register.meaning j.first) (B.Register.meaning j.second) };

    ghost still = { λ j. (A.Register.still j.first, B.Register.still j.second, seam_still (A.Register.meaning j.first) (B.Register.meaning j.second)) };

    ghost linked = { λ i j k s t. (A.Register.linked i.first j.first k.first s.0 t.0, B.Register.linked i.second j.second k.second s.1 t.1, seam_linked _ _ _ _ _ _ s.2 t.2) };

    fn plots(&self) -> u32 {
        (self.first.plots() + self.second.plots()).min(MOST)
    }

    fn look(&self, plot: u32) -> Option<u32> {
        let seam = self.first.plots();
        if plot < seam {
            self.first.look(plot)
        } else if plot < MOST {
            self.second.look(plot - seam)
        } else {
            None
        }
    }

    // The test on the most plots comes first: a plot past it asks nothing of the grounds below.
    fn put(&mut self, plot: u32, entry: u32) -> Option<u32> {
        if plot >= MOST {
            return None;
        }
        let seam = self.first.plots();
        if plot < seam {
            self.first.put(plot, entry)
        } else {
            self.second.put(plot - seam, entry)
        }
    }
}
