ghost use Rattle.std.specs.Prelude.{◌≡◌, ℕ, List, length};
ghost use Rattle.register.specs.Plots.{entry_at, with_entry, Short, Fit};

// The most plots that a register has.
pub const MOST: u32 = 65535;

// A burial register: a list of entries, one for each plot, plots numbered from 0.
pub trait Register {
    // What the register means: its entries, plot 0 first.
    ghost meaning: { Self → List ℕ };

    // No register has more than 65,535 plots.
    ghost short: { (x : Self) → Short (meaning x) };

    // What no call changes beside the plots, as the memory that is lent.
    ghost stays: { Self → Self → Type 0 };

    // A register that is not called has kept all that.
    ghost still: { (x : Self) → stays x x };

    // Kept over one call and kept over the next is kept over both.
    ghost linked: { (x y z : Self) → stays x y → stays y z → stays x z };

    // How many plots there are. Each of their entries is below 2^32.
    fn plots(&self) -> u32
        ensures count { result ≡ length (meaning self.now) }
        ensures fit { Fit (meaning self.now) };

    // The entry of a plot, or none where there is no such plot.
    fn look(&self, plot: u32) -> Option<u32>
        ensures { result ≡ entry_at (meaning self.now) plot };

    // The plot and the entry are two, as a key and its value: a struct of both would be taken apart at each call.
    // Puts an entry at a plot and answers the one that stood there, or none where there is no such plot.
    fn put(&mut self, plot: u32, entry: u32) -> Option<u32>
        ensures found { result ≡ entry_at (meaning self.old) plot }
        ensures plots { meaning self.new ≡ with_entry (meaning self.old) plot entry }
        ensures beside { stays self.old self.new };
}
