// What the program prints, as values.
use crate::burials::Burial;
use std::fmt;

// What became of one burial.
#[derive(Clone, Copy, Debug, PartialEq, Eq)]
pub struct Outcome {
    pub burial: Burial,
    pub found: Option<u32>,
}

impl fmt::Display for Outcome {
    fn fmt<W: fmt::Write>(&self, f: &mut fmt::Formatter<W>) -> fmt::Result {
        let plot = self.burial.plot;
        let entry = self.burial.entry;
        match self.found {
            Some(found) => write!(f, "plot {plot} held {found}, now {entry}"),
            None => write!(f, "plot {plot}: no such plot"),
        }
    }
}

// A ground in the form of its file, ten entries to a line.
#[derive(Drop)]
pub struct Ground<'a> {
    pub entries: &'a [u32],
}

impl fmt::Display for Ground<'_> {
    fn fmt<W: fmt::Write>(&self, f: &mut fmt::Formatter<W>) -> fmt::Result {
        for (i, entry) in self.entries.iter().enumerate() {
            let space = match (i, i % 10) {
                (0, _) => "",
                (_, 0) => "\n",
                _ => " ",
            };
            write!(f, "{space}{entry}")?;
        }
        Ok(())
    }
}
