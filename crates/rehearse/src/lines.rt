// What the program prints, as values.
use run::answers::Answer;
use std::fmt;

// A request as it was read, with its answer.
#[derive(Drop)]
pub struct Answered<'a> {
    pub text: &'a str,
    pub answer: Answer,
}

impl fmt::Display for Answered<'_> {
    fn fmt<W: fmt::Write>(&self, f: &mut fmt::Formatter<W>) -> fmt::Result {
        let text = self.text;
        let answer = self.answer;
        write!(f, "{text}: {answer}")
    }
}

// The entries of all plots, on one line.
#[derive(Drop)]
pub struct Plots<'a> {
    pub entries: &'a [u32],
}

impl fmt::Display for Plots<'_> {
    fn fmt<W: fmt::Write>(&self, f: &mut fmt::Formatter<W>) -> fmt::Result {
        write!(f, "plots")?;
        for entry in self.entries {
            write!(f, " {entry}")?;
        }
        Ok(())
    }
}
