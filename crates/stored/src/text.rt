// What the lines that are printed tell.
use std::fmt;
use std::ops::Add;

// How many cases there are, and how many of them differ or are skipped.
#[derive(Clone, Copy, Default)]
pub struct Tally {
    pub cases: u64,
    pub differ: u64,
    pub skipped: u64,
}

// Both tallies in one. The numbers are counts of what was read, so that none comes near to wrapping.
impl Add for Tally {
    type Output = Tally;

    fn add(self, other: Tally) -> Tally {
        Tally {
            cases: self.cases.wrapping_add(other.cases),
            differ: self.differ.wrapping_add(other.differ),
            skipped: self.skipped.wrapping_add(other.skipped),
        }
    }
}

impl fmt::Display for Tally {
    fn fmt<W: fmt::Write>(&self, f: &mut fmt::Formatter<W>) -> fmt::Result {
        write!(f, "{} cases, {} differ", self.cases, self.differ)?;
        if self.skipped > 0 {
            write!(f, ", {} skipped", self.skipped)?;
        }
        Ok(())
    }
}

// One operation: its cases, and the number of the first that differs, from 0.
#[derive(Clone, Copy, Default)]
pub struct Block {
    pub tally: Tally,
    pub first: Option<u32>,
}

impl fmt::Display for Block {
    fn fmt<W: fmt::Write>(&self, f: &mut fmt::Formatter<W>) -> fmt::Result {
        write!(f, "{}", self.tally)?;
        if let Some(first) = self.first {
            write!(f, ", first case {first}")?;
        }
        Ok(())
    }
}

// A list: its cases, and after how many words it broke off, or had a case too long, if it did.
#[derive(Clone, Copy)]
pub struct Total {
    pub tally: Tally,
    pub broken: Option<u64>,
}

impl fmt::Display for Total {
    fn fmt<W: fmt::Write>(&self, f: &mut fmt::Formatter<W>) -> fmt::Result {
        write!(f, "{}", self.tally)?;
        if let Some(word) = self.broken {
            write!(f, ", broken at word {word}")?;
        }
        Ok(())
    }
}
