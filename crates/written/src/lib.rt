#![tactic(auto)]

ghost use Rattle.std.specs.Prelude.{◌≡◌};
ghost use Rattle.written.specs.Cells.{cells, cell as cell_of, Small};

pub mod writer;

// Beside `Names` of words, which borrows the words besides and asks them to be long enough: cells are counted from numbers alone.
/// How many inputs, witnesses and combinations there are, and how many places the combinations take.
#[derive(Clone, Copy)]
pub struct Counts {
    pub inputs: usize,
    pub witnesses: usize,
    pub lcs: usize,
    pub front: usize,
}

impl Counts {
    /// How many cells there are: one for One, for each input and for each witness, and for each place of the combinations.
    pub fn cells(self) -> usize
        requires { Small self }
        ensures { result ≡ cells self }
    {
        1 + self.inputs + self.witnesses + self.front
    }

    // In which cell the coefficient of the variable with the code c stands, if that variable is there.
    fn cell(self, c: u32) -> Option<usize>
        requires { Small self }
        ensures { result ≡ cell_of self c }
    {
        let i = (c / 8) as usize;
        match c % 8 {
            1 if i < self.inputs => Some(1 + i),
            2 if i < self.witnesses => Some(1 + self.inputs + i),
            3 if i < self.front => Some(1 + self.inputs + self.witnesses + i),
            _ if c == 0 => Some(0),
            _ => None,
        }
    }
}

#[cfg(test)]
mod tests;
