ghost use Rattle.std.specs.Prelude.{◌≡◌, ◌≤◌, [], cond, Some, None, length};
ghost use Rattle.gates.specs.Kary.{gate_of, joined, sums, all_constant, told_all, ones};

use boolean::{Boolean, Gate};

/// A gate of any number of bits: whether all are one, or some.
#[derive(Clone, Copy)]
pub enum Wide {
    And,
    Or,
}

/// Whether a gate of so many members is a compared sum, and not a chain.
pub(crate) fn sums(members: usize) -> bool
    ensures { result ≡ sums members }
{
    members >= 4
}

impl Wide {
    /// The gate of two members.
    pub(crate) fn gate(self) -> Gate
        ensures { result ≡ gate_of self }
    {
        match self {
            Wide::And => Gate::And,
            Wide::Or => Gate::Or,
        }
    }

    /// The gate of no members.
    pub(crate) fn of_none(self) -> bool
        ensures { result ≡ joined self [] }
    {
        match self {
            Wide::And => true,
            Wide::Or => false,
        }
    }

    /// The gate of some members that are all constants.
    pub(crate) fn folded(self, members: &[Boolean]) -> Option<bool>
        ensures { result ≡ cond (all_constant members.now) (Some (joined self (told_all members.now))) None }
    {
        let mut value = self.of_none();
        for member in members {
            match *member {
                Boolean::Constant(b) => value = self.gate().apply(value, b),
                Boolean::Var(_) => return None,
            }
        }
        Some(value)
    }
}

/// How many members are the constant one.
pub(crate) fn ones(members: &[Boolean]) -> usize
    ensures counts { result ≡ ones members.now }
    ensures few { result ≤ length members.now }
{
    let mut count = 0;
    for member in members {
        if let Boolean::Constant(true) = *member {
            count += 1;
        }
    }
    count
}
