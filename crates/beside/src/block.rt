/// A block of a list: a field's prime, whether values are kept, the digits of a tape, whether the Rust crate does otherwise on
/// purpose, and the text that is expected.
#[derive(Clone, Copy)]
pub(crate) struct Block<'a> {
    pub(crate) prime: &'a str,
    pub(crate) mode: Mode,
    pub(crate) digits: &'a str,
    pub(crate) differs: bool,
    pub(crate) text: &'a str,
}

/// Whether a system keeps values.
#[derive(Clone, Copy)]
pub(crate) enum Mode {
    Values,
    Setup,
}

impl Mode {
    /// The mode of a name.
    fn of_name(name: &str) -> Option<Mode> {
        match name {
            "values" => Some(Mode::Values),
            "setup" => Some(Mode::Setup),
            _ => None,
        }
    }
}

impl<'a> Block<'a> {
    /// The parts of a block: its first line has the prime, the mode and the digits, and then `differs` and a name where the Rust
    /// crate does otherwise on purpose. None where it has not.
    pub(crate) fn new(block: &'a str) -> Option<Block<'a>> {
        let (head, text) = block.split_once("\n")?;
        let (prime, rest) = head.split_once(" ")?;
        let (name, rest) = rest.split_once(" ")?;
        let mode = Mode::of_name(name)?;
        let (digits, differs) = match rest.split_once(" differs ") {
            Some((digits, _name)) => (digits, true),
            None => (rest, false),
        };
        Some(Block {
            prime,
            mode,
            digits,
            differs,
            text,
        })
    }
}
