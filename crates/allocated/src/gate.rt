/// A gate of two inputs.
#[derive(Clone, Copy)]
pub enum Gate {
    And,
    Or,
    Xor,
}
