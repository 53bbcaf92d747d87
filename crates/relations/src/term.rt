/// A variable of a constraint system: the constant one, the constant zero, an input, a witness, or a combination,
/// which is named by the place of its heading.
#[derive(Clone, Copy)]
pub enum Variable {
    One,
    Zero,
    Input(u32),
    Witness(u32),
    Combination(u32),
}

/// The side of an assignment on which a new variable stands: the inputs, which everybody knows, or the witnesses.
#[derive(Clone, Copy)]
pub enum Side {
    Input,
    Witness,
}

/// A coefficient, read modulo the field's prime, and the variable that it multiplies.
#[derive(Clone, Copy)]
pub struct Term {
    pub coefficient: u32,
    pub variable: Variable,
}

/// How long the four lists of a system were when a gadget's call began. It is no `Drop`: whoever draws one spends it, by
/// keeping what came since or by rewinding.
pub struct Mark {
    pub inputs: u32,
    pub witnesses: u32,
    pub combinations: u32,
    pub rows: u32,
}
