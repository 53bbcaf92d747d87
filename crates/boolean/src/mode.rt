/// How a value enters a circuit.
#[derive(Clone, Copy)]
pub enum AllocationMode {
    Constant,
    Input,
    Witness,
}
