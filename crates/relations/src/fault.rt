ghost use Rattle.relations.specs.Fault.{refusal, number_of, layer_of, of_system, of_gadget};
ghost use Rattle.relations.specs.declared.fault.GadgetFault.TheVariants.{System as in_gadget};
ghost use Rattle.std.specs.Prelude.{◌≡◌};

/// What a constraint system refuses.
#[derive(Clone, Copy)]
pub enum SystemFault {
    UnknownVariable,
    MissingValue,
    InputsFull,
    WitnessesFull,
    TermsFull,
    RowsFull,
    QuotaFull,
    MarkRefused,
}

/// What a gadget refuses: a fault of the system below it, whole, or one of its own.
#[derive(Clone, Copy)]
pub enum GadgetFault {
    System(SystemFault),
    TooManyMembers,
    NoValue,
    Unsatisfiable,
    NoSystem,
}

/// What a refusal says, with the number that it is told by.
#[derive(Clone, Copy)]
pub enum Reason {
    NotACommand = 1,
    NotThere = 2,
    Length = 3,
    TooManyMembers = 4,
    NoValue = 5,
    Unsatisfiable = 6,
    NoSystem = 7,
    VariablesFull = 8,
    TermsFull = 9,
    RowsFull = 10,
    BookFull = 11,
    QuotaFull = 12,
    MarkRefused = 13,
}

/// Where a refusal comes from, with the number that it is told by: the tape, a gadget, a system, or a layer above a system.
#[derive(Clone, Copy)]
pub enum Layer {
    Tape = 1,
    Gadget = 2,
    System = 3,
    AboveSystem = 4,
}

/// A refusal as it is told to the tape's writer: the numbers of its reason and of the layer that it comes from.
// Two numbers, and not the two enums: a run's text and the definitions tell a refusal by its numbers, and a caller may print one of its own.
#[derive(Clone, Copy)]
pub struct Refusal {
    pub number: u32,
    pub layer: u32,
}

impl Refusal {
    /// The refusal for a reason, from a layer.
    pub fn new(reason: Reason, layer: Layer) -> Refusal
        ensures { result ≡ refusal (number_of reason) (layer_of layer) }
    {
        Refusal {
            number: reason as u32,
            layer: layer as u32,
        }
    }
}

impl From<SystemFault> for GadgetFault {
    ghost from_gives = { λ f r. r ≡ in_gadget f };

    fn from(fault: SystemFault) -> GadgetFault {
        GadgetFault::System(fault)
    }
}

impl From<SystemFault> for Refusal {
    ghost from_gives = { λ f r. r ≡ of_system f };

    fn from(fault: SystemFault) -> Refusal {
        let (reason, layer) = match fault {
            SystemFault::UnknownVariable => (Reason::NotThere, Layer::System),
            SystemFault::MissingValue => (Reason::NoValue, Layer::System),
            SystemFault::InputsFull => (Reason::VariablesFull, Layer::System),
            SystemFault::WitnessesFull => (Reason::VariablesFull, Layer::System),
            SystemFault::TermsFull => (Reason::TermsFull, Layer::System),
            SystemFault::RowsFull => (Reason::RowsFull, Layer::System),
            SystemFault::QuotaFull => (Reason::QuotaFull, Layer::AboveSystem),
            SystemFault::MarkRefused => (Reason::MarkRefused, Layer::System),
        };
        Refusal::new(reason, layer)
    }
}

impl From<GadgetFault> for Refusal {
    ghost from_gives = { λ f r. r ≡ of_gadget f };

    fn from(fault: GadgetFault) -> Refusal {
        let (reason, layer) = match fault {
            GadgetFault::System(fault) => return fault.into(),
            GadgetFault::TooManyMembers => (Reason::TooManyMembers, Layer::Gadget),
            GadgetFault::NoValue => (Reason::NoValue, Layer::Gadget),
            GadgetFault::Unsatisfiable => (Reason::Unsatisfiable, Layer::Gadget),
            GadgetFault::NoSystem => (Reason::NoSystem, Layer::Gadget),
        };
        Refusal::new(reason, layer)
    }
}
