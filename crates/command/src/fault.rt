ghost use Rattle.std.specs.Prelude.{◌≡◌};
ghost use Rattle.command.specs.declared.fault.TapeFault.TheVariants.{Gadget as in_tape};
ghost use Rattle.command.specs.Refusals.{of_tape};

use relations::{GadgetFault, Layer, Reason, Refusal};

/// What a tape's command is refused with: a gadget's fault, whole, or one of the tape's own.
#[derive(Clone, Copy)]
pub enum TapeFault {
    Gadget(GadgetFault),
    Unknown,
    Operand,
    Length,
    BookFull,
}

impl From<GadgetFault> for TapeFault {
    ghost from_gives = { λ f r. r ≡ in_tape f };

    fn from(fault: GadgetFault) -> TapeFault {
        TapeFault::Gadget(fault)
    }
}

impl From<TapeFault> for Refusal {
    ghost from_gives = { λ f r. r ≡ of_tape f };

    fn from(fault: TapeFault) -> Refusal {
        let (reason, layer) = match fault {
            TapeFault::Gadget(fault) => return fault.into(),
            TapeFault::Unknown => (Reason::NotACommand, Layer::Tape),
            TapeFault::Operand => (Reason::NotThere, Layer::Tape),
            TapeFault::Length => (Reason::Length, Layer::Tape),
            TapeFault::BookFull => (Reason::BookFull, Layer::Tape),
        };
        Refusal::new(reason, layer)
    }
}
