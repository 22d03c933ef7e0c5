// What a plate's faults tell, and how they keep a lower part's: by hand, since the `From` of a derive does not say which fault comes of it.
ghost use Rattle.std.specs.Prelude.{◌≡◌};
ghost use Rattle.plate.specs.declared.faults.PlateFault.TheVariants.{AtForm, AtStore, AtLine};
ghost use Rattle.plate.specs.Settings.{plate_fault_code};

use crate::faults::PlateFault;
use cells::StoreFault;
use fault::{Fault, FaultCode, Part};
use form::FormFault;
use line::LineFault;

impl Fault for PlateFault {
    ghost coded = { plate_fault_code };

    fn code(&self) -> FaultCode {
        match self {
            PlateFault::Unfit => Part::Plate.refusal(20, 0),
            PlateFault::AtForm(fault) => fault.code(),
            PlateFault::AtStore(fault) => fault.code(),
            PlateFault::AtLine(fault) => fault.code(),
        }
    }
}

// By hand, all three: what a derive writes does not tell the proofs which fault comes of a `?`.
impl From<FormFault> for PlateFault {
    ghost from_gives = { λ f r. r ≡ AtForm f };

    fn from(cause: FormFault) -> PlateFault {
        PlateFault::AtForm(cause)
    }
}

impl From<StoreFault> for PlateFault {
    ghost from_gives = { λ f r. r ≡ AtStore f };

    fn from(cause: StoreFault) -> PlateFault {
        PlateFault::AtStore(cause)
    }
}

impl From<LineFault> for PlateFault {
    ghost from_gives = { λ f r. r ≡ AtLine f };

    fn from(cause: LineFault) -> PlateFault {
        PlateFault::AtLine(cause)
    }
}
