use cells::StoreFault;
use form::FormFault;
use line::LineFault;
use thiserror::Error;

// Why a plate refuses a call. A fault of a lower part is kept whole.
#[derive(Clone, Copy, PartialEq, Eq, Debug, Error)]
pub enum PlateFault {
    #[error("the field, the shape and the store are not made for each other")]
    Unfit,
    #[error(transparent)]
    AtForm(FormFault),
    #[error(transparent)]
    AtStore(StoreFault),
    #[error(transparent)]
    AtLine(LineFault),
}
