// Forms of a shape, and their values.
#![tactic(auto)]

mod calls;
mod checked;
mod evaluate;
mod faults;
mod sheet;

pub use calls::{coefficient_count, gap};
pub use checked::CheckedForm;
pub use faults::FormFault;
pub use sheet::Form;
