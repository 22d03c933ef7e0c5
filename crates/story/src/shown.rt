// Calls and their answers as the program prints them.
use cells::Entry;
use fault::Fault;
use plate::{Call, PlateFault, Reply};
use std::fmt;

#[derive(Drop)]
pub(crate) struct ShownCall<'a>(pub(crate) &'a Call<'a>);

impl<'a> fmt::Display for ShownCall<'a> {
    fn fmt<W: fmt::Write>(&self, f: &mut fmt::Formatter<W>) -> fmt::Result {
        match self.0 {
            Call::Burn(_) => write!(f, "burn"),
            Call::Spoil {
                place,
                entry: Entry::Symbol(symbol),
            } => write!(f, "spoil {place} with {symbol}"),
            Call::Spoil {
                place,
                entry: Entry::Missing,
            } => write!(f, "wipe {place}"),
            Call::Read { place } => write!(f, "read {place}"),
            Call::Correct(line) => write!(f, "correct {} along {}", line.place, line.direction),
            Call::Mend(line) => write!(f, "mend {} along {}", line.place, line.direction),
        }
    }
}

#[derive(Drop)]
pub(crate) struct ShownAnswer<'a>(pub(crate) &'a Result<Reply, PlateFault>);

impl<'a> fmt::Display for ShownAnswer<'a> {
    fn fmt<W: fmt::Write>(&self, f: &mut fmt::Formatter<W>) -> fmt::Result {
        match self.0 {
            Ok(Reply::Done) => write!(f, "done"),
            Ok(Reply::Told(entry)) => write!(f, "{entry}"),
            Ok(Reply::Corrected(line)) => write!(f, "{line}"),
            Err(fault) => write!(f, "refused {} at {}", fault.number(), fault.position()),
        }
    }
}
