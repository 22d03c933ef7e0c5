use cells::Entry;
use line::LineRequest;
use readings::AnsweredLine;

// A call of a plate with its arguments.
#[derive(Clone, Copy)]
pub enum Call<'a> {
    Burn(&'a [u8]),
    Spoil { place: usize, entry: Entry },
    Read { place: usize },
    Correct(LineRequest<'a>),
    Mend(LineRequest<'a>),
}

// What an accepted call answers.
#[derive(PartialEq, Eq, Debug, Drop)]
pub enum Reply {
    Done,
    Told(Entry),
    Corrected(AnsweredLine),
}
