// What stands in one cell.
ghost use Rattle.std.specs.Prelude.{◌≡◌, Some};
ghost use Rattle.cells.specs.Codes.{code_entry, entry_code};
ghost use Rattle.cells.specs.Texts.{entry_text};

use std::fmt;

// A symbol is a number below the store's alphabet. Missing is what cannot be read: an enum of its own, since no entry and a missing entry are not the same.
#[derive(Clone, Copy, PartialEq, Eq, Debug, Default)]
pub enum Entry {
    Symbol(u8),
    #[default]
    Missing,
}

impl Entry {
    // The entry for which a code stands in memory: below the alphabet that symbol, else missing.
    pub fn of_code(code: u8, alphabet: u8) -> Entry
        ensures { result ≡ code_entry alphabet code }
    {
        if code < alphabet {
            Entry::Symbol(code)
        } else {
            Entry::Missing
        }
    }

    // The code that stands for the entry in memory: a symbol itself, and the alphabet for missing.
    pub fn code(self, alphabet: u8) -> u8
        ensures { result ≡ entry_code alphabet self }
    {
        match self {
            Entry::Symbol(symbol) => symbol,
            Entry::Missing => alphabet,
        }
    }
}

// A symbol's number, or the word missing.
impl fmt::Display for Entry {
    ghost output = { λ entry. Some (entry_text entry) };

    fn fmt<W: fmt::Write>(&self, f: &mut fmt::Formatter<W>) -> fmt::Result {
        match self {
            Entry::Symbol(symbol) => write!(f, "{symbol}"),
            Entry::Missing => write!(f, "missing"),
        }
    }
}
