// Texts put together. Each step says how many bytes it may take, and the room is enough for all of them.
// No Display: its law says what a fmt that succeeds wrote, but not that it succeeds, and writing a report must not fail.
ghost use Rattle.std.specs.Prelude.{◌≡◌, ◌≤◌, [], ◌∷◌, ◌++◌, length};
ghost use Rattle.report.specs.Room.{room};
ghost use Rattle.report.specs.Written.{written, RoomFor, LongerBy};
ghost use Rattle.report.specs.Reports.{chosen, symbol_text, mark_text, mark_of, marks_text, report_text};
ghost use Rattle.report.specs.Meant.{meant, meant_marks};

use crate::buffer::Text;
use crate::kinds::Report;
use arrayvec::ArrayVec;
use itoa::{Buffer, Integer};

// As many marks have a bit.
const BITS: usize = 32;

// Fills an empty list, where it stands, with the marks whose bit is set.
fn choose(list: &mut ArrayVec<u8, BITS>, marks: &[u8], bits: u32)
    requires { list.old.items ≡ [] }
    ensures { list.new.items ≡ chosen marks.now bits }
{
    // No mark past the highest bit is chosen.
    let width = BITS - bits.leading_zeros() as usize;
    for (i, mark) in marks.iter().enumerate().take(width) {
        if (bits >> i) % 2 == 1 {
            list.push(*mark);
        }
    }
}

impl Text {
    pub(crate) fn new() -> Text
        ensures { written result ≡ [] }
    {
        Text {
            bytes: ArrayVec::new(),
        }
    }

    pub(crate) fn as_slice(&self) -> &[u8]
        ensures text { result.now ≡ written self.now }
        ensures few { length result.now ≤ room }
    {
        self.bytes.as_slice()
    }

    fn push(&mut self, byte: u8)
        requires { RoomFor 1 self.old }
        ensures text { written self.new ≡ written self.old ++ (byte ∷ []) }
        ensures longer { LongerBy 1 self.old self.new }
    {
        self.bytes.push(byte);
    }

    fn push_bytes(&mut self, bytes: &[u8])
        requires { RoomFor (length bytes.now) self.old }
        ensures text { written self.new ≡ written self.old ++ bytes.now }
        ensures longer { LongerBy (length bytes.now) self.old self.new }
    {
        self.bytes.try_extend_from_slice(bytes).unwrap();
    }

    fn push_number<N: Integer>(&mut self, n: N)
        requires { RoomFor N.MAX_STR_LEN self.old }
        ensures text { written self.new ≡ written self.old ++ N.text n }
        ensures longer { LongerBy N.MAX_STR_LEN self.old self.new }
    {
        let mut buffer = Buffer::new();
        // One by one, since a copy of so few bytes takes longer.
        for digit in buffer.format(n).as_bytes() {
            self.push(*digit);
        }
    }

    #[tactic(auto, using(crate::proofs::Numerals::numerals_decimal))]
    fn push_symbol(&mut self, symbol: Option<u8>)
        requires { RoomFor 3 self.old }
        ensures text { written self.new ≡ written self.old ++ symbol_text symbol }
        ensures longer { LongerBy 3 self.old self.new }
    {
        match symbol {
            Some(s) => self.push_number(s),
            None => self.push(b'-'),
        }
    }

    #[tactic(auto, using(crate::proofs::Numerals::numerals_decimal))]
    fn push_mark(&mut self, mark: u8, infinity: u8)
        requires { RoomFor 3 self.old }
        ensures text { written self.new ≡ written self.old ++ mark_text (mark_of infinity mark) }
        ensures longer { LongerBy 3 self.old self.new }
    {
        if mark == infinity {
            self.push_bytes(b"inf");
        } else {
            self.push_number(mark);
        }
    }

    // The marks whose bit is set, with commas between.
    #[tactic(auto, using(crate::proofs::Listed::from_more))]
    fn push_marks(&mut self, marks: &[u8], infinity: u8, bits: u32)
        requires { RoomFor 128 self.old }
        ensures text { written self.new ≡ written self.old ++ marks_text (meant_marks marks.now infinity bits) }
        ensures longer { LongerBy 128 self.old self.new }
    {
        let mut chosen = ArrayVec::new();
        choose(&mut chosen, marks, bits);
        let Some((first, others)) = chosen.split_first() else {
            self.push(b'-');
            return;
        };
        self.push_mark(*first, infinity);
        for mark in others {
            self.push(b',');
            self.push_mark(*mark, infinity);
        }
    }

    // Into the text where it stands: a text is long, and one that is handed on is copied.
    #[tactic(auto, using(crate::proofs::Pieces::accepted_pieces, crate::proofs::Pieces::refused_pieces, crate::proofs::Numerals::numerals_decimal))]
    pub(crate) fn push_report(&mut self, report: &Report)
        requires { RoomFor room self.old }
        ensures text { written self.new ≡ written self.old ++ report_text (meant report.now) }
        ensures longer { LongerBy room self.old self.new }
    {
        match *report {
            Report::Accepted {
                line,
                symbol,
                marks,
                infinity,
                wrong,
                missing,
            } => {
                self.push_number(line);
                self.push_bytes(b" ok ");
                self.push_symbol(symbol);
                self.push(b' ');
                self.push_marks(marks, infinity, wrong);
                self.push(b' ');
                self.push_marks(marks, infinity, missing);
                self.push(b'\n');
            }
            Report::Refused { line, number } => {
                self.push_number(line);
                self.push(b' ');
                self.push_number(number);
                self.push_bytes(b" - - -\n");
            }
        }
    }
}
