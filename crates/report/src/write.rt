ghost use Rattle.std.specs.Prelude.{◌≡◌, ◌≤◌, length};
ghost use Rattle.report.specs.Room.{room};
ghost use Rattle.report.specs.Reports.{report_text, header_text, NumeralsDecimal, ShortFits};
ghost use Rattle.report.specs.Reading.{ReadsBack, ReadsOnlyReports, ToldApart};
ghost use Rattle.report.specs.Meant.{meant};
ghost use Rattle.report.specs.Written.{placed, count_placed};

use crate::buffer::Text;
use crate::kinds::Report;

// Copies the text to the start of the place, where it fits, and tells how long it is.
fn put_front(text: &[u8], place: &mut [u8]) -> Option<usize>
    ensures count { result ≡ count_placed text.now place.old }
    ensures placed { place.new ≡ placed text.now place.old }
{
    if place.len() < text.len() {
        return None;
    }
    place[0..text.len()].copy_from_slice(text);
    Some(text.len())
}

// Writes the header to the start of the place, where it fits, and tells how long it is.
pub fn write_header(place: &mut [u8]) -> Option<usize>
    ensures count { result ≡ count_placed header_text place.old }
    ensures placed { place.new ≡ placed header_text place.old }
{
    put_front(b"line result symbol wrong missing\n", place)
}

// Writes the report to the start of the place, where it fits, and tells how long it is.
// A report can be read back from its text, so no two have the same; one with few and small marks fits 128 bytes, and none has more than the room of a text.
#[tactic(auto, using(crate::proofs::ReadBack::reads_back, crate::proofs::ReadBack::reads_only_reports, crate::proofs::ReadBack::told_apart, crate::proofs::Numerals::numerals_decimal, crate::proofs::Lengths::short_fits))]
pub fn write_report(report: &Report, place: &mut [u8]) -> Option<usize>
    ensures count { result ≡ count_placed (report_text (meant report.now)) place.old }
    ensures placed { place.new ≡ placed (report_text (meant report.now)) place.old }
    ensures most { length (report_text (meant report.now)) ≤ room }
    ensures reads_back { ReadsBack }
    ensures reads_only { ReadsOnlyReports }
    ensures apart { ToldApart }
    ensures numerals { NumeralsDecimal }
    ensures short { ShortFits }
{
    let mut text = Text::new();
    text.push_report(report);
    put_front(text.as_slice(), place)
}
