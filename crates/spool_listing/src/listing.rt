// The listing of a spool, and its lines.
ghost use Rattle.std.specs.Prelude.{◌≡◌, ◌/◌, ◌++◌, length, MatchOption};
ghost use Rattle.spool.specs.Records.{mark_name, Within};
ghost use Rattle.spool.specs.Surveys.{mark_in, records_of};
ghost use Rattle.text.specs.Lines.{text_of, kept, text_of_piece};
ghost use Rattle.spool_listing.specs.Listings.{listed_bytes, IsListed, Listed, line_at};
ghost use Rattle.spool_listing.specs.Text.{header_word, summary_line, refusal_line};

use cell::{Cell, Fault};
use spool::{Mark, Record, Survey};
use text::{Line, Piece};

/// The bytes of a spool and the records that were found in them.
#[derive(Clone, Copy)]
pub struct Listing<'a> {
    bytes: &'a [u8],
    survey: Survey,
}

// Kept: `as u64`, since no `From` goes from `usize` to another number.
// Kept: no `Display` for the lines, since a `fmt` may fail, and a line of the listing cannot.
impl<'a> Listing<'a> {
    /// The listing of a spool with these bytes. Refused as the opening of the spool would be.
    pub fn new(bytes: &'a [u8]) -> Result<Listing<'a>, Fault>
        ensures { Listed bytes.now result }
    {
        let survey = Survey::of(bytes)?;
        Ok(Listing { bytes, survey })
    }

    /// The line of the record of this number, from 0, with its line feed. None past the last record.
    pub fn line(&self, number: usize) -> Option<Line>
        ensures { MatchOption result (Within (length (listed_bytes self.now)) number → ⊥) (λ line. Within (length (listed_bytes self.now)) number × (text_of line ≡ line_at self.now number)) }
    {
        let found = Record::at(self.bytes, number)?;
        let mark = self.mark(number);
        Some(Line::of(&[
            Piece::Decimal(number as u64),
            Piece::Text(" "),
            mark_piece(mark),
            Piece::Text(" "),
            header_piece(mark, found.cell),
            Piece::Text("\n"),
        ]))
    }

    /// The last line: how many records there are, and how many of each kind.
    pub fn summary(&self) -> Line
        ensures text { text_of result ≡ kept (summary_line (length (listed_bytes self.now) / 50) self.now.survey) }
        ensures whole { IsListed self.now → text_of result ≡ summary_line (records_of self.now.survey) self.now.survey }
    {
        let Survey {
            taken,
            waiting,
            unused,
        } = self.survey;
        Line::of(&[
            Piece::Text("records "),
            Piece::Decimal((self.bytes.len() / Record::LEN) as u64),
            Piece::Text(" taken "),
            Piece::Decimal(taken as u64),
            Piece::Text(" waiting "),
            Piece::Decimal(waiting as u64),
            Piece::Text(" unused "),
            Piece::Decimal(unused as u64),
            Piece::Text("\n"),
        ])
    }

    // The mark of the record of this number.
    fn mark(&self, number: usize) -> Mark
        ensures { result ≡ mark_in self.now.survey number }
    {
        if number < self.survey.taken {
            Mark::Taken
        } else if number - self.survey.taken < self.survey.waiting {
            Mark::Waiting
        } else {
            Mark::Unused
        }
    }
}

// The word of a mark.
fn mark_piece(mark: Mark) -> Piece<'static>
    ensures { text_of_piece result ≡ mark_name mark }
{
    Piece::Text(mark.name())
}

// The header octet of a record's cell, if it has one.
fn header_piece(mark: Mark, cell: Cell) -> Piece<'static>
    ensures { text_of_piece result ≡ header_word mark cell }
{
    match mark {
        Mark::Taken | Mark::Waiting => Piece::Hex(cell.header()),
        Mark::Unused => Piece::Text("--"),
    }
}

// Kept: no `Display`, as for the other lines.
/// The one line that is written in place of a listing: the refusal's number and its place.
pub fn refusal_line(fault: &Fault) -> Line
    ensures { text_of result ≡ refusal_line fault.now }
{
    Line::of(&[
        Piece::Text("refused "),
        Piece::Decimal(u64::from(fault.number())),
        Piece::Text(" "),
        Piece::Decimal(fault.place as u64),
        Piece::Text("\n"),
    ])
}
