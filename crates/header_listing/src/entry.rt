// What one line tells, and its text.
ghost use Rattle.std.specs.Prelude.{◌≡◌, ◌++◌, codes};
ghost use Rattle.text.specs.Lines.{text_of};
ghost use Rattle.header_listing.specs.Text.{validity_word, line_of};

use header::{Mode, Reading};
use text::{Line, Piece};

/// A header octet, what was read from it, and the mode that followed.
#[derive(Clone, Copy)]
pub(crate) struct Entry {
    pub octet: u8,
    pub reading: Reading,
    pub mode: Mode,
}

impl Entry {
    /// The line, with its line feed.
    // Kept: no `Display`, since a `fmt` may fail, and a line of the listing cannot.
    pub(crate) fn line(&self) -> Line
        ensures { text_of result ≡ line_of self.now }
    {
        Line::of(&[
            Piece::Hex(self.octet),
            Piece::Text(" "),
            Piece::Decimal(u64::from(self.reading.csi)),
            Piece::Text(" "),
            Piece::Decimal(u64::from(self.reading.count)),
            Piece::Text(validity_words(self.reading.valid)),
            Piece::Text(self.mode.name()),
            Piece::Text("\n"),
        ])
    }
}

// The word with a space on either side. It is one piece of a line so: three pieces take longer.
// Kept: no `Display`, which would want a type for two words.
fn validity_words(valid: bool) -> &'static str
    ensures { result.now ≡ codes " " ++ (validity_word valid ++ codes " ") }
{
    if valid { " valid " } else { " invalid " }
}
