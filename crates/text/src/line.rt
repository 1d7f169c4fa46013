// A line, and making one piece by piece.
ghost use Rattle.std.specs.Prelude.{◌≡◌, ◌<◌, ◌≤◌, [], ◌∷◌, length, decimal, All};

use crate::piece::Piece;
use itoa::Buffer;

/// A line of at most 96 octets. What does not fit is left off.
// Kept, an array with a length beside it: a line stands in fixed memory, can be copied, and is cut at an octet. An `ArrayVec`
// cannot be copied, and an `ArrayString` is cut at a character.
// Kept: no Model. A type that can be copied has to give its fields back from its model, and what stands past the length is in none.
#[derive(Clone, Copy)]
pub struct Line {
    octets: [u8; 96],
    len: usize,
    ghost fits: { len ≤ 96 },
}

impl Line {
    ghost use Rattle.text.specs.Lines.{text_of, kept, Appends, hex_digit, hex_of, text_of_piece, text_of_pieces, FewDigits};

    /// An empty line.
    // Kept: no `Default`, which would be one more call that says the same.
    pub fn new() -> Line
        ensures { text_of result ≡ [] }
    {
        Line {
            octets: [0; 96],
            len: 0,
        }
    }

    /// The line that these pieces make.
    // Inline: where it is a call, the line that it makes is copied once more.
    #[inline(always)]
    pub fn of(pieces: &[Piece<'_>]) -> Line
        ensures text { text_of result ≡ kept (text_of_pieces pieces.now) }
        ensures digits { All FewDigits pieces.now }
    {
        let mut line = Line::new();
        for piece in pieces {
            line.push(piece);
        }
        line
    }

    /// The octets of the line.
    pub fn text(&self) -> &[u8]
        ensures { result.now ≡ text_of self.now }
    {
        &self.octets[0..self.len]
    }

    /// A piece more.
    pub fn push(&mut self, piece: &Piece<'_>)
        ensures text { Appends self.old (text_of_piece piece.now) self.new }
        ensures digits { FewDigits piece.now }
    {
        match *piece {
            Piece::Text(text) => self.push_str(text),
            Piece::Hex(octet) => self.push_hex(octet),
            Piece::Decimal(n) => self.push_decimal(n),
        }
    }

    /// A text more.
    pub fn push_str(&mut self, text: &str)
        ensures { Appends self.old text.now self.new }
    {
        self.push_all(text.as_bytes());
    }

    /// An octet more as two hexadecimal digits, capitals.
    pub fn push_hex(&mut self, octet: u8)
        ensures { Appends self.old (hex_of octet) self.new }
    {
        self.push_all(&[Line::hex_digit(octet / 16), Line::hex_digit(octet % 16)]);
    }

    /// A number more, decimal.
    // Kept: a number of one digit by hand. The library's call is slow for one, and each line of a recording has two.
    #[tactic(auto, using(std::proofs::lemmas::Fmt::decimal_digit))]
    pub fn push_decimal(&mut self, n: u64)
        ensures text { Appends self.old (decimal n) self.new }
        ensures digits { length (decimal n) ≤ 20 }
    {
        if n < 10 {
            self.push_all(&[b'0' + n as u8]);
        } else {
            self.push_str(Buffer::new().format(n));
        }
    }

    // Some octets more.
    // Kept: octet by octet. With `copy_from_slice` the listing of a recording took half as long again.
    fn push_all(&mut self, octets: &[u8])
        ensures { Appends self.old octets.now self.new }
    {
        // The length in a variable: the field would go through memory at each octet.
        let mut len = self.len;
        for octet in octets {
            if len < 96 {
                self.octets[len] = *octet;
                len += 1;
            }
        }
        self.len = len;
    }

    // A digit: `0` to `9`, then `A` to `F`.
    // Kept: no `{:X}`, since a `fmt` may fail, and a push cannot.
    fn hex_digit(n: u8) -> u8
        requires { n < 16 }
        ensures { result ≡ hex_digit n }
    {
        if n < 10 { b'0' + n } else { b'A' + (n - 10) }
    }
}
