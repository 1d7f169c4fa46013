// What a line is made of. In a file of its own, since the definitions of the calls speak of it.

/// A piece of a line.
#[derive(Clone, Copy)]
pub enum Piece<'a> {
    /// A text as it stands.
    Text(&'a str),
    /// An octet as two hexadecimal digits, capitals.
    Hex(u8),
    /// A number, decimal.
    Decimal(u64),
}
