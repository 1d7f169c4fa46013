// A cell, kept and passed on whole.
ghost use Rattle.std.specs.Prelude.{◌≡◌, length};
ghost use Rattle.cell.specs.Cells.{header_of, payload_of, with_header, turned};

/// 48 octets: the header octet, then a payload of 47.
#[derive(Clone, Copy)]
pub struct Cell {
    pub octets: [u8; 48],
}

impl Cell {
    /// The header octet.
    pub fn header(&self) -> u8
        ensures { result ≡ header_of self.now }
    {
        self.octets[0]
    }

    /// The 47 octets after the header.
    pub fn payload(&self) -> &[u8]
        ensures value { result.now ≡ payload_of self.now }
        ensures len { length result.now ≡ 47 }
    {
        &self.octets[1..]
    }

    /// The cell with another header octet and the same payload.
    pub fn with_header(self, header: u8) -> Cell
        ensures { result ≡ with_header header self }
    {
        let mut octets = self.octets;
        octets[0] = header;
        Cell { octets }
    }

    /// The cell with those header bits turned that are set in the mask.
    pub fn turn(self, mask: u8) -> Cell
        ensures { result ≡ turned mask self }
    {
        self.with_header(self.header() ^ mask)
    }
}
