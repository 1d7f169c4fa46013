// The CRC, the bit that a syndrome names, and sealing.
ghost use Rattle.std.specs.Prelude.{◌≡◌, ◌<◌, ◌%◌, IfOk, count_ones};
ghost use Rattle.header.specs.Code.{crc_of, syndrome_of, named_by, sealed, sealing};
ghost use Rattle.header.specs.Laws.{Formed, Protected};

use cell::{Fault, Part, Refusal};

// The CRC of every four leading bits.
const CRC: [u8; 16] = [0, 3, 6, 5, 7, 4, 1, 2, 5, 6, 3, 0, 2, 1, 4, 7];

// The bit that every syndrome names.
const NAMED: [u8; 8] = [1, 2, 4, 16, 8, 128, 32, 64];

// The CRC of the four leading bits of a header.
#[tactic(auto, using(crate::proofs::Tables::crc_at, crate::proofs::Tables::crc_small))]
fn crc(bits: u8) -> u8
    requires { bits < 16 }
    ensures value { result ≡ crc_of bits }
    ensures bound { result < 8 }
{
    CRC[usize::from(bits)]
}

/// The syndrome of a header octet.
#[tactic(auto, using(crate::proofs::Tables::xor_small), unfolding(crate::specs::Code::syndrome_of))]
pub(crate) fn syndrome(octet: u8) -> u8
    ensures value { result ≡ syndrome_of octet }
    ensures bound { result < 8 }
{
    crc(octet / 16) ^ (octet / 2 % 8)
}

/// The bit that the syndrome of a header octet names, as a mask.
#[tactic(auto, using(crate::proofs::Tables::named_at))]
pub(crate) fn named_bit(octet: u8) -> u8
    ensures { result ≡ named_by (syndrome_of octet) }
{
    NAMED[usize::from(syndrome(octet))]
}

/// The parity bit that makes the number of ones of an octet even: 1 exactly if that number is odd.
pub(crate) fn parity(octet: u8) -> u8
    ensures value { result ≡ count_ones octet % 2 }
    ensures bound { result < 2 }
{
    // Kept: `as`, since no `From` makes a number narrower.
    (octet.count_ones() % 2) as u8
}

/// The header octet of a CSI and a sequence count.
// Kept: two numbers and no type for each, since this call is what refuses those that are too large.
pub fn seal(csi: u8, count: u8) -> Result<u8, Fault>
    ensures value { result ≡ sealing csi count }
    ensures formed { IfOk result (λ header. Formed csi count header) }
    ensures protected { IfOk result (λ header. Protected csi count header) }
{
    if csi > 1 || count > 7 {
        return Err(Fault::new(Refusal::HeaderField, Part::HeaderCode));
    }
    Ok(header_of(csi, count))
}

// The fields, the CRC over them, and the parity bit that makes the number of ones even.
#[tactic(auto, unfolding(crate::specs::Code::body, crate::specs::Code::sealed))]
fn header_of(csi: u8, count: u8) -> u8
    requires csi { csi < 2 }
    requires count { count < 8 }
    ensures { result ≡ sealed csi count }
{
    let bits = csi * 8 + count;
    let body = bits * 16 + crc(bits) * 2;
    body + parity(body)
}
