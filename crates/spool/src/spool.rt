// The spool, and opening one.
ghost use Rattle.std.specs.Prelude.{◌≡◌};
ghost use Rattle.spool.specs.Surveys.{Fit, nothing};

use crate::survey::Survey;
use cell::Fault;

// Kept: no state for a spool that is not open, since one that counts no records is the same to every call.
/// Records in bytes of the caller: those taken, then those that wait, then those unused. None are counted before it is open.
#[derive(Drop)]
pub struct Spool<'a> {
    pub(crate) bytes: &'a mut [u8],
    pub(crate) survey: Survey,
    ghost fit: { Fit bytes.now survey },
}

impl<'a> Spool<'a> {
    ghost use Rattle.spool.specs.Spools.{bytes_of, loan_of, Opened, Reopened};
    ghost use Rattle.spool.specs.Surveys.{Surveyed};

    /// A spool over these bytes that is not open yet: no cell waits, and there is no room. The bytes stay as they are.
    pub fn new(bytes: &'a mut [u8]) -> Spool<'a>
        ensures over { bytes_of result ≡ bytes.old }
        ensures closed { result.survey ≡ nothing }
        ensures loan { loan_of result ≡ bytes.entry.ghost_name }
    {
        Spool {
            bytes,
            survey: Survey::default(),
        }
    }

    /// Opens the spool, with the records that its bytes hold. Refused if no spool has this length; then, at the first record
    /// that has another mark or stands out of order.
    pub fn open(&mut self) -> Result<(), Fault>
        ensures answer { Opened self.old result self.new }
        ensures reopens { Reopened self.old result self.new }
    {
        self.survey = self.surveyed()?;
        Ok(())
    }

    // The records that the bytes hold.
    // Kept: a call of its own. In `open`, of bytes lent as `&` out of a `&mut self` the proof knows no element afterwards.
    fn surveyed(&self) -> Result<Survey, Fault>
        ensures { Surveyed (bytes_of self.now) result }
    {
        Survey::of(self.bytes)
    }
}
