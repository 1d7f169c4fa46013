// How many records a spool has, of each kind.
ghost use Rattle.std.specs.Prelude.{◌≡◌, ◌<◌};
ghost use Rattle.spool.specs.Surveys.{records_of, counted, Surveyed, OnlyAnswer};

use crate::record::{Mark, Record};
use cell::{Fault, Part, Refusal};

/// How many records are taken, how many wait and how many are unused, in the order in which they stand.
#[derive(Clone, Copy, PartialEq, Eq, Debug, Default)]
pub struct Survey {
    pub taken: usize,
    pub waiting: usize,
    pub unused: usize,
}

impl Survey {
    /// The records of a spool with these bytes. Refused if no spool has this length; then, at the first record that has
    /// another mark or stands out of order.
    pub fn of(bytes: &[u8]) -> Result<Survey, Fault>
        ensures answer { Surveyed bytes.now result }
        ensures only { OnlyAnswer bytes.now result }
    {
        let len = bytes.len();
        if len == 0 || len % Record::LEN != 0 || len > 65_500 {
            return Err(Fault::new(Refusal::SpoolLength, Part::Spool));
        }
        let mut survey = Survey::default();
        let (records, _) = bytes.as_chunks::<{ Record::LEN }>();
        for (number, record) in records.iter().enumerate() {
            let mark = Record::apart(record).mark;
            survey = survey.with(mark).ok_or(Fault {
                refusal: Refusal::SpoolRecord,
                part: Part::Spool,
                place: number,
            })?;
        }
        Ok(survey)
    }

    // One record more, behind those that were counted. None if it has another mark or may not stand behind them.
    // A spool has at most 1,310 records, so the counts stay far from where they would not fit.
    fn with(self, mark: Option<Mark>) -> Option<Survey>
        requires { records_of self < 2000 }
        ensures { result ≡ counted self mark }
    {
        match mark? {
            Mark::Taken if self.waiting == 0 && self.unused == 0 => Some(Survey {
                taken: self.taken + 1,
                ..self
            }),
            Mark::Waiting if self.unused == 0 => Some(Survey {
                waiting: self.waiting + 1,
                ..self
            }),
            Mark::Unused => Some(Survey {
                unused: self.unused + 1,
                ..self
            }),
            _ => None,
        }
    }
}
