// A call of an encoded list: reading the first, and running it.
ghost use Rattle.std.specs.Prelude.{◌≡◌, ◌≢◌, ◌≤◌, ◌<◌, MatchOption, length, drop};
ghost use Rattle.base.specs.LowFirst.{word_size, low_first_at};
ghost use Rattle.sha256.specs.Sha256.{sha256};
ghost use Rattle.run.specs.Run.{site_answer, site_step};
ghost use Rattle.run.specs.Encoding.{first_size, first_call};
ghost use Rattle.run.specs.Steps.{call_of};

use answer::Answer;

// The first byte of each kind of call.
const ADMISSION: u8 = 0;

const INTERPRETATION: u8 = 1;

const RETIRING: u8 = 2;

const TAKING_BACK: u8 = 3;

// A call: the block and the verdict of an admission, the place of an interpretation, a retiring, or a taking back.
#[derive(Clone, Copy, Debug, PartialEq, Eq)]
pub enum EncodedCall<'a> {
    Admission(&'a [u8], u8),
    Interpretation(usize),
    Retiring,
    TakingBack,
}

// The number of the first eight bytes, and the bytes behind them.
fn split_word(bytes: &[u8]) -> Option<(usize, &[u8])>
    ensures { MatchOption result (length bytes.now < word_size) (λ p. (word_size ≤ length bytes.now) × (p.0 ≡ low_first_at bytes.now 0) × (p.1.now ≡ drop word_size bytes.now)) }
{
    let (word, rest) = bytes.split_first_chunk()?;
    Some((u64::from_le_bytes(*word) as usize, rest))
}

// The call at the front of a list, and the bytes behind it; none where no whole call stands there.
pub fn split_first(calls: &[u8]) -> Option<(EncodedCall<'_>, &[u8])>
    ensures { MatchOption result (first_size calls.now ≡ 0) (λ p. (first_size calls.now ≢ 0) × (call_of p.0 ≡ first_call calls.now) × (p.1.now ≡ drop (first_size calls.now) calls.now)) }
{
    let (kind, rest) = calls.split_first()?;
    match *kind {
        ADMISSION => {
            let (verdict, rest) = rest.split_first()?;
            let (length, rest) = split_word(rest)?;
            let (block, rest) = rest.split_at_checked(length)?;
            Some((EncodedCall::Admission(block, *verdict), rest))
        }
        INTERPRETATION => {
            let (place, rest) = split_word(rest)?;
            Some((EncodedCall::Interpretation(place), rest))
        }
        RETIRING => Some((EncodedCall::Retiring, rest)),
        TAKING_BACK => Some((EncodedCall::TakingBack, rest)),
        _ => None,
    }
}

impl<'a> EncodedCall<'a> {
    // Runs the call on the table and the records.
    pub fn run(&self, table: &mut [u8], records: &mut [u16]) -> Answer
        ensures value { result ≡ site_answer sha256 (record { table = table.old; records = records.old }) (call_of self.now) }
        ensures table_after { table.new ≡ (site_step sha256 (record { table = table.old; records = records.old }) (call_of self.now)).table }
        ensures records_after { records.new ≡ (site_step sha256 (record { table = table.old; records = records.old }) (call_of self.now)).records }
    {
        match *self {
            EncodedCall::Admission(block, verdict) => {
                Answer::from(admission::admit(table, block, verdict))
            }
            EncodedCall::Interpretation(place) => {
                Answer::from(interpret::interpret(table, place, records))
            }
            EncodedCall::Retiring => Answer::from(retire::retire(table, records)),
            EncodedCall::TakingBack => Answer::from(take_back::take_back(table)),
        }
    }
}
