// What a call answers: its value, or why it is refused; the numbers that the documents and programs in C have for that; and answers in a lent
// buffer, two numbers for each. Promises: where the checks of a call have different numbers, the answer has a check's number exactly if all checks
// before that one hold and that one does not, and then the answer has that check's value (specs/Promises.antt). Assumes nothing.

#![tactic(auto)]

ghost use Rattle.std.specs.Prelude.{◌≡◌};
ghost use Rattle.answer.specs.Buffer.{put_answer};
ghost use Rattle.answer.specs.Checks.{refused};
ghost use Rattle.answer.specs.Refusals.{refusal_number, refusal_value, answer_of, done_of};

// Why a call is refused, with the number that the documents give it, and the value that goes with the number where there is one.
#[derive(Clone, Copy, Debug, PartialEq, Eq)]
pub enum Refusal {
    // 1: the setup is not lawful
    UnlawfulSetup,
    // 2: the table or the shelf is not in form
    OutOfForm,
    // 3: a block or a request list is too short, too long, or not as long as its counts tell
    Misshapen,
    // 4: the site is not below n
    UnknownSite,
    // 5: the link's verdict is not 1
    Unverified,
    // 6: this request has a slot above 7 or number 0
    BadRequest(usize),
    // 7: this reference equals an earlier one
    RepeatedReference(usize),
    // 8: this place holds the digest
    Held(usize),
    // 9: this reference is to a block that is not held
    NotHeld(usize),
    // 10: the parent rule is broken
    ParentRule,
    // 11: 64 blocks are held
    TableFull,
    // 12: a record buffer is not of 20,480 numbers
    RecordsSize,
    // 13: the place, or the index, is not below the count
    UnknownPlace,
    // 14: the place is interpreted
    Interpreted,
    // 15: the block at this place is referred to and not interpreted
    Uninterpreted(usize),
    // 16: two held blocks of the site share a sequence number
    Forked,
    // 17: the output is shorter than this length, which is needed
    NoRoom(usize),
    // 18: this request names the slot of an earlier one
    RepeatedSlot(usize),
    // 19: the campaign gets no further place on the shelf
    ShelfFull,
    // 20: the block waits on the shelf
    Waiting,
    // 21: the campaign is above 3
    UnknownCampaign,
    // 23: the setups of two tables differ
    OtherSetup,
    // 24: the block at this place has the digest of another block
    Clash(usize),
    // 25: two tables together hold more than 64 blocks
    TooManyBlocks,
    // 29: place 0 may not be retired
    NotRetirable,
    // 30: the site has used the sequence number 65,535
    SequenceSpent,
    // 31: a table has retired something
    HasRetired,
    // 32: the table is empty
    NothingHeld,
    // 33: the last place is interpreted
    LastInterpreted,
}

impl Refusal {
    // The documents' number.
    pub fn number(self) -> u8
        ensures { result ≡ refusal_number self }
    {
        match self {
            Refusal::UnlawfulSetup => 1,
            Refusal::OutOfForm => 2,
            Refusal::Misshapen => 3,
            Refusal::UnknownSite => 4,
            Refusal::Unverified => 5,
            Refusal::BadRequest(_) => 6,
            Refusal::RepeatedReference(_) => 7,
            Refusal::Held(_) => 8,
            Refusal::NotHeld(_) => 9,
            Refusal::ParentRule => 10,
            Refusal::TableFull => 11,
            Refusal::RecordsSize => 12,
            Refusal::UnknownPlace => 13,
            Refusal::Interpreted => 14,
            Refusal::Uninterpreted(_) => 15,
            Refusal::Forked => 16,
            Refusal::NoRoom(_) => 17,
            Refusal::RepeatedSlot(_) => 18,
            Refusal::ShelfFull => 19,
            Refusal::Waiting => 20,
            Refusal::UnknownCampaign => 21,
            Refusal::OtherSetup => 23,
            Refusal::Clash(_) => 24,
            Refusal::TooManyBlocks => 25,
            Refusal::NotRetirable => 29,
            Refusal::SequenceSpent => 30,
            Refusal::HasRetired => 31,
            Refusal::NothingHeld => 32,
            Refusal::LastInterpreted => 33,
        }
    }

    // The value beside the number, 0 where the documents name none.
    pub fn value(self) -> usize
        ensures { result ≡ refusal_value self }
    {
        match self {
            Refusal::BadRequest(value)
            | Refusal::RepeatedReference(value)
            | Refusal::Held(value)
            | Refusal::NotHeld(value)
            | Refusal::Uninterpreted(value)
            | Refusal::NoRoom(value)
            | Refusal::RepeatedSlot(value)
            | Refusal::Clash(value) => value,
            _ => 0,
        }
    }
}

// An answer as programs in C get it: a refusal's number, 0 for none, and the value that goes with it.
#[repr(C)]
#[derive(Clone, Copy, Debug, PartialEq, Eq)]
pub struct Answer {
    pub refusal: u8,
    pub value: usize,
}

impl From<Refusal> for Answer {
    ghost from_gives = { λ refusal answer. answer ≡ refused (refusal_number refusal) (refusal_value refusal) };

    // Every call from C can end here, so it stands once in the device's memory, and not in each of them.
    #[inline(never)]
    fn from(refusal: Refusal) -> Answer {
        Answer {
            refusal: refusal.number(),
            value: refusal.value(),
        }
    }
}

impl From<Result<usize, Refusal>> for Answer {
    ghost from_gives = { λ outcome answer. answer ≡ answer_of outcome };

    fn from(outcome: Result<usize, Refusal>) -> Answer {
        match outcome {
            Ok(value) => Answer { refusal: 0, value },
            Err(refusal) => Answer::from(refusal),
        }
    }
}

impl From<Result<(), Refusal>> for Answer {
    ghost from_gives = { λ outcome answer. answer ≡ done_of outcome };

    fn from(outcome: Result<(), Refusal>) -> Answer {
        Answer::from(outcome.map(|()| 0))
    }
}

// Puts refusal and value of answer i at the indexes 2 * i and 2 * i + 1 of the buffer, which stays as it was where they do not fit.
pub fn put_answer(answers: &mut [u64], i: usize, answer: Answer)
    ensures { answers.new ≡ put_answer answers.old i answer }
{
    if i < answers.len() / 2 {
        base::put(
            answers,
            2 * i,
            &[u64::from(answer.refusal), answer.value as u64],
        );
    }
}
