// Arrivals for up to four campaigns, each with its own table, that share a shelf. Promises: `arrive` answers and leaves what specs/Arriving.antt
// says, for all bytes and numbers; each refusal comes under its cause and under no other, form is kept, and what waits is neither lost nor invented
// (specs/Promises.antt). Assumes nothing.

#![tactic(auto)]

mod passing;

ghost use Rattle.std.specs.Prelude.{◌≡◌, true, ◌≤◌, length};
ghost use Rattle.sha256.specs.Sha256.{sha256};
ghost use Rattle.answer.specs.Buffer.{put_answers};
ghost use Rattle.answer.specs.Refusals.{answer_of};
ghost use Rattle.block.specs.Limits.{max_block_size};
ghost use Rattle.shelf.specs.Layout.{waiting_in};
ghost use Rattle.shelf.specs.Steps.{Becomes};
ghost use Rattle.campaigns.specs.Passes.{waits_on, outcomes_of, settled};
ghost use Rattle.campaigns.specs.Arriving.{arrival_answer, listed, arrival};
ghost use Rattle.campaigns.specs.Steps.{shelving, waiting_then};

use answer::{Answer, Refusal};
use shelf::{MAX_SHARE, Shelf};

// How many numbers the buffer for the outcomes of an arrival must have.
pub const OUTCOMES_SIZE: usize = 2 * MAX_SHARE;

// An arrival that was admitted: its place, and how many blocks that waited were let in or dropped by it.
#[derive(Clone, Copy, Debug, PartialEq, Eq)]
pub struct Admitted {
    pub place: usize,
    pub ended: usize,
}

// An arrival's answer as programs in C get it, and how many blocks that waited were let in or dropped by it.
#[repr(C)]
#[derive(Clone, Copy, Debug, PartialEq, Eq)]
pub struct ArrivalAnswer {
    pub answer: Answer,
    pub ended: usize,
}

impl From<Result<Admitted, Refusal>> for ArrivalAnswer {
    ghost from_gives = { λ outcome answer. answer ≡ arrival_answer outcome };

    fn from(outcome: Result<Admitted, Refusal>) -> ArrivalAnswer {
        match outcome {
            Ok(admitted) => ArrivalAnswer {
                answer: Answer {
                    refusal: 0,
                    value: admitted.place,
                },
                ended: admitted.ended,
            },
            Err(refusal) => ArrivalAnswer {
                answer: Answer::from(refusal),
                ended: 0,
            },
        }
    }
}

// A pass over the shelf: the entry at which it stands, whether it has let a block in, and how many blocks have ended since the arrival. A block has
// ended when it was let in or dropped.
#[derive(Clone, Copy, Debug, PartialEq, Eq)]
pub struct Pass {
    pub at: usize,
    pub admitted: bool,
    pub ended: usize,
}

// What an arrival is answered that admission answered with `tried`. The block of one that got 9 is put on the shelf, or refused if its bytes wait
// already, and then if there is no place for it.
fn shelve(
    shelf: &mut Shelf<'_>,
    campaign: u8,
    block: &[u8],
    tried: Result<usize, Refusal>,
) -> Result<usize, Refusal>
    requires { waits_on (answer_of tried) ≡ true → length block.now ≤ max_block_size }
    ensures value { answer_of result ≡ shelving (answer_of tried) (waiting_in shelf.old.bytes.now) campaign block.now }
    ensures shelf_after { Becomes shelf.old.bytes shelf.new.bytes (waiting_then (answer_of tried) (waiting_in shelf.old.bytes.now) campaign block.now) }
{
    if !passing::waits_on(tried) {
        return tried;
    }
    if shelf.waits(campaign, block) {
        return Err(Refusal::Waiting);
    }
    if !shelf.has_place(campaign) {
        return Err(Refusal::ShelfFull);
    }
    shelf.put_on(campaign, block);
    // A block that waits now still gets 9.
    tried
}

// Tries the campaign's waiting blocks in passes, until a pass admits none, and answers how many blocks were let in or dropped.
fn settle(table: &mut [u8], shelf: &mut Shelf<'_>, campaign: u8, outcomes: &mut [u64]) -> usize
    ensures value { result ≡ length (outcomes_of (settled sha256 table.old campaign (waiting_in shelf.old.bytes.now)).tries) }
    ensures table_after { table.new ≡ (settled sha256 table.old campaign (waiting_in shelf.old.bytes.now)).table }
    ensures shelf_after { Becomes shelf.old.bytes shelf.new.bytes (settled sha256 table.old campaign (waiting_in shelf.old.bytes.now)).waiting }
    ensures outcomes_after { outcomes.new ≡ put_answers outcomes.old 0 (outcomes_of (settled sha256 table.old campaign (waiting_in shelf.old.bytes.now)).tries) }
{
    let mut ended = 0;
    // How many passes there are shows only in what each pass lets in.
    loop {
        let pass = passing::pass_over(table, shelf, campaign, outcomes, ended);
        ended = pass.ended;
        if !pass.admitted {
            return ended;
        }
    }
}

// A block arrives for a campaign: it is admitted to the campaign's table, or waits on the shelf for a reference that is not held, or is refused.
// After an admission the campaign's waiting blocks are tried, and for each that is let in or dropped two numbers are put into `outcomes`. A refusal
// changes nothing, but that a block that gets 9 waits.
pub fn arrive(
    table: &mut [u8],
    shelf: &mut [u8],
    campaign: u8,
    block: &[u8],
    verdict: u8,
    outcomes: &mut [u64],
) -> Result<Admitted, Refusal>
    ensures answer_value { (arrival_answer result).answer ≡ (arrival sha256 table.old shelf.old campaign block.now verdict (length outcomes.old)).answer }
    ensures ended_value { (arrival_answer result).ended ≡ length (listed (arrival sha256 table.old shelf.old campaign block.now verdict (length outcomes.old))) }
    ensures table_after { table.new ≡ (arrival sha256 table.old shelf.old campaign block.now verdict (length outcomes.old)).table }
    ensures shelf_after { shelf.new ≡ (arrival sha256 table.old shelf.old campaign block.now verdict (length outcomes.old)).shelf }
    ensures outcomes_after { outcomes.new ≡ put_answers outcomes.old 0 (listed (arrival sha256 table.old shelf.old campaign block.now verdict (length outcomes.old))) }
{
    if shelf::CAMPAIGNS <= usize::from(campaign) {
        return Err(Refusal::UnknownCampaign);
    }
    if outcomes.len() < OUTCOMES_SIZE {
        return Err(Refusal::NoRoom(OUTCOMES_SIZE));
    }
    let Some(bytes) = shelf::formed_mut(shelf) else {
        return Err(Refusal::OutOfForm);
    };
    let mut shelf = Shelf { bytes };
    let tried = admission::admit(table, block, verdict);
    let place = shelve(&mut shelf, campaign, block, tried)?;
    let ended = settle(table, &mut shelf, campaign, outcomes);
    Ok(Admitted { place, ended })
}
