// A pass over the blocks that wait on the shelf.
ghost use Rattle.std.specs.Prelude.{◌≡◌, ◌+◌, ◌≤◌, ◌<◌, length};
ghost use Rattle.sha256.specs.Sha256.{sha256};
ghost use Rattle.answer.specs.Buffer.{put_answers};
ghost use Rattle.answer.specs.Refusals.{answer_of};
ghost use Rattle.shelf.specs.Layout.{max_waiting, waiting_in};
ghost use Rattle.shelf.specs.Steps.{Becomes};
ghost use Rattle.campaigns.specs.Passes.{waits_on, outcome, outcomes_of, admits, pass};
ghost use Rattle.campaigns.specs.Steps.{turned};

use crate::Pass;
use answer::{Answer, Refusal};
use shelf::Shelf;

// Whether a block that was tried waits on: a reference of it is not held.
pub fn waits_on(tried: Result<usize, Refusal>) -> bool
    ensures { result ≡ waits_on (answer_of tried) }
{
    matches!(tried, Err(Refusal::NotHeld(_)))
}

// The outcome of a try: the place of a block that was let in, or the refusal's number, with value 0, of a block that was dropped.
fn outcome_of(tried: Result<usize, Refusal>) -> Answer
    ensures { result ≡ outcome (answer_of tried) }
{
    match tried {
        Ok(place) => Answer {
            refusal: 0,
            value: place,
        },
        Err(refusal) => Answer {
            refusal: refusal.number(),
            value: 0,
        },
    }
}

// Tries the block of the entry at which the pass stands, if it waits for the campaign. A block that is let in or dropped is taken off the shelf.
fn turn(
    table: &mut [u8],
    shelf: &mut Shelf<'_>,
    campaign: u8,
    outcomes: &mut [u64],
    p: Pass,
) -> Pass
    requires { (p.at < length (waiting_in shelf.old.bytes.now)) × (p.ended + length (waiting_in shelf.old.bytes.now) ≤ max_waiting) }
    ensures value { result ≡ (turned sha256 table.old (waiting_in shelf.old.bytes.now) outcomes.old campaign p).next }
    ensures table_after { table.new ≡ (turned sha256 table.old (waiting_in shelf.old.bytes.now) outcomes.old campaign p).table }
    ensures shelf_after { Becomes shelf.old.bytes shelf.new.bytes (turned sha256 table.old (waiting_in shelf.old.bytes.now) outcomes.old campaign p).waiting }
    ensures outcomes_after { outcomes.new ≡ (turned sha256 table.old (waiting_in shelf.old.bytes.now) outcomes.old campaign p).outcomes }
{
    let next = Pass { at: p.at + 1, ..p };
    if shelf.campaign_at(p.at) != campaign {
        return next;
    }
    let tried = admission::admit(table, shelf.block_at(p.at), 1);
    if waits_on(tried) {
        return next;
    }
    shelf.take_out(p.at);
    answer::put_answer(outcomes, p.ended, outcome_of(tried));
    Pass {
        admitted: p.admitted || tried.is_ok(),
        ended: p.ended + 1,
        ..p
    }
}

// Tries every waiting block of the campaign once, in the order they came. `ended` blocks have been let in or dropped before.
pub fn pass_over(
    table: &mut [u8],
    shelf: &mut Shelf<'_>,
    campaign: u8,
    outcomes: &mut [u64],
    ended: usize,
) -> Pass
    requires { ended + length (waiting_in shelf.old.bytes.now) ≤ max_waiting }
    ensures admitted_value { result.admitted ≡ admits (pass sha256 table.old campaign (waiting_in shelf.old.bytes.now)).tries }
    ensures ended_value { result.ended ≡ ended + length (outcomes_of (pass sha256 table.old campaign (waiting_in shelf.old.bytes.now)).tries) }
    ensures table_after { table.new ≡ (pass sha256 table.old campaign (waiting_in shelf.old.bytes.now)).table }
    ensures shelf_after { Becomes shelf.old.bytes shelf.new.bytes (pass sha256 table.old campaign (waiting_in shelf.old.bytes.now)).waiting }
    ensures outcomes_after { outcomes.new ≡ put_answers outcomes.old ended (outcomes_of (pass sha256 table.old campaign (waiting_in shelf.old.bytes.now)).tries) }
{
    let mut p = Pass {
        at: 0,
        admitted: false,
        ended,
    };
    // An entry that is taken out leaves the next one in its place, so the turns are no count over a range.
    while p.at < shelf.count() {
        p = turn(table, shelf, campaign, outcomes, p);
    }
    p
}
