// Building a site's next block from its table. Promises: `build` answers and leaves what specs/Building.antt says, for any table, site, request list
// and output; the block reads back to its content, the table that it was built from admits it unless that is full or holds the same digest, and each
// of 2, 4, 3, 6, 18, 16, 30 and 17 comes under its cause and under no other (specs/Promises.antt). Assumes nothing; the table is read only.

#![tactic(auto)]

mod next;
mod picking;
mod references;

ghost use Rattle.std.specs.Prelude.{◌≡◌};
ghost use Rattle.answer.specs.Refusals.{answer_of};
ghost use Rattle.base.specs.Mask.{in_mask};
ghost use Rattle.build.specs.Building.{well_listed, building_from, built_from, building, built};
ghost use Rattle.build.specs.Steps.{Buildable, RequestList, next_answer, next_output};

use answer::Refusal;
use block::HEADER_SIZE;
use picking::NextBlock;
use watch::sites::SiteBlocks;

// The greatest sequence number that two bytes hold.
const MAX_SEQUENCE: u32 = 65535;

// Check 3 of a request list: whether it is no longer than a list can be, and a multiple of 3.
fn well_listed(requests: &[u8]) -> bool
    ensures { result ≡ well_listed requests.now }
{
    requests.len() <= block::MAX_REQUEST_LIST_SIZE && requests.len() % block::REQUEST_SIZE == 0
}

// Writes the site's next block to the front of the output and answers with its length. Only the places in the mask `seen` are looked at. Refuses in
// the order of the documents; a refusal changes nothing.
pub fn build_from(
    table: &[u8],
    seen: u64,
    site: u8,
    requests: &[u8],
    output: &mut [u8],
) -> Result<usize, Refusal>
    ensures value { answer_of result ≡ building_from (in_mask seen) table.now site requests.now output.old }
    ensures output_after { output.new ≡ built_from (in_mask seen) table.now site requests.now output.old }
{
    let Some(table) = table::formed(table) else {
        return Err(Refusal::OutOfForm);
    };
    if table::rows::sites_of(table) <= site {
        return Err(Refusal::UnknownSite);
    }
    if !well_listed(requests) {
        return Err(Refusal::Misshapen);
    }
    if let Some(bad) = block::requests::first_bad(requests) {
        return Err(Refusal::BadRequest(bad));
    }
    if let Some(repeated) = block::requests::first_of_repeated_slot(requests) {
        return Err(Refusal::RepeatedSlot(repeated));
    }
    let own = SiteBlocks { table, seen, site };
    if own.forked() {
        return Err(Refusal::Forked);
    }
    write_next(own, requests, output)
}

// Makes checks 30 and 17, and writes the block if they hold.
fn write_next(own: SiteBlocks, requests: &[u8], output: &mut [u8]) -> Result<usize, Refusal>
    requires { Buildable own.table.now own.seen own.site × RequestList requests.now }
    ensures value { answer_of result ≡ next_answer (in_mask own.entry.seen) own.entry.table.now own.entry.site requests.now output.old }
    ensures output_after { output.new ≡ next_output (in_mask own.entry.seen) own.entry.table.now own.entry.site requests.now output.old }
{
    let next = next::next_sequence(own);
    if MAX_SEQUENCE < next {
        return Err(Refusal::SequenceSpent);
    }
    let sequence = next as u16;
    let picked = NextBlock { own, sequence }.references();
    let references = picked.bytes();
    let needed = HEADER_SIZE + references.len() + requests.len();
    if output.len() < needed {
        return Err(Refusal::NoRoom(needed));
    }
    block::writing::write_block(own.site, sequence, references, requests, output);
    Ok(needed)
}

// Writes the site's next block to the front of the output and answers with its length. Refuses in the order of the documents; a refusal
// changes nothing.
pub fn build(table: &[u8], site: u8, requests: &[u8], output: &mut [u8]) -> Result<usize, Refusal>
    ensures value { answer_of result ≡ building table.now site requests.now output.old }
    ensures output_after { output.new ≡ built table.now site requests.now output.old }
{
    build_from(table, watch::sites::EVERYWHERE, site, requests, output)
}
