// The listing of a campaign, one step at a time. The input is a setup and then arrivals; a state says what is expected next, and `wanted` how many
// bytes that takes. Promises: `step` does and writes what specs/Framing.antt says, for any state, table, record buffer and bytes; the steps' lines,
// joined, are the listing of the whole input, and `gather` makes the steps that are due on the bytes that came: no byte is lost or used twice, and
// the lines stand in their order, in however many parts the input comes (specs/Promises.antt); no interpretation is refused, and what a listing shows
// is delivered in the ledger of its calls (specs/ListingCalls.antt); and the deliveries' lines of a listing's text are what the listing shows
// (specs/Lines.antt). Assumes nothing.

#![tactic(auto)]

mod arrival;
mod framing;
mod gathering;
mod lines;

ghost use Rattle.std.specs.Prelude.{◌≡◌, ◌≤◌};
ghost use Rattle.sha256.specs.Sha256.{sha256};
ghost use Rattle.report.specs.Framing.{piece_size, wanted, start, stepped, site_stepped, handed};

use block::MAX_BLOCK_SIZE;
pub use gathering::gather;
pub use lines::Lines;
use setup::SLOTS;

// Sizes in bytes: the setup, an arrival's length and its verdict, and the longest piece.
pub const SETUP_SIZE: usize = 1 + SLOTS;

pub const LENGTH_SIZE: usize = 2;

pub const VERDICT_SIZE: usize = 1;

pub const PIECE_SIZE: usize = VERDICT_SIZE + MAX_BLOCK_SIZE;

// Room for the lines of a step: a line for each slot, and in a line for each field the digits of a number of 64 bits and the byte that ends it.
pub const FIELDS: usize = 7;

pub const MAX_DIGITS: usize = 20;

pub const LINE_SIZE: usize = FIELDS * (MAX_DIGITS + 1);

pub const LINES_SIZE: usize = SLOTS * LINE_SIZE;

// What a delivery's line shows.
#[derive(Clone, Copy, Debug, PartialEq, Eq)]
pub struct Delivery {
    pub arrival: u64,
    pub place: usize,
    pub site: u8,
    pub sequence: u16,
    pub slot: usize,
    pub number: u16,
}

// What is expected of the input next: the setup; the length of an arrival; a verdict and a block of this size; so many bytes that are skipped; or
// nothing, since the listing is at its end.
#[derive(Clone, Copy, Debug, PartialEq, Eq)]
pub enum Expected {
    Setup,
    Length,
    Block(usize),
    Skip(usize),
    End,
}

// The state between two steps: what is expected next, and how many arrivals there were.
#[derive(Clone, Copy, Debug, PartialEq, Eq)]
pub struct ListingState {
    pub expected: Expected,
    pub arrivals: u64,
}

// What a step gives: the next state, and the lines to write.
#[derive(Drop)]
pub struct Stepped {
    pub state: ListingState,
    pub lines: Lines,
}

// What the steps of one gathering came to: the next state, how many of the unread bytes were used, and how many bytes of lines stand at the front of
// the output.
#[derive(Clone, Copy, Debug, PartialEq, Eq)]
pub struct Gathered {
    pub state: ListingState,
    pub used: usize,
    pub length: usize,
}

// The state before the first byte.
pub fn start() -> ListingState
    ensures { result ≡ start }
{
    ListingState {
        expected: Expected::Setup,
        arrivals: 0,
    }
}

// How many bytes of the input the next step gets; fewer mean that the input is at its end.
pub fn wanted(state: ListingState) -> usize
    ensures { (result ≡ wanted state) × (result ≤ piece_size) }
{
    match state.expected {
        Expected::Setup => SETUP_SIZE,
        Expected::Length => LENGTH_SIZE,
        Expected::Block(size) => VERDICT_SIZE + size.min(MAX_BLOCK_SIZE),
        Expected::Skip(left) => left.min(PIECE_SIZE),
        Expected::End => 0,
    }
}

// Makes one step on a piece of the input, which has as many bytes as `wanted` says, or fewer where the input ends. Gives the next state and the lines
// to write.
pub fn step(state: ListingState, table: &mut [u8], records: &mut [u16], piece: &[u8]) -> Stepped
    ensures value { result ≡ handed (stepped sha256 state (record { table = table.old; records = records.old }) piece.now) }
    ensures table_after { table.new ≡ (site_stepped sha256 state (record { table = table.old; records = records.old }) piece.now).table }
    ensures records_after { records.new ≡ (site_stepped sha256 state (record { table = table.old; records = records.old }) piece.now).records }
{
    let arrivals = state.arrivals;
    match state.expected {
        Expected::Setup => framing::setup_step(table, piece),
        Expected::Length => framing::length_step(arrivals, piece),
        Expected::Block(size) => framing::block_step(size, arrivals, table, records, piece),
        Expected::Skip(left) => framing::skip_step(left, arrivals, piece),
        Expected::End => framing::quiet(Expected::End, arrivals),
    }
}
