// A step for each kind of piece that is expected. A piece that is shorter than the state wanted is the last of the input.
ghost use Rattle.std.specs.Prelude.{◌≡◌, []};
ghost use Rattle.sha256.specs.Sha256.{sha256};
ghost use Rattle.table.specs.Fresh.{fresh_in};
ghost use Rattle.report.specs.Arrivals.{setup_in};
ghost use Rattle.report.specs.Framing.{setup_step, length_step, skip_step, block_step, site_by, handed};
ghost use Rattle.report.specs.declared.Expected.TheVariants.{Block};

use crate::{
    Expected, LENGTH_SIZE, Lines, ListingState, PIECE_SIZE, SETUP_SIZE, Stepped, VERDICT_SIZE,
    arrival, lines,
};
use answer::Refusal;
use block::MAX_BLOCK_SIZE;

// A step that goes on to this state and writes these lines.
fn stepped(expected: Expected, arrivals: u64, lines: Lines) -> Stepped
    ensures { result ≡ record { state = record { expected = expected; arrivals = arrivals }; lines = lines } }
{
    Stepped {
        state: ListingState { expected, arrivals },
        lines,
    }
}

// A step that goes on to this state and writes no line.
pub fn quiet(expected: Expected, arrivals: u64) -> Stepped
    ensures { result ≡ record { state = record { expected = expected; arrivals = arrivals }; lines = [] } }
{
    stepped(expected, arrivals, Lines::new())
}

// The step on a setup: makes the table the empty table of the setup, and writes the line of names; or writes the refusal's line too and ends the
// listing.
pub fn setup_step(table: &mut [u8], piece: &[u8]) -> Stepped
    ensures value { result ≡ handed (setup_step table.old piece.now) }
    ensures table_after { table.new ≡ fresh_in (setup_in piece.now) table.old }
{
    if piece.len() < SETUP_SIZE {
        return stepped(
            Expected::End,
            0,
            lines::names_and_refusal(Refusal::UnlawfulSetup),
        );
    }
    match table::fresh_in(piece[0], &piece[1..SETUP_SIZE], table) {
        Ok(()) => stepped(Expected::Length, 0, lines::names()),
        Err(refusal) => stepped(Expected::End, 0, lines::names_and_refusal(refusal)),
    }
}

// The step on the length of an arrival. Without a byte the listing is at its end; a cut or too long arrival is refused with 3.
pub fn length_step(arrivals: u64, piece: &[u8]) -> Stepped
    ensures { result ≡ handed (length_step arrivals piece.now) }
{
    if piece.is_empty() {
        return quiet(Expected::End, arrivals);
    }
    if piece.len() < LENGTH_SIZE {
        return stepped(
            Expected::End,
            arrivals,
            lines::refused(arrivals, Refusal::Misshapen),
        );
    }
    let size = usize::from(u16::from_be_bytes([piece[0], piece[1]]));
    if MAX_BLOCK_SIZE < size {
        return stepped(
            Expected::Skip(VERDICT_SIZE + size),
            arrivals.wrapping_add(1),
            lines::refused(arrivals, Refusal::Misshapen),
        );
    }
    quiet(Expected::Block(size), arrivals)
}

// The step on the verdict and the block of an arrival. A cut arrival is refused with 3 and ends the listing.
pub fn block_step(
    size: usize,
    arrivals: u64,
    table: &mut [u8],
    records: &mut [u16],
    piece: &[u8],
) -> Stepped
    ensures value { result ≡ handed (block_step sha256 size arrivals (record { table = table.old; records = records.old }) piece.now) }
    ensures table_after { table.new ≡ (site_by sha256 (Block size) (record { table = table.old; records = records.old }) piece.now).table }
    ensures records_after { records.new ≡ (site_by sha256 (Block size) (record { table = table.old; records = records.old }) piece.now).records }
{
    if piece.len() <= size {
        return stepped(
            Expected::End,
            arrivals,
            lines::refused(arrivals, Refusal::Misshapen),
        );
    }
    let end = VERDICT_SIZE + size;
    let lines = arrival::arrive(
        arrivals,
        table,
        records,
        &piece[VERDICT_SIZE..end],
        piece[0],
    );
    stepped(Expected::Length, arrivals.wrapping_add(1), lines)
}

// The step on bytes of an arrival that is too long, of which `left` are still to be skipped.
pub fn skip_step(left: usize, arrivals: u64, piece: &[u8]) -> Stepped
    ensures { result ≡ handed (skip_step left arrivals piece.now) }
{
    if left <= PIECE_SIZE {
        if piece.len() < left {
            return quiet(Expected::End, arrivals);
        }
        return quiet(Expected::Length, arrivals);
    }
    if piece.len() < PIECE_SIZE {
        return quiet(Expected::End, arrivals);
    }
    quiet(Expected::Skip(left - PIECE_SIZE), arrivals)
}
