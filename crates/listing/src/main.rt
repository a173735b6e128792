// The listing program: reads a campaign from standard input and writes its listing to standard output. Every line comes from `report`; here is only
// reading and writing. It reads what is there, up to a buffer of 4,096 bytes, and writes the lines that it has before a read that may wait. Promises:
// it is safe, it ends, and it holds no more of the input than that buffer does; each turn makes the steps that are due on the unread bytes, keeps the
// bytes that no step used, in their order, and puts the bytes that come behind them. Where it is known which bytes a reader has left, those that come
// are the next of them, and where it is known which bytes a writer holds, they grow by the lines, unless reading or writing fails in that turn. Where
// one fails, the user is told and the program ends. Assumes: std's contracts of reading and writing. They claim no bytes of standard input and
// output, so that these are such a reader and writer is tested.

#![tactic(auto)]

ghost use Rattle.std.specs.Prelude.{◌≡◌, true, false, [], ◌+◌, ◌≤◌, ◌<◌, length, take, drop, IfOk, OnOk, MatchResult};
ghost use Rattle.std.specs.Io.KnownBytes.{Appends, Consumes, IsAtEnd};
ghost use Rattle.base.specs.Bytes.{Bytes, splice};
ghost use Rattle.sha256.specs.Sha256.{sha256};
ghost use Rattle.report.specs.Framing.{piece_size, wanted as bytes_wanted, lines_size};
ghost use Rattle.report.specs.Gathering.{progress, turn as gathering_turn};
ghost use Rattle.listing.specs.declared.ProgramState.{ProgramState};

use records::BUFFER_SIZE;
use report::ListingState;
use std::io::{Read, Write};
use table::TABLE_SIZE;

// How many bytes the buffer of the input has, and that of the output.
const PART_SIZE: usize = 4096;

// The streams of the program: its input, and the lines.
#[derive(Drop)]
struct Streams<R, W> {
    stdin: R,
    stdout: W,
}

// The unread bytes: how many stand at the front of the input buffer, and whether no more will come.
#[derive(Clone, Copy, Debug, PartialEq, Eq)]
struct Front {
    count: usize,
    is_ended: bool,
}

// How far the program has come between two turns.
#[derive(Clone, Copy, Debug, PartialEq, Eq)]
struct ProgramState {
    state: ListingState,
    front: Front,
}

// Why the program stops before the listing is at its end.
#[derive(Clone, Copy, Debug, PartialEq, Eq)]
enum Failure {
    Reading,
    Writing,
}

impl Failure {
    fn message(self) -> &'static [u8] {
        match self {
            Failure::Reading => b"giangotum-listing: reading failed\n",
            Failure::Writing => b"giangotum-listing: writing failed\n",
        }
    }
}

// Moves those of the first `count` bytes that are not among the first `used` to the front of the buffer.
fn to_front(input: &mut [u8], used: usize, count: usize)
    requires { (used ≤ count) × (count ≤ length input.old) }
    ensures { input.new ≡ splice input.old 0 (drop used (take count input.old)) }
{
    input.copy_within(used..count, 0);
}

// Reads once, behind the first `count` bytes of the buffer. Where no byte comes, the input is at its end.
fn read_more<R: Read>(stdin: &mut R, input: &mut [u8], count: usize) -> Result<Front, Failure>
    requires { count < length input.old }
    ensures count_le_count { IfOk result (λ front. (count ≤ front.count) × (front.count ≤ length input.new) × (front.is_ended ≡ true → front.count ≡ count)) }
    ensures input_unchanged { take count input.new ≡ take count input.old }
    ensures bytes_read { MatchResult result (λ front. Consumes (R.remaining stdin.old) (R.remaining stdin.new) (drop count (take front.count input.new))) (λ _. Consumes (R.remaining stdin.old) (R.remaining stdin.new) []) }
    ensures no_more { IfOk result (λ front. front.is_ended ≡ true → IsAtEnd (R.remaining stdin.new)) }
{
    match stdin.read(&mut input[count..]) {
        Ok(more) => Ok(Front {
            count: count + more,
            is_ended: more == 0,
        }),
        Err(_) => Err(Failure::Reading),
    }
}

// Reads once if more may come and fewer bytes are there than are wanted; else leaves the buffer as it is.
fn read_on<R: Read>(
    stdin: &mut R,
    input: &mut [u8],
    front: Front,
    wanted: usize,
) -> Result<Front, Failure>
    requires { (front.count ≤ length input.old) × (wanted ≤ length input.old) }
    ensures count_le_count { IfOk result (λ after. (front.count ≤ after.count) × (after.count ≤ length input.new) × (after.is_ended ≡ true → after.count ≡ front.count) × (front.is_ended ≡ true → after.is_ended ≡ true) × (wanted ≤ front.count → after.count ≡ front.count)) }
    ensures input_unchanged { take front.count input.new ≡ take front.count input.old }
    ensures bytes_read { MatchResult result (λ after. Consumes (R.remaining stdin.old) (R.remaining stdin.new) (drop front.count (take after.count input.new))) (λ _. Consumes (R.remaining stdin.old) (R.remaining stdin.new) []) }
{
    if front.is_ended || wanted <= front.count {
        return Ok(front);
    }
    read_more(stdin, input, front.count)
}

// Writes the first `count` bytes of the output, which are lines.
fn write_front<W: Write>(stdout: &mut W, output: &[u8], count: usize) -> Result<(), Failure>
    requires { count ≤ length output.now }
    ensures { OnOk result (Appends (W.contents stdout.old) (W.contents stdout.new) (take count output.now)) }
{
    stdout
        .write_all(&output[..count])
        .map_err(|_| Failure::Writing)
}

// One turn: makes the steps that are due, writes their lines, and reads the bytes that come. State, table, records and unread bytes are then those of
// `turn` in report/specs/Gathering.antt, for the bytes that came. No bytes came if reading or writing failed, if the input is at its end, where it
// then stays, or if the bytes that the next step wants were there already. They are the next bytes that the reader has left, and the lines were
// written unless reading or writing failed.
fn turn<R: Read, W: Write>(
    streams: &mut Streams<R, W>,
    before: ProgramState,
    table: &mut [u8],
    records: &mut [u16],
    input: &mut [u8],
    output: &mut [u8],
) -> Result<ProgramState, Failure>
    requires { (before.front.count ≤ length input.old) × (piece_size ≤ length input.old) × (lines_size ≤ length output.old) }
    ensures lines_after { (after : ProgramState) × (came : Bytes) × (lines : Bytes) × (progress after.state table.new records.new (take after.front.count input.new) lines ≡ gathering_turn sha256 (length output.old) before.front.is_ended (progress before.state table.old records.old (take before.front.count input.old) []) came) × (output.new ≡ splice output.old 0 lines) × (after.front.is_ended ≡ true → came ≡ []) × (bytes_wanted after.state + length came ≤ after.front.count → came ≡ []) × Consumes (R.remaining streams.old.stdin) (R.remaining streams.new.stdin) came × MatchResult result (λ value. (value ≡ after) × Appends (W.contents streams.old.stdout) (W.contents streams.new.stdout) lines) (λ _. came ≡ []) }
    ensures count_in_bounds { IfOk result (λ after. (after.front.count ≤ length input.new) × (before.front.is_ended ≡ true → after.front.is_ended ≡ true)) }
{
    let front = before.front;
    let unread = &input[..front.count];
    let gathered = report::gather(before.state, table, records, unread, front.is_ended, output);
    let left = Front {
        count: front.count - gathered.used,
        is_ended: front.is_ended,
    };
    to_front(input, gathered.used, front.count);
    write_front(&mut streams.stdout, output, gathered.length)?;
    let wanted = report::wanted(gathered.state);
    let front = read_on(&mut streams.stdin, input, left, wanted)?;
    Ok(ProgramState {
        state: gathered.state,
        front,
    })
}

// Makes turns until the listing is at its end. A proved loop has to end, and nothing says that the input does, so the turns are counted, up to a
// number that no run uses up.
fn list<R: Read, W: Write>(
    streams: &mut Streams<R, W>,
    table: &mut [u8],
    records: &mut [u16],
    input: &mut [u8],
    output: &mut [u8],
) -> Result<(), Failure>
    requires { (piece_size ≤ length input.old) × (lines_size ≤ length output.old) }
{
    let mut progress = ProgramState {
        state: report::start(),
        front: Front {
            count: 0,
            is_ended: false,
        },
    };
    for _ in 0..u64::MAX {
        progress = turn(streams, progress, table, records, input, output)?;
        if report::wanted(progress.state) == 0 {
            break;
        }
    }
    Ok(())
}

fn main(rt: HostRuntime) {
    let mut streams = Streams {
        stdin: rt.stdin(),
        stdout: rt.stdout(),
    };
    let mut table = [0u8; TABLE_SIZE];
    let mut records = [0u16; BUFFER_SIZE];
    let mut input = [0u8; PART_SIZE];
    let mut output = [0u8; PART_SIZE];
    let listed = list(
        &mut streams,
        &mut table,
        &mut records,
        &mut input,
        &mut output,
    );
    if let Err(failure) = listed {
        let _ = rt.stderr().write_all(failure.message());
    }
}
