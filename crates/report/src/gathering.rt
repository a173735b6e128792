// All steps that are due on the bytes that came, with their lines one behind the other in the output.
ghost use Rattle.std.specs.Prelude.{◌≡◌, ◌+◌, ◌-◌, ◌≤◌, length};
ghost use Rattle.base.specs.Bytes.{splice};
ghost use Rattle.sha256.specs.Sha256.{sha256};
ghost use Rattle.report.specs.Framing.{lines_size};
ghost use Rattle.report.specs.Gathering.{lent_site, is_due, outcome_at, site_stepped_at, gathering, gathered_of};
ghost use Rattle.report.specs.Steps.{advanced};

use crate::{Gathered, LINES_SIZE, ListingState};

// Whether the next step is due, where `count` bytes came and the output has this size.
fn is_due(done: Gathered, count: usize, is_ended: bool, size: usize) -> bool
    requires { (done.used ≤ count) × (done.length ≤ size) }
    ensures { result ≡ is_due is_ended done.state (count - done.used) (size - done.length) }
{
    let wanted = crate::wanted(done.state);
    if wanted == 0 {
        return false;
    }
    if !is_ended && count - done.used < wanted {
        return false;
    }
    LINES_SIZE <= size - done.length
}

// Makes one step on the bytes that are not used yet, and puts its lines behind those that stand in the output.
fn advance(
    done: Gathered,
    table: &mut [u8],
    records: &mut [u16],
    unread: &[u8],
    output: &mut [u8],
) -> Gathered
    requires { (done.used ≤ length unread.now) × (done.length + lines_size ≤ length output.old) }
    ensures value { result ≡ advanced sha256 done (lent_site table.old records.old) unread.now }
    ensures table_after { table.new ≡ (site_stepped_at sha256 done.state (lent_site table.old records.old) done.used unread.now).table }
    ensures records_after { records.new ≡ (site_stepped_at sha256 done.state (lent_site table.old records.old) done.used unread.now).records }
    ensures output_after { output.new ≡ splice output.old done.length (outcome_at sha256 done.state (lent_site table.old records.old) done.used unread.now).lines }
    ensures length_in_bounds { result.length ≤ length output.old }
{
    let end = done.used + crate::wanted(done.state).min(unread.len() - done.used);
    let stepped = crate::step(done.state, table, records, &unread[done.used..end]);
    let lines = stepped.lines.text();
    base::put(output, done.length, lines);
    Gathered {
        state: stepped.state,
        used: end,
        length: done.length + lines.len(),
    }
}

// Makes steps on the unread bytes, one after the other, as long as the next step is due: the listing is not at its end, the bytes that the step wants
// are there or no more will come, and the output has room for a step's lines.
pub fn gather(
    state: ListingState,
    table: &mut [u8],
    records: &mut [u16],
    unread: &[u8],
    is_ended: bool,
    output: &mut [u8],
) -> Gathered
    ensures value { result ≡ gathered_of (gathering sha256 unread.now is_ended (length output.old) state (lent_site table.old records.old)) }
    ensures table_after { table.new ≡ (gathering sha256 unread.now is_ended (length output.old) state (lent_site table.old records.old)).site.table }
    ensures records_after { records.new ≡ (gathering sha256 unread.now is_ended (length output.old) state (lent_site table.old records.old)).site.records }
    ensures output_after { output.new ≡ splice output.old 0 (gathering sha256 unread.now is_ended (length output.old) state (lent_site table.old records.old)).lines }
{
    let mut done = Gathered {
        state,
        used: 0,
        length: 0,
    };
    while is_due(done, unread.len(), is_ended, output.len()) {
        done = advance(done, table, records, unread, output);
    }
    done
}
