// Numbers by their index: a record read from them, and put into them.
ghost use Rattle.std.specs.Prelude.{◌≡◌, ◌+◌, ◌≤◌, length, take, drop};
ghost use Rattle.base.specs.Bytes.{splice};
ghost use Rattle.setup.specs.Setup.{max_sites};
ghost use Rattle.records.specs.Layout.{sent_count, record_size, sent_numbers, flatten, sent_at, record_at};

use crate::{ECHOES_OFFSET, MADE_OFFSET, READIES_OFFSET};
use broadcast::{Sent, SlotRecord};
use setup::MAX_SITES;

// What was sent, which is four numbers from an index on.
pub fn sent_at(records: &[u16], at: usize) -> Sent
    requires { at + sent_count ≤ length records.now }
    ensures { result ≡ sent_at records.now at }
{
    Sent {
        send: records[at],
        echo: records[at + 1],
        ready: records[at + 2],
        delivered: records[at + 3],
    }
}

// What was heard from each site, which is sixteen numbers from an index on.
fn heard_at(records: &[u16], at: usize) -> [u16; MAX_SITES]
    requires { at + max_sites ≤ length records.now }
    ensures { result ≡ take max_sites (drop at records.now) }
{
    records[at..at + MAX_SITES].try_into().unwrap()
}

// The record whose numbers stand from an index on.
#[tactic(auto, unfolding(crate::specs::Layout::record_at))]
pub fn record_at(records: &[u16], at: usize) -> SlotRecord
    requires { at + record_size ≤ length records.now }
    ensures { result ≡ record_at records.now at }
{
    let sent = sent_at(records, at);
    let echoes = heard_at(records, at + ECHOES_OFFSET);
    let readies = heard_at(records, at + READIES_OFFSET);
    let made = sent_at(records, at + MADE_OFFSET);
    SlotRecord {
        sent,
        echoes,
        readies,
        made,
    }
}

// Puts the four numbers of what was sent at index `at`; all other numbers stay.
fn put_sent(out: &mut [u16], at: usize, sent: Sent)
    requires { at + sent_count ≤ length out.old }
    ensures { out.new ≡ splice out.old at (sent_numbers sent) }
{
    base::put(out, at, &[sent.send, sent.echo, sent.ready, sent.delivered]);
}

// Puts a record's numbers at index `at`; all other numbers stay.
pub fn put_record(out: &mut [u16], at: usize, state: SlotRecord)
    requires { at + record_size ≤ length out.old }
    ensures { out.new ≡ splice out.old at (flatten state) }
{
    put_sent(out, at, state.sent);
    base::put(out, at + ECHOES_OFFSET, &state.echoes);
    base::put(out, at + READIES_OFFSET, &state.readies);
    put_sent(out, at + MADE_OFFSET, state.made);
}
