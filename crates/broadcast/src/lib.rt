// One slot's process: authenticated double-echo broadcast, one message at a time. Promises: each function is its definition in specs/Process.antt,
// for every record and all numbers; the laws that the theorems use stand in proofs/. Assumes nothing.

#![tactic(auto)]

mod heard;
mod record;

ghost use Rattle.std.specs.Prelude.{◌≡◌, ◌&&◌, ◌+◌, ◌≤◌, ◌<◌, eqb, leb};
ghost use Rattle.setup.specs.Setup.{max_sites};
ghost use Rattle.broadcast.specs.Record.{blank};
ghost use Rattle.broadcast.specs.Process.{support, take_send, take_echo, take_ready, received, take_request};

use setup::MAX_SITES;

// The SEND, ECHO and READY that were sent and the number that was delivered; 0 is none.
#[derive(Clone, Copy, Debug, PartialEq, Eq)]
pub struct Sent {
    pub send: u16,
    pub echo: u16,
    pub ready: u16,
    pub delivered: u16,
}

// A slot's record: what was sent so far, the ECHO and the READY heard from each site, and what was made in this block.
#[derive(Clone, Copy, Debug, PartialEq, Eq)]
pub struct SlotRecord {
    pub sent: Sent,
    pub echoes: [u16; MAX_SITES],
    pub readies: [u16; MAX_SITES],
    pub made: Sent,
}

// A message's kind, in the order in which messages are heard.
#[derive(Clone, Copy, Debug, PartialEq, Eq)]
pub enum Kind {
    Send,
    Echo,
    Ready,
}

// A record in which nothing was sent or heard.
pub fn blank() -> SlotRecord
    ensures { result ≡ blank }
{
    let none = Sent {
        send: 0,
        echo: 0,
        ready: 0,
        delivered: 0,
    };
    SlotRecord {
        sent: none,
        echoes: [0; MAX_SITES],
        readies: [0; MAX_SITES],
        made: none,
    }
}

// Whether a READY or a delivery is due: its entry is still 0, and the supporters of the number in `heard`, with the sender of the message that is
// being taken, reach the threshold. `heard` is what was heard before that message: to read it right behind the store of the message's number would
// make the processor wait. The entry comes by itself, so that no record is copied to decide.
#[tactic(auto, using(crate::proofs::Support::support_le))]
fn is_due(entry: u16, heard: &[u16; MAX_SITES], n: u8, number: u16, threshold: u32) -> bool
    requires { n ≤ max_sites }
    ensures { result ≡ (eqb entry 0 && leb threshold (support n heard.now number + 1)) }
{
    if entry != 0 {
        return false;
    }
    threshold <= heard::support(heard, n, number) + 1
}

// ---- one message of each kind

// A SEND from the owner is echoed once; a SEND from another site changes nothing.
#[tactic(auto, unfolding(crate::specs::Process::take_send, crate::specs::Process::only_if))]
fn take_send(state: SlotRecord, owner: u8, sender: u8, number: u16) -> SlotRecord
    ensures { result ≡ take_send owner sender number state }
{
    if sender != owner {
        return state;
    }
    if state.sent.echo != 0 {
        return state;
    }
    state.in_both(|sent| Sent {
        echo: number,
        ..sent
    })
}

// An ECHO counts where none was heard from its sender before. A number that has the ECHO quorum is sent as READY.
#[tactic(auto, using(crate::proofs::Support::support_gained), unfolding(crate::specs::Process::take_echo, crate::specs::Process::ready_on_echoes, crate::specs::Process::only_if))]
fn take_echo(state: SlotRecord, n: u8, sender: u8, number: u16) -> SlotRecord
    requires { (n ≤ max_sites) × (sender < n) × (0 < number) }
    ensures { result ≡ take_echo n sender number state }
{
    let heard = state.echoes;
    let mut s = state;
    if s.echoes[usize::from(sender)] != 0 {
        return s;
    }
    s.echoes[usize::from(sender)] = number;
    if is_due(s.sent.ready, &heard, n, number, setup::echo_quorum(n)) {
        return s.in_both(|sent| Sent {
            ready: number,
            ..sent
        });
    }
    s
}

// A READY counts where none was heard from its sender before. A number with f + 1 supporters is sent as READY, and one with 2f + 1 is delivered.
#[tactic(auto, using(crate::proofs::Support::support_gained), unfolding(crate::specs::Process::take_ready, crate::specs::Process::ready_on_readies, crate::specs::Process::deliver_on_readies, crate::specs::Process::only_if))]
fn take_ready(state: SlotRecord, n: u8, sender: u8, number: u16) -> SlotRecord
    requires { (n ≤ max_sites) × (sender < n) × (0 < number) }
    ensures { result ≡ take_ready n sender number state }
{
    let heard = state.readies;
    let mut s = state;
    if s.readies[usize::from(sender)] != 0 {
        return s;
    }
    s.readies[usize::from(sender)] = number;
    if is_due(
        s.sent.ready,
        &heard,
        n,
        number,
        setup::ready_amplification(n),
    ) {
        s = s.in_both(|sent| Sent {
            ready: number,
            ..sent
        });
    }
    if is_due(s.sent.delivered, &heard, n, number, setup::ready_quorum(n)) {
        return s.in_both(|sent| Sent {
            delivered: number,
            ..sent
        });
    }
    s
}

// The record after one message, by value. A message of number 0, from a sender not below n, or where n is above 16, changes nothing.
#[tactic(auto, unfolding(crate::specs::Process::receive, crate::specs::Process::only_if, crate::specs::Process::take))]
fn step(state: SlotRecord, n: u8, owner: u8, kind: Kind, sender: u8, number: u16) -> SlotRecord
    ensures { result ≡ received state n owner kind sender number }
{
    if number == 0 {
        return state;
    }
    if n <= sender {
        return state;
    }
    if MAX_SITES < usize::from(n) {
        return state;
    }
    match kind {
        Kind::Send => take_send(state, owner, sender, number),
        Kind::Echo => take_echo(state, n, sender, number),
        Kind::Ready => take_ready(state, n, sender, number),
    }
}

// Takes one message: the lent record is changed by it.
pub fn receive(state: &mut SlotRecord, n: u8, owner: u8, kind: Kind, sender: u8, number: u16)
    ensures { state.new ≡ received state.old n owner kind sender number }
{
    *state = step(*state, n, owner, kind, sender, number);
}

// The record after one message; it comes and goes by value. It goes through `receive`, which every message does by docs/DECISIONS.md.
pub fn after(state: SlotRecord, n: u8, owner: u8, kind: Kind, sender: u8, number: u16) -> SlotRecord
    ensures { result ≡ received state n owner kind sender number }
{
    let mut s = state;
    receive(&mut s, n, owner, kind, sender, number);
    s
}

// The record after a block's counted request, 0 if it has none: SEND is sent if the block's site is the owner and no SEND was sent before.
#[tactic(auto, unfolding(crate::specs::Process::take_request, crate::specs::Process::only_if))]
pub fn take_request(state: SlotRecord, owner: u8, site: u8, number: u16) -> SlotRecord
    ensures { result ≡ take_request owner site number state }
{
    if number == 0 {
        return state;
    }
    if site != owner {
        return state;
    }
    if state.sent.send != 0 {
        return state;
    }
    state.in_both(|sent| Sent {
        send: number,
        ..sent
    })
}
