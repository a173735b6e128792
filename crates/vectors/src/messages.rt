// One message by itself, on a record that no calls reach, and also messages that interpretation does not make: of number 0, from a sender that is no
// site, and a SEND of a site that is not the owner. A line has the record's 40 numbers after the message.
use broadcast::{Kind, Sent, SlotRecord};
use std::fmt;

// The record before the message: SEND 1 was sent, 42 was heard from sites 0 and 9, though n 4 has no site 9, and 2 to 5 stand as made in this block.
const BEFORE: SlotRecord = SlotRecord {
    sent: Sent {
        send: 1,
        echo: 0,
        ready: 0,
        delivered: 0,
    },
    echoes: [42, 0, 0, 0, 0, 0, 0, 0, 0, 42, 0, 0, 0, 0, 0, 0],
    readies: [42, 0, 0, 0, 0, 0, 0, 0, 0, 42, 0, 0, 0, 0, 0, 0],
    made: Sent {
        send: 2,
        echo: 3,
        ready: 4,
        delivered: 5,
    },
};

// Numbers, a space before each.
#[derive(Clone, Copy)]
struct Spaced<'a>(&'a [u16]);

impl fmt::Display for Spaced<'_> {
    fn fmt<W: fmt::Write>(&self, f: &mut fmt::Formatter<W>) -> fmt::Result {
        for number in self.0 {
            write!(f, " {number}")?;
        }
        Ok(())
    }
}

fn numbers_of(sent: Sent) -> [u16; 4] {
    [sent.send, sent.echo, sent.ready, sent.delivered]
}

fn show_record(rt: &impl Print, name: &str, r: SlotRecord) {
    let _ = println!(rt;
        "{name}:{}{}{}{}",
        Spaced(&numbers_of(r.sent)),
        Spaced(&r.echoes),
        Spaced(&r.readies),
        Spaced(&numbers_of(r.made))
    );
}

// Shows the record after a message of each kind, from this sender with this number, where there are n sites.
fn show_kinds(rt: &impl Print, name: &str, n: u8, owner: u8, sender: u8, number: u16) {
    let _ = println!(rt; "{name}");
    for (kind_name, kind) in [
        ("SEND", Kind::Send),
        ("ECHO", Kind::Echo),
        ("READY", Kind::Ready),
    ] {
        let after = broadcast::after(BEFORE, n, owner, kind, sender, number);
        show_record(rt, kind_name, after);
    }
}

pub fn show_all(rt: &impl Print) {
    show_record(rt, "a record", BEFORE);
    show_kinds(rt, "n 4, 42 of the owner, site 0", 4, 0, 0, 42);
    show_kinds(rt, "n 4, 42 of site 1, site 0 owning", 4, 0, 1, 42);
    show_kinds(rt, "n 4, 42 of site 2, which owns", 4, 2, 2, 42);
    show_kinds(rt, "n 4, 0 of the owner, site 2", 4, 2, 2, 0);
    show_kinds(rt, "n 4, 42 of site 4, named as owner", 4, 4, 4, 42);
    show_kinds(rt, "n 4, 42 of site 255", 4, 0, 255, 42);
    show_kinds(rt, "n 17, 42 of site 16, named as owner", 17, 16, 16, 42);
}
