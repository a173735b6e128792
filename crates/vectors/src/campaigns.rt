// Campaigns written down as text, run through the calls with SHA-256: what each call is answered, and what each block makes in slot 0.
ghost use Rattle.std.specs.Prelude.{◌≡◌, ◌*◌, ◌/◌, ◌≤◌, length};
ghost use Rattle.block.specs.Limits.{request_size};

use crate::show::{Hex, show_answer};
use crate::site::TestSite;
use crate::watching;
use block::{HEADER_SIZE, MAX_BLOCK_SIZE, MAX_REFERENCES, REFERENCE_SIZE, REQUEST_SIZE};
use setup::SLOTS;
use table::MAX_PLACES;

// What is done in a step of a campaign.
#[derive(Clone, Copy)]
enum Action {
    // the block is admitted, and interpreted at its place
    Arrive,
    // the block is admitted, and not interpreted
    Admit,
    // the watch is asked for the ancestors of the place whose number stands for the site
    Ancestors,
    // the watch is asked for the sites that forked
    Forks,
    // the site builds its next block with these requests, and the block arrives where it was built
    Build,
}

impl Action {
    // The step that a letter stands for.
    fn of_letter(letter: u8) -> Option<Action> {
        match letter {
            b'a' => Some(Action::Arrive),
            b'd' => Some(Action::Admit),
            b'p' => Some(Action::Ancestors),
            b'f' => Some(Action::Forks),
            b'b' => Some(Action::Build),
            _ => None,
        }
    }
}

// A campaign is written down as text, an entry for each step: a letter for what is done, then of a block its site and its sequence number,
// the numbers that it requests in slots 0 and 1 (`.` if none, else the number's own character: `*` is 42, `+` is 43), how many blocks
// it refers to, and which: they count from 0 as they are named, and after 9 come `:`, `;`, `<` and so on. A space ends an entry.
#[derive(Clone, Copy)]
struct Entry<'a> {
    step: Action,
    site: u8,
    sequence: u8,
    numbers: [u8; 2],
    named: &'a [u8],
}

fn digit(character: u8) -> u8 {
    character.saturating_sub(b'0')
}

fn number(character: u8) -> u8 {
    if character == b'.' { 0 } else { character }
}

impl<'a> Entry<'a> {
    fn read(text: &'a [u8]) -> Option<Entry<'a>> {
        let [letter, site, sequence, first, second, count, named @ ..] = text else {
            return None;
        };
        Some(Entry {
            step: Action::of_letter(*letter)?,
            site: digit(*site),
            sequence: digit(*sequence),
            numbers: [number(*first), number(*second)],
            named: named.get(..usize::from(digit(*count)))?,
        })
    }

    // Puts the list of the requests to the front of the room, and hands out that front. Number 0 is no request.
    fn requests<'b>(&self, room: &'b mut [u8; 2 * REQUEST_SIZE]) -> &'b [u8]
        ensures { (length result.now ≤ 2 * request_size) × (length result.now ≡ request_size * (length result.now / request_size)) }
    {
        let [first, second] = self.numbers;
        *room = [0, 0, first, 1, 0, second];
        match (first, second) {
            (0, 0) => &[],
            (0, _) => &room[REQUEST_SIZE..],
            (_, 0) => &room[..REQUEST_SIZE],
            _ => room,
        }
    }
}

// A campaign that runs: its site, and the digests of the blocks that it has named so far.
#[derive(Drop)]
struct CampaignRun<'a, R> {
    rt: &'a R,
    site: TestSite,
    digests: [[u8; REFERENCE_SIZE]; MAX_PLACES],
    named: usize,
}

impl<R: Print> CampaignRun<'_, R> {
    // The digests of the blocks with these numbers, one for each character, and zeros behind them.
    fn digests_of(&self, named: &[u8]) -> [[u8; REFERENCE_SIZE]; MAX_REFERENCES] {
        let mut list = [[0; REFERENCE_SIZE]; MAX_REFERENCES];
        for (reference, character) in list.iter_mut().zip(named) {
            if let Some(digest) = self.digests.get(usize::from(digit(*character))) {
                *reference = *digest;
            }
        }
        list
    }

    // Writes the block of the entry to the front of the room, and hands out that front.
    fn write_block<'b>(
        &self,
        entry: &Entry,
        room: &'b mut [u8; MAX_BLOCK_SIZE],
    ) -> Option<&'b [u8]> {
        let list = self.digests_of(entry.named);
        let references = list.get(..entry.named.len())?.as_flattened();
        let mut request_room = [0; 2 * REQUEST_SIZE];
        let requests = entry.requests(&mut request_room);
        block::writing::write_block(
            entry.site,
            u16::from(entry.sequence),
            references,
            requests,
            room,
        );
        room.get(..HEADER_SIZE + references.len() + requests.len())
    }

    // Writes the block of the entry as `write_block` does, and gives it the next number, by which later blocks refer to it.
    fn name_block<'b>(
        &mut self,
        entry: &Entry,
        room: &'b mut [u8; MAX_BLOCK_SIZE],
    ) -> Option<&'b [u8]> {
        let block = self.write_block(entry, room)?;
        if let Some(digest) = self.digests.get_mut(self.named) {
            *digest = sha256::digest(block);
            self.named += 1;
        }
        Some(block)
    }

    fn admit(&mut self, block: &[u8]) {
        show_answer(self.rt, "admit", self.site.admit(block).into());
    }

    // Admits the block, interprets it at its place, and shows what it made in slot 0.
    fn arrive(&mut self, block: &[u8]) {
        match self.site.admit(block) {
            Ok(place) => self.interpret(place),
            refused => show_answer(self.rt, "admit", refused.into()),
        }
    }

    fn interpret(&mut self, place: usize) {
        match self.site.interpret(place) {
            Ok(()) => self.show_made(place),
            refused => show_answer(self.rt, "interpret", refused.into()),
        }
    }

    // What the block at a place made in slot 0.
    fn show_made(&self, place: usize) {
        if place < MAX_PLACES {
            let made = records::made_in(&self.site.records, place, 0);
            let _ = println!(self.rt;
                "place {place}: SEND {} ECHO {} READY {} delivery {}",
                made.send, made.echo, made.ready, made.delivered
            );
        }
    }

    // The site of the entry builds its next block, which is shown and comes to the table that it was built from.
    fn build(&mut self, entry: &Entry) {
        let mut request_room = [0; 2 * REQUEST_SIZE];
        let requests = entry.requests(&mut request_room);
        let mut room = [0; MAX_BLOCK_SIZE];
        let built = self.site.build(entry.site, requests, &mut room);
        show_answer(self.rt, "build", built.map(|block| block.len()).into());
        if let Ok(block) = built {
            self.show_block(block);
            self.arrive(block);
        }
    }

    fn show_block(&self, block: &[u8]) {
        if let Ok(fields) = block::read_block(block) {
            let _ = println!(self.rt;
                "site {} sequence {} references {} requests {}",
                fields.site, fields.sequence, fields.references, fields.requests
            );
        }
        let _ = println!(self.rt; "digest {}", Hex(&sha256::digest(block)));
    }

    // Does what the entry says.
    fn take_step(&mut self, entry: &Entry) {
        let mut room = [0; MAX_BLOCK_SIZE];
        match entry.step {
            Action::Arrive => {
                if let Some(block) = self.name_block(entry, &mut room) {
                    self.arrive(block);
                }
            }
            Action::Admit => {
                if let Some(block) = self.name_block(entry, &mut room) {
                    self.admit(block);
                }
            }
            Action::Ancestors => {
                watching::show_ancestors(self.rt, &self.site.table, usize::from(entry.site));
            }
            Action::Forks => watching::show_forks(self.rt, &self.site.table),
            Action::Build => self.build(entry),
        }
    }
}

// Runs a campaign of n sites in which site 0 owns every slot.
pub fn show<R: Print>(rt: &R, name: &str, sites: u8, text: &str) {
    let _ = println!(rt; "{name}");
    let mut campaign = CampaignRun {
        rt,
        site: TestSite::new(sites, [0; SLOTS]),
        digests: [[0; REFERENCE_SIZE]; MAX_PLACES],
        named: 0,
    };
    for entry in text.split(' ') {
        if let Some(entry) = Entry::read(entry.as_bytes()) {
            campaign.take_step(&entry);
        }
    }
}
