// The text of a listing's lines, with room for those of one step.
ghost use Rattle.std.specs.Prelude.{◌≡◌, [], ◌∷◌, ◌++◌, ◌+◌, ◌≤◌, length, drop};
ghost use Rattle.answer.specs.Refusals.{refusal_number};
ghost use Rattle.report.specs.Text.{decimal, field_text, ending, line, delivery_text, refusal_line, refused_line, setup_line, names};
ghost use Rattle.report.specs.Framing.{max_digits, field_size, line_size, lines_size};

use crate::{Delivery, FIELDS, LINES_SIZE, MAX_DIGITS};
use answer::Refusal;
use std::marker::Model;

// Lines of text. In clauses they are their bytes.
#[derive(Drop)]
pub struct Lines {
    bytes: [u8; LINES_SIZE],
    length: usize,
}

impl Model for Lines {
    ghost use Rattle.base.specs.Bytes.{Bytes};

    ghost Value = { Bytes };

    ghost use Rattle.std.specs.Prelude.{◌≤◌, take};
    ghost use Rattle.report.specs.Framing.{lines_size};

    ghost view = { λ lines. take lines.length lines.bytes };

    ghost invariant = { λ lines. lines.length ≤ lines_size };
}

// The last bytes of an array, from index `start` on.
#[derive(Clone, Copy, Debug, PartialEq, Eq)]
struct Tail {
    bytes: [u8; MAX_DIGITS],
    start: usize,
}

// The decimal digits of a number, without leading zeros.
fn digits(n: u64) -> Tail
    ensures start_le_max_digits { result.start ≤ max_digits }
    ensures bytes_value { drop result.start result.bytes ≡ decimal n }
{
    let mut bytes = [0u8; MAX_DIGITS];
    let mut start = MAX_DIGITS - 1;
    bytes[start] = b'0' + (n % 10) as u8;
    let mut rest = n / 10;
    while 0 < rest {
        start -= 1;
        bytes[start] = b'0' + (rest % 10) as u8;
        rest /= 10;
    }
    Tail { bytes, start }
}

// The byte that ends field i: a space, or a line feed after the last field.
fn ending(i: usize) -> u8
    ensures { result ≡ ending i }
{
    if i == FIELDS - 1 { b'\n' } else { b' ' }
}

impl Lines {
    // No lines.
    pub fn new() -> Lines
        ensures { result ≡ [] }
    {
        Lines {
            bytes: [0; LINES_SIZE],
            length: 0,
        }
    }

    pub fn text(&self) -> &[u8]
        ensures text { result.now ≡ self.now }
        ensures size { length self.now ≤ lines_size }
    {
        &self.bytes[..self.length]
    }

    // Puts bytes behind the lines.
    fn push(&mut self, part: &[u8])
        requires { length self.old + length part.now ≤ lines_size }
        ensures { self.new ≡ self.old ++ part.now }
    {
        let at = self.length;
        base::put(&mut self.bytes, at, part);
        self.length = at + part.len();
    }

    // Puts a field, a number in decimal or `-` where it is empty, and the byte that ends it.
    fn push_field(&mut self, field: Option<u64>, ending: u8)
        requires { length self.old + field_size ≤ lines_size }
        ensures field { self.new ≡ self.old ++ (field_text field ++ (ending ∷ [])) }
        ensures size { length self.new ≤ length self.old + field_size }
    {
        match field {
            Some(number) => {
                let digits = digits(number);
                self.push(&digits.bytes[digits.start..]);
            }
            None => self.push(b"-"),
        }
        self.push(&[ending]);
    }

    // Puts a line of seven fields, with one space between them and a line feed at the end.
    fn push_line(&mut self, fields: [Option<u64>; FIELDS])
        requires { length self.old + line_size ≤ lines_size }
        ensures line { self.new ≡ self.old ++ line fields }
        ensures size { length self.new ≤ length self.old + line_size }
    {
        for i in 0..FIELDS {
            self.push_field(fields[i], ending(i));
        }
    }

    // Puts the line of a delivery, and nothing where no number was delivered.
    pub fn push_delivery(&mut self, d: Delivery)
        requires { length self.old + line_size ≤ lines_size }
        ensures line { self.new ≡ self.old ++ delivery_text d }
        ensures size { length self.new ≤ length self.old + line_size }
    {
        if d.number != 0 {
            self.push_line([
                Some(d.arrival),
                Some(d.place as u64),
                Some(u64::from(d.site)),
                Some(u64::from(d.sequence)),
                Some(d.slot as u64),
                Some(u64::from(d.number)),
                Some(0),
            ]);
        }
    }

    // Puts the line of a refusal: what was refused, and the refusal's number.
    fn push_refusal(&mut self, what: Option<u64>, refusal: Refusal)
        requires { length self.old + line_size ≤ lines_size }
        ensures { self.new ≡ self.old ++ refusal_line what (refusal_number refusal) }
    {
        self.push_line([
            what,
            None,
            None,
            None,
            None,
            None,
            Some(u64::from(refusal.number())),
        ]);
    }
}

// The line of a refused arrival.
pub fn refused(arrival: u64, refusal: Refusal) -> Lines
    ensures { result ≡ refused_line arrival (refusal_number refusal) }
{
    let mut lines = Lines::new();
    lines.push_refusal(Some(arrival), refusal);
    lines
}

// The line of names.
pub fn names() -> Lines
    ensures { result ≡ names }
{
    let mut lines = Lines::new();
    lines.push(b"arrival place site seq slot number refusal\n");
    lines
}

// The line of names, and the line of a refused setup.
pub fn names_and_refusal(refusal: Refusal) -> Lines
    ensures { result ≡ names ++ setup_line (refusal_number refusal) }
{
    let mut lines = names();
    lines.push_refusal(None, refusal);
    lines
}
