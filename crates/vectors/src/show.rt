// What the lines of output have in common: bytes in hexadecimal, the members of a mask, and what a call answered.
use answer::Answer;
use std::fmt;

// Bytes in hexadecimal.
#[derive(Clone, Copy)]
pub struct Hex<'a>(pub &'a [u8]);

impl fmt::Display for Hex<'_> {
    fn fmt<W: fmt::Write>(&self, f: &mut fmt::Formatter<W>) -> fmt::Result {
        for byte in self.0 {
            write!(f, "{byte:02x}")?;
        }
        Ok(())
    }
}

// The numbers in a mask, a space before each.
#[derive(Clone, Copy)]
pub struct MaskMembers(pub u64);

impl fmt::Display for MaskMembers {
    fn fmt<W: fmt::Write>(&self, f: &mut fmt::Formatter<W>) -> fmt::Result {
        for p in 0..64 {
            if base::in_mask(self.0, p) {
                write!(f, " {p}")?;
            }
        }
        Ok(())
    }
}

// A call's answer, with the number of a refusal, 0 for none.
#[derive(Clone, Copy)]
pub struct Answered(pub Answer);

impl fmt::Display for Answered {
    fn fmt<W: fmt::Write>(&self, f: &mut fmt::Formatter<W>) -> fmt::Result {
        let Answer { refusal, value } = self.0;
        write!(f, "refusal {refusal} value {value}")
    }
}

// A line for what a call answered.
pub fn show_answer(rt: &impl Print, name: &str, answer: Answer) {
    let _ = println!(rt; "{name}: {}", Answered(answer));
}
