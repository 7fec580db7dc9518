// What came of a call, as a line.
use packet_copies::sides::{BYTES, Side, Sides};
use packet_copies::told::{Made, Told};
use std::fmt;

const DIGITS: [&str; 16] = [
    "0", "1", "2", "3", "4", "5", "6", "7", "8", "9", "a", "b", "c", "d", "e", "f",
];

// Bytes, two hexadecimal digits each, from a table: a format of its own for each byte takes longer.
#[derive(Clone, Copy)]
struct Hexadecimal<'a>(&'a [u8]);

impl<'a> fmt::Display for Hexadecimal<'a> {
    fn fmt<W: fmt::Write>(&self, f: &mut fmt::Formatter<W>) -> fmt::Result {
        for byte in self.0 {
            f.write_str(DIGITS[usize::from(byte / 16)])?;
            f.write_str(DIGITS[usize::from(byte % 16)])?;
        }
        Ok(())
    }
}

// The bytes of one store after a call, or `=` where none of them changed.
#[derive(Clone, Copy)]
struct Change<'a> {
    before: &'a Side,
    after: &'a Side,
}

impl<'a> fmt::Display for Change<'a> {
    fn fmt<W: fmt::Write>(&self, f: &mut fmt::Formatter<W>) -> fmt::Result {
        if self.before.bytes == self.after.bytes {
            return f.write_str("=");
        }
        write!(f, "{}", Hexadecimal(&self.after.bytes))
    }
}

// The answer: 0 and what was given, the refusal's number, or how many bytes a read showed, and which.
#[derive(Clone, Copy)]
struct Answer<'a>(&'a Made);

impl<'a> fmt::Display for Answer<'a> {
    fn fmt<W: fmt::Write>(&self, f: &mut fmt::Formatter<W>) -> fmt::Result {
        let made = self.0;
        match made.told {
            Ok(Told::Done) => f.write_str("0"),
            Ok(Told::Granted(packet)) => {
                let span = packet.span;
                let store = u32::from(packet.store);
                write!(f, "0 {store} {} {}", span.offset, span.metadata.0)
            }
            Ok(Told::Length(length)) => write!(f, "0 {}", length.0),
            Ok(Told::Report(figures)) => {
                let total = figures.total_free_space;
                let largest = figures.largest_free_region;
                write!(f, "0 {} {}", total.0, largest.0)
            }
            Ok(Told::Shown(0)) => f.write_str("0"),
            Ok(Told::Shown(many)) => {
                let shown = &made.shown[..many.min(BYTES)];
                write!(f, "{many} {}", Hexadecimal(shown))
            }
            Err(why) => write!(f, "{}", why.number()),
        }
    }
}

// The stores before a call, and what it answered and left.
#[derive(Clone, Copy)]
pub struct Line<'a> {
    pub before: &'a Sides,
    pub made: &'a Made,
}

impl<'a> fmt::Display for Line<'a> {
    fn fmt<W: fmt::Write>(&self, f: &mut fmt::Formatter<W>) -> fmt::Result {
        let before = self.before;
        let after = &self.made.after;
        let on_chip = Change {
            before: &before.on_chip,
            after: &after.on_chip,
        };
        let external = Change {
            before: &before.external,
            after: &after.external,
        };
        write!(f, "{} | {on_chip} {external}", Answer(self.made))
    }
}
