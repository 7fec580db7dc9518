// A call's answer, as it is printed behind the call.
use packet_copies::sides::BYTES;
use packet_copies::told::{Made, Told};
use packets::{Packet, Store};
use std::fmt;

// The bytes that a read showed, a space before each but the first.
#[derive(Clone, Copy)]
struct Bytes<'a>(&'a [u8]);

impl<'a> fmt::Display for Bytes<'a> {
    fn fmt<W: fmt::Write>(&self, f: &mut fmt::Formatter<W>) -> fmt::Result {
        if self.0.is_empty() {
            return f.write_str("nothing");
        }
        for (i, byte) in self.0.iter().enumerate() {
            if 0 < i {
                f.write_str(" ")?;
            }
            write!(f, "{byte}")?;
        }
        Ok(())
    }
}

fn name(store: Store) -> &'static str {
    match store {
        Store::OnChip => "on-chip",
        Store::External => "external",
    }
}

// A granted packet: its store, and its span there.
#[derive(Clone, Copy)]
struct Granted(Packet);

impl fmt::Display for Granted {
    fn fmt<W: fmt::Write>(&self, f: &mut fmt::Formatter<W>) -> fmt::Result {
        let Packet { store, span } = self.0;
        write!(
            f,
            "{}, offset {}, record {}",
            name(store),
            span.offset,
            span.metadata.0
        )
    }
}

#[derive(Clone, Copy)]
pub struct Answer<'a>(pub &'a Made);

impl<'a> fmt::Display for Answer<'a> {
    fn fmt<W: fmt::Write>(&self, f: &mut fmt::Formatter<W>) -> fmt::Result {
        let made = self.0;
        match made.told {
            Ok(Told::Done) => f.write_str("done"),
            Ok(Told::Granted(packet)) => write!(f, "{}", Granted(packet)),
            Ok(Told::Length(length)) => write!(f, "{}", length.0),
            Ok(Told::Report(figures)) => write!(f, "{}", figures.largest_free_region.0),
            Ok(Told::Shown(many)) => write!(f, "{}", Bytes(&made.shown[..many.min(BYTES)])),
            Err(why) => write!(f, "refusal {}", why.number()),
        }
    }
}
