// A strip of the store: its regions in address order, each with its record and its length, parted by `=` if it is live and by `.` if it is
// free. It is read from the words of the table of records, whose layout docs/TABLES.md gives.
use records::nodes;
use records::nodes::{Field, NONE};
use std::fmt;

// The table of records, a record that holds a region, and how many records there are.
#[derive(Clone, Copy)]
pub struct Strip<'a> {
    pub nodes: &'a [u32],
    pub record: u32,
    pub count: u32,
}

impl Strip<'_> {
    fn word(&self, record: u32, k: Field) -> u32 {
        nodes::shown(self.nodes, record, k)
    }

    // The first record in address order; a chain of count records has no more links than that to go.
    fn first(&self) -> u32 {
        let mut r = self.record;
        for _ in 0..self.count {
            let before = self.word(r, Field::NeighborPrev);
            if before != NONE {
                r = before;
            }
        }
        r
    }
}

impl fmt::Display for Strip<'_> {
    fn fmt<W: fmt::Write>(&self, f: &mut fmt::Formatter<W>) -> fmt::Result {
        let mut r = self.first();
        f.write_str("|")?;
        for _ in 0..self.count {
            if r != NONE {
                let mark = if self.word(r, Field::Used) == 0 {
                    '.'
                } else {
                    '='
                };
                let length = self.word(r, Field::DataSize);
                write!(f, "{r}{mark}{length}|")?;
                r = self.word(r, Field::NeighborNext);
            }
        }
        Ok(())
    }
}
