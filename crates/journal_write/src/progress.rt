// The text read so far, and the records that wait to be written.
use crate::complaints::Complaint;
use calls::Call;

#[derive(Clone, Copy)]
pub struct Progress {
    // the line that is being read, and how many bytes it has; 201 stands for any number above 200
    line: [u8; 201],
    length: usize,
    // lines that have ended
    lines: u64,
    // records, and how many bytes of them wait
    records: [u8; 65536],
    waiting: usize,
}

impl Progress {
    pub fn new() -> Progress {
        Progress {
            line: [0; 201],
            length: 0,
            lines: 0,
            records: [0; 65536],
            waiting: 0,
        }
    }

    // One byte more of the line; past 200 they are not kept.
    fn keep(&mut self, byte: u8) {
        if self.length < 201 {
            self.line[self.length] = byte;
            self.length += 1;
        }
    }

    // What waits is written.
    pub fn flush(&mut self, rt: &impl Print) -> Result<(), Complaint> {
        let written = rt.write_all(journal_lines::front(&self.records, self.waiting));
        self.waiting = 0;
        written.or(Err(Complaint::Output))
    }

    // A record behind those that wait: the longest has 12 bytes, so that there is room for one after what waits is written.
    fn record(&mut self, rt: &impl Print, call: Call) -> Result<(), Complaint> {
        if 65000 <= self.waiting {
            self.flush(rt)?;
        }
        self.waiting = journal::writing::write(call, &mut self.records, self.waiting)?;
        Ok(())
    }

    // A whole line, by what it holds.
    fn end_line(&mut self, rt: &impl Print) -> Result<(), Complaint> {
        let length = self.length;
        self.length = 0;
        self.lines = self.lines.saturating_add(1);
        if 200 < length {
            return Err(Complaint::Length(self.lines));
        }
        match journal_text::reading::read_line(journal_lines::front(&self.line, length)) {
            Ok(Some(call)) => self.record(rt, call),
            Ok(None) => Ok(()),
            Err(fault) => Err(Complaint::Fault(self.lines, fault)),
        }
    }

    // The text with a byte more.
    pub fn feed(&mut self, rt: &impl Print, byte: u8) -> Result<(), Complaint> {
        if byte == b'\n' {
            return self.end_line(rt);
        }
        self.keep(byte);
        Ok(())
    }

    // The text has ended.
    pub fn at_end(&mut self, rt: &impl Print) -> Result<(), Complaint> {
        if self.length == 0 {
            return Ok(());
        }
        self.end_line(rt)
    }
}
