// A stream that is full after so many prints: those behind them fail. How many were tried is counted.
use std::cell::Cell;
use std::fmt::Display;
use std::io;
use std::io::ErrorKind;

#[derive(Drop)]
pub struct Full<'a, R> {
    to: &'a R,
    room: u32,
    tried: Cell<u32>,
}

impl<'a, R: Print> Full<'a, R> {
    pub fn new(to: &'a R, room: u32) -> Full<'a, R> {
        Full {
            to,
            room,
            tried: Cell::new(0),
        }
    }

    pub fn tried(&self) -> u32 {
        self.tried.get()
    }

    fn step(&self) -> io::Result<()> {
        let before = self.tried.get();
        self.tried.set(before.saturating_add(1));
        if before < self.room {
            Ok(())
        } else {
            Err(io::Error::from(ErrorKind::StorageFull))
        }
    }
}

impl<'a, R: Print> Print for Full<'a, R> {
    fn print<D: Display + Drop>(&self, value: D) -> io::Result<()> {
        self.step()?;
        self.to.print(value)
    }

    fn println<D: Display + Drop>(&self, value: D) -> io::Result<()> {
        self.step()?;
        self.to.println(value)
    }

    fn write_all(&self, bytes: &[u8]) -> io::Result<()> {
        self.step()?;
        self.to.write_all(bytes)
    }
}
