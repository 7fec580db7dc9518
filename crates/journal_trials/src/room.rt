// Records written where they have room and where they have none: each call at each place of short buffers. What was answered and every byte after it go
// into the sum.
use crate::counts;
use answers::{Allocation, Handle};
use calls::Call;
use small_float::Size;

// How often there was room, how often not, and the sum.
#[derive(Drop)]
struct Tried {
    room: u32,
    none: u32,
    sum: u32,
}

// What the buffers hold before.
const FILLED: u8 = 170;

impl Tried {
    fn mix(&mut self, n: u32) {
        self.sum = counts::mix(self.sum, n);
    }

    fn try_at(&mut self, call: Call, buffer: &mut [u8], at: usize) {
        buffer.fill(FILLED);
        let written = journal::writing::write(call, buffer, at);
        self.mix(journal::entry::number(written));
        match written {
            Ok(next) => {
                self.room = self.room.saturating_add(1);
                self.mix((next % 65536) as u32);
            }
            Err(_) => self.none = self.none.saturating_add(1),
        }
        for byte in buffer.iter() {
            self.mix(u32::from(*byte));
        }
    }

    // Each place of the first bytes of a buffer, and one behind them all; of each length.
    fn try_call(&mut self, call: Call) {
        let mut buffer = [0u8; 16];
        for n in 0..17 {
            for at in 0..18 {
                self.try_at(call, &mut buffer[..n], at);
            }
        }
    }
}

pub fn try_all(rt: &impl Print) {
    let mut tried = Tried {
        room: 0,
        none: 0,
        sum: 0,
    };
    let span = Allocation {
        offset: 1144201745,
        metadata: Handle(2289526357),
    };
    tried.try_call(Call::Take(Size(1144201745)));
    tried.try_call(Call::HandBack(span));
    tried.try_call(Call::SetUp(Size(1144201745), 2289526357));
    tried.try_call(Call::Reset);
    let _ = println!(rt; "room {}", tried.room);
    let _ = println!(rt; "no room {}", tried.none);
    let _ = println!(rt; "bytes {}", tried.sum);
}
