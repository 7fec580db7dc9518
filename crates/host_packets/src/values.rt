// Stores, packets and answers in plain numbers.
ghost use Rattle.std.specs.Prelude.{◌≡◌};
ghost use Rattle.ledger.specs.Calls.{Call};
ghost use Rattle.packets.specs.Answers.{why_number, says, grant_says};
ghost use Rattle.packets.specs.Calls.{plain};
ghost use Rattle.host_values.specs.Told.{refused_by};
ghost use Rattle.host_packets.specs.Flat.{packet_named, packet_told, no_packet, told_in};

use host_values::{Shown, Told};
use packets::{PacketRefusal, Store};

// A packet that was granted, or the refusal's number: a struct for C.
#[repr(C)]
#[derive(Clone, Copy)]
pub struct Packet {
    pub number: u32,
    pub store: u32,
    pub offset: u32,
    pub handle: u32,
}

// A packet that came as three numbers.
pub fn packet_of(store: u32, offset: u32, handle: u32) -> packets::Packet
    ensures { result ≡ packet_named store offset handle }
{
    packets::Packet::named(Store::from(store), offset, handle)
}

fn granted(packet: packets::Packet) -> Packet
    ensures { result ≡ packet_told (grant_says (Ok packet)) }
{
    Packet {
        number: 0,
        store: u32::from(packet.store),
        offset: packet.span.offset,
        handle: packet.span.metadata.0,
    }
}

fn no_packet(why: PacketRefusal) -> Packet
    ensures { result ≡ no_packet (why_number why) }
{
    Packet {
        number: why.number(),
        store: 0,
        offset: 0,
        handle: 0,
    }
}

pub fn of_grant(answer: Result<packets::Packet, PacketRefusal>) -> Packet
    ensures { result ≡ packet_told (grant_says answer) }
{
    match answer {
        Ok(packet) => granted(packet),
        Err(why) => no_packet(why),
    }
}

fn of_refusal(why: PacketRefusal) -> Told
    ensures { result ≡ refused_by (why_number why) }
{
    Told {
        number: why.number(),
        first: 0,
        second: 0,
    }
}

// What a question of one store tells.
pub fn of_told<T: Shown>(answer: Result<T, PacketRefusal>) -> Told
    ensures { (c : Call) → result ≡ told_in c (says (λ x. plain (T.said x)) answer) }
{
    match answer {
        Ok(told) => told.shown(),
        Err(why) => of_refusal(why),
    }
}
