// README's worked example: a packet taken, filled, read and handed back, in an on-chip store of 16 bytes and an external one of 64. All bytes are 7 at
// first, which stands for an old reading that must never show.
#![tactic(auto)]

mod printing;

use packet_copies::making::Asked;
use packet_copies::questions::Question;
use packet_copies::setting_up::Wanted;
use packet_copies::sides::Sides;
use packet_copies::told::{Made, Told};
use packet_copies::{making, sides};
use packets::{Both, Packet, PacketRefusal, Store};
use printing::Answer;

// One call and its answer, printed, a row of two columns.
fn call(rt: &impl Print, text: &str, asked: Asked, before: Sides) -> Made {
    let made = making::make(asked, before);
    let _ = println!(rt; "{text:<29}{}", Answer(&made));
    made
}

fn set_up(rt: &impl Print) -> Sides {
    let before = Both {
        on_chip: sides::no_store(16),
        external: sides::no_store(64),
    };
    let on_chip = Wanted {
        size: 16,
        max_allocs: 4,
    };
    let external = Wanted {
        size: 64,
        max_allocs: 8,
    };
    let both = Asked::SetUpBoth(on_chip, external);
    let made = call(rt, "set up 16 with 4, 64 with 8", both, before);
    made.after
}

// The packet that was granted; where none was, a name that no store has.
fn packet_in(told: Result<Told, PacketRefusal>) -> Packet {
    match told {
        Ok(Told::Granted(packet)) => packet,
        _ => Packet::named(Store::External, 0, u32::MAX),
    }
}

fn read(rt: &impl Print, packet: Packet, before: Sides) -> Sides {
    let made = call(rt, "read it", Asked::Ask(Question::Read(packet)), before);
    made.after
}

fn ask_length(rt: &impl Print, packet: Packet, before: Sides) -> Sides {
    let made = call(
        rt,
        "its length",
        Asked::Ask(Question::Length(packet)),
        before,
    );
    made.after
}

// Filled with three bytes, read, and not filled with more than it holds.
fn fill(rt: &impl Print, packet: Packet, before: Sides) -> Sides {
    let fresh = read(rt, packet, before);
    let three = call(
        rt,
        "fill it with 61 62 63",
        Asked::Fill(packet, 3, 61),
        fresh,
    );
    let filled = read(rt, packet, three.after);
    let seven = call(
        rt,
        "fill it with 7 bytes",
        Asked::Fill(packet, 7, 1),
        filled,
    );
    ask_length(rt, packet, seven.after)
}

// Handed back, it cannot be read; granted again, it does not show what was in it.
fn hand_back(rt: &impl Print, packet: Packet, before: Sides) {
    let back = call(rt, "hand it back", Asked::HandBack(packet), before);
    let left = read(rt, packet, back.after);
    let left = ask_length(rt, packet, left);
    let again = call(rt, "take 5", Asked::Take(5), left);
    read(rt, packet_in(again.told), again.after);
}

fn main(rt: HostRuntime) {
    let before = set_up(&rt);
    let taken = call(&rt, "take 6", Asked::Take(6), before);
    let packet = packet_in(taken.told);
    let filled = fill(&rt, packet, taken.after);
    let other = call(&rt, "take 12", Asked::Take(12), filled);
    hand_back(&rt, packet, other.after);
}
