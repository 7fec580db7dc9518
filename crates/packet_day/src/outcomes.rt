// What came of a call, held to the model, folded into the digest and counted.
use crate::nodes::{Held, NODES, Node};
use crate::runs;
use crate::told::{Told, raise};
use answers::Refusal;
use packets::{Packet, PacketRefusal, Store};
use small_float::Size;

// What the digest gets for what was done; a grant's store is 0 or 1.
enum Done {
    Refused = 2,
    HandedBack = 3,
    Filled = 4,
    TooLong = 5,
    WrongName = 6,
}

// What it gets where there is no length: the independent program's digest has this number.
const NO_LENGTH: u32 = u32::MAX;

pub fn of_setup(told: &mut Told, answer: Result<(), PacketRefusal>) {
    told.hold(answer.is_ok());
}

fn of_refusal(told: &mut Told, why: PacketRefusal) {
    told.fold(Done::Refused as u32);
    told.fold(why.number());
    raise(&mut told.counts.refused);
    match why {
        PacketRefusal::OfStore(Refusal::NoSpareRecord) => raise(&mut told.counts.as_3),
        PacketRefusal::OfStore(Refusal::NoRegion) => raise(&mut told.counts.as_4),
        _ => raise(&mut told.counts.differing),
    }
}

fn of_grant(told: &mut Told, packet: Packet) {
    match packet.store {
        Store::OnChip => raise(&mut told.counts.on_chip),
        Store::External => raise(&mut told.counts.external),
    }
    told.fold(u32::from(packet.store));
    told.fold(packet.span.offset);
    told.fold(packet.span.metadata.0);
}

// Every byte of a fresh packet is 255.
pub fn of_take(
    told: &mut Told,
    node: &mut Node,
    length: u32,
    answer: Result<Packet, PacketRefusal>,
) {
    match answer {
        Ok(packet) => {
            node.held = Some(Held { packet, length });
            node.front(length).fill(255);
            of_grant(told, packet);
        }
        Err(why) => of_refusal(told, why),
    }
}

pub fn of_back(
    told: &mut Told,
    node: &mut Node,
    packet: Packet,
    answer: Result<(), PacketRefusal>,
) {
    node.held = None;
    node.last = Some(packet);
    told.hold(answer.is_ok());
    told.fold(Done::HandedBack as u32);
    raise(&mut told.counts.back);
}

pub fn of_wrong_name(told: &mut Told, answer: Result<(), PacketRefusal>) {
    told.hold(matches!(
        answer,
        Err(PacketRefusal::OfStore(Refusal::StartsElsewhere))
    ));
    told.fold(Done::WrongName as u32);
    raise(&mut told.counts.wrong_name);
}

fn of_too_many(told: &mut Told, answer: Result<(), PacketRefusal>) {
    told.hold(matches!(answer, Err(PacketRefusal::TooManyBytes)));
    told.fold(Done::TooLong as u32);
    raise(&mut told.counts.too_long);
}

// So many bytes, from this one up.
pub fn of_fill(
    told: &mut Told,
    node: &mut Node,
    held: Held,
    many: u32,
    first: u8,
    answer: Result<(), PacketRefusal>,
) {
    if held.length < many {
        return of_too_many(told, answer);
    }
    runs::write(node.front(many), first);
    told.hold(answer.is_ok());
    told.fold(Done::Filled as u32);
    told.fold(many);
    raise(&mut told.counts.filled);
}

// All bytes of a part that was read go into the digest.
fn of_part(told: &mut Told, part: &[u8], must: &[u8]) {
    told.fold_bytes(part);
    told.hold(part == must);
}

fn fold_length(told: &mut Told, part: &[u8]) {
    told.fold((part.len() % 4294967296) as u32);
}

// A packet that is held. At the end of the day the lengths are left out of the digest.
pub fn of_read(told: &mut Told, ended: bool, part: &[u8], must: &[u8]) {
    if !ended {
        fold_length(told, part);
    }
    of_part(told, part, must);
    raise(&mut told.counts.read);
}

// A packet that went back: another that has its name by now is shown, otherwise nothing.
pub fn of_stale(
    told: &mut Told,
    packet: Packet,
    part: &[u8],
    answer: Result<Size, PacketRefusal>,
    nodes: &[Node; NODES],
) {
    let holder = nodes.iter().find(|node| node.holds(packet));
    fold_length(told, part);
    of_part(told, part, holder.map_or(&[], |node| node.bytes()));
    let length = answer.map_or(NO_LENGTH, |size| size.0);
    let must = holder
        .and_then(|node| node.held)
        .map_or(NO_LENGTH, |held| held.length);
    told.fold(length);
    told.hold(length == must);
    raise(&mut told.counts.stale);
    if holder.is_some() {
        raise(&mut told.counts.shown_again);
    }
}
