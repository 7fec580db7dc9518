// A packet call that comes as a value, made on a copy of both stores.
use crate::questions::Question;
use crate::setting_up::Wanted;
use crate::sides::Sides;
use crate::told::Made;
use crate::{filling, heads, questions, setting_up};
use packets::{Packet, Store};
use small_float::Size;

#[derive(Clone, Copy)]
pub enum Asked {
    // a store, its size and its count of records
    SetUp(Store, u32, u32),
    SetUpBoth(Wanted, Wanted),
    Take(u32),
    HandBack(Packet),
    // so many bytes, the first of which is this; each other is one more
    Fill(Packet, usize, u8),
    Ask(Question),
}

pub fn make(asked: Asked, before: Sides) -> Made {
    match asked {
        Asked::SetUp(store, size, count) => setting_up::set_up(store, Size(size), count, before),
        Asked::SetUpBoth(on, ex) => setting_up::set_up_both(on, ex, before),
        Asked::Take(size) => heads::take(Size(size), before),
        Asked::HandBack(packet) => heads::hand_back(packet, before),
        Asked::Fill(packet, many, first) => {
            filling::fill(packet, filling::counted_from(first), many, before)
        }
        Asked::Ask(question) => questions::ask(question, before),
    }
}
