// The same through the packet layer: a packet taken and handed back, or filled.
use crate::bare;
use packets::{Both, Packet};
use records::totals::Totals;
use small_float::Size;

// The scalars of both heads, and the packet that is out, if one is.
#[derive(Clone, Copy)]
struct Desk {
    heads: Both<Totals>,
    packet: Option<Packet>,
}

#[derive(Clone, Copy)]
enum Turn {
    Take(Size),
    Back(Packet),
    Fill(Packet),
}

fn make(
    turn: Turn,
    heads: Both<Totals>,
    new: &[u8],
    on_bin_indices: &mut [u32; 256],
    on_used_bins: &mut [u8; 32],
    on_nodes: &mut [u32; 5600],
    on_free_nodes: &mut [u32; 700],
    on_bytes: &mut [u8; 65536],
    ex_bin_indices: &mut [u32; 256],
    ex_used_bins: &mut [u8; 32],
    ex_nodes: &mut [u32; 5600],
    ex_free_nodes: &mut [u32; 700],
    ex_bytes: &mut [u8; 65536],
) -> Desk {
    match turn {
        Turn::Take(size) => {
            let taken = packet_taking::take(
                size,
                heads.on_chip,
                on_bin_indices,
                on_used_bins,
                on_nodes,
                on_free_nodes,
                on_bytes,
                heads.external,
                ex_bin_indices,
                ex_used_bins,
                ex_nodes,
                ex_free_nodes,
                ex_bytes,
            );
            Desk {
                heads: taken.left,
                packet: taken.answer.ok(),
            }
        }
        Turn::Back(packet) => {
            let returned = packet_giving::hand_back(
                packet,
                heads.on_chip,
                on_bin_indices,
                on_used_bins,
                on_nodes,
                on_free_nodes,
                on_bytes,
                heads.external,
                ex_bin_indices,
                ex_used_bins,
                ex_nodes,
                ex_free_nodes,
                ex_bytes,
            );
            Desk {
                heads: returned.left,
                packet: None,
            }
        }
        Turn::Fill(packet) => {
            let _ = packet_filling::fill(
                packet,
                new,
                heads.on_chip,
                on_bin_indices,
                on_used_bins,
                on_nodes,
                on_free_nodes,
                on_bytes,
                heads.external,
                ex_bin_indices,
                ex_used_bins,
                ex_nodes,
                ex_free_nodes,
                ex_bytes,
            );
            Desk {
                heads,
                packet: Some(packet),
            }
        }
    }
}

// What comes next: a packet is taken where none is out; one that is out is filled, or handed back.
fn next(packet: Option<Packet>, filling: bool, size: Size) -> Turn {
    match packet {
        None => Turn::Take(size),
        Some(packet) if filling => Turn::Fill(packet),
        Some(packet) => Turn::Back(packet),
    }
}

// So many of them, in stores of 65,536 bytes with 700 records each.
fn run(
    filling: bool,
    length: u32,
    turns: u32,
    from: &[u8; 4096],
    on_nodes: &mut [u32; 5600],
    on_free_nodes: &mut [u32; 700],
    on_bytes: &mut [u8; 65536],
    ex_nodes: &mut [u32; 5600],
    ex_free_nodes: &mut [u32; 700],
    ex_bytes: &mut [u8; 65536],
) -> u8 {
    let mut on_bin_indices = [0u32; 256];
    let mut on_used_bins = [0u8; 32];
    let mut ex_bin_indices = [0u32; 256];
    let mut ex_used_bins = [0u8; 32];
    let started = packet_starting::set_up_both(
        Size(65536),
        700,
        &mut on_bin_indices,
        &mut on_used_bins,
        on_nodes,
        on_free_nodes,
        on_bytes,
        Size(65536),
        700,
        &mut ex_bin_indices,
        &mut ex_used_bins,
        ex_nodes,
        ex_free_nodes,
        ex_bytes,
    );
    let mut desk = Desk {
        heads: started.left,
        packet: None,
    };
    for i in 1..=turns {
        desk = make(
            next(desk.packet, filling, Size(length)),
            desk.heads,
            bare::piece(from, i, length),
            &mut on_bin_indices,
            &mut on_used_bins,
            on_nodes,
            on_free_nodes,
            on_bytes,
            &mut ex_bin_indices,
            &mut ex_used_bins,
            ex_nodes,
            ex_free_nodes,
            ex_bytes,
        );
    }
    bare::first(on_bytes)
}

pub fn packets(filling: bool, length: u32, turns: u32) -> u8 {
    let from = [1u8; 4096];
    let mut on_nodes = [0u32; 5600];
    let mut on_free_nodes = [0u32; 700];
    let mut on_bytes = [0u8; 65536];
    let mut ex_nodes = [0u32; 5600];
    let mut ex_free_nodes = [0u32; 700];
    let mut ex_bytes = [0u8; 65536];
    run(
        filling,
        length,
        turns,
        &from,
        &mut on_nodes,
        &mut on_free_nodes,
        &mut on_bytes,
        &mut ex_nodes,
        &mut ex_free_nodes,
        &mut ex_bytes,
    )
}
