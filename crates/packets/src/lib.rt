// A packet layer over two stores of bytes, one on the chip and one outside it, each with an allocator of its own. What is here are its values: which
// store, a packet, why a call is refused, and what a call leaves. Setup, hand back, fill and audit answer `Result<(), PacketRefusal>`, a
// take `Result<Packet, PacketRefusal>`, the questions `Result<Size, PacketRefusal>` and `Result<StorageReport, PacketRefusal>`; specs/ has what they
// mean, what each call promises, and what holds of every run.
#![tactic(auto)]

ghost use Rattle.std.specs.Prelude.{◌≡◌, refl};
ghost use Rattle.ledger.specs.Ledger.{done, length_is, reported};
ghost use Rattle.packets.specs.Calls.{Answered, packet, plain};
ghost use Rattle.packets.specs.Answers.{why_number, refusal_in, says, from_store};
ghost use Rattle.packets.specs.Stores.{one_at, other};
ghost use Rattle.packets.specs.ByNumber.{store_named, store_number, packet_held};
ghost use Rattle.packets.specs.declared.PacketRefusal.TheVariants.{OfStore};

use answers::{Allocation, Handle, Refusal, StorageReport};
use small_float::Size;

// Which store holds a packet.
#[derive(Clone, Copy, Debug, PartialEq, Eq)]
pub enum Store {
    OnChip,
    External,
}

// 0 is on chip, any other number external.
impl From<u32> for Store {
    ghost from_gives = { λ n store. store ≡ store_named n };

    fn from(n: u32) -> Store {
        if n == 0 {
            Store::OnChip
        } else {
            Store::External
        }
    }
}

impl From<Store> for u32 {
    ghost from_gives = { λ store n. n ≡ store_number store };

    fn from(store: Store) -> u32 {
        match store {
            Store::OnChip => 0,
            Store::External => 1,
        }
    }
}

// A packet is named by the store that holds it and by its span there: offset and handle.
#[derive(Clone, Copy, Debug, PartialEq, Eq)]
pub struct Packet {
    pub store: Store,
    pub span: Allocation,
}

impl Packet {
    // The packet of this offset and this record.
    pub fn named(store: Store, offset: u32, handle: u32) -> Packet
        ensures { result ≡ packet_held store offset handle }
    {
        Packet {
            store,
            span: Allocation {
                offset,
                metadata: Handle(handle),
            },
        }
    }
}

// Why a call is refused.
#[derive(Clone, Copy, Debug, PartialEq, Eq)]
pub enum PacketRefusal {
    // 9: a store is shorter in bytes than its allocator's size
    StoreTooShort,
    // the refusal of the store's own call, with its number
    OfStore(Refusal),
    // 17: more bytes than the packet holds
    TooManyBytes,
}

impl PacketRefusal {
    // The documents' number.
    pub fn number(self) -> u32
        ensures { result ≡ why_number self }
    {
        match self {
            PacketRefusal::StoreTooShort => 9,
            PacketRefusal::OfStore(refusal) => refusal.number(),
            PacketRefusal::TooManyBytes => 17,
        }
    }
}

impl From<Refusal> for PacketRefusal {
    ghost from_gives = { λ refusal why. why ≡ OfStore refusal };

    fn from(refusal: Refusal) -> PacketRefusal {
        PacketRefusal::OfStore(refusal)
    }
}

// What an allocator's call answered, as an answer of the layer's call that made it.
pub fn of_store<T: Drop>(answer: Result<T, Refusal>) -> Result<T, PacketRefusal>
    ensures { result ≡ from_store answer }
{
    Ok(answer?)
}

// What a call that is not refused says, which is no refusal.
pub trait Said {
    ghost said: { Self → Answered };

    ghost no_refusal: { (x : Self) → refusal_in (said x) ≡ 0 };
}

// Setup, hand back, fill and audit.
impl Said for () {
    ghost said = { λ _. plain done };

    ghost no_refusal = { λ _. refl };
}

// Take: the packet says which store.
impl Said for Packet {
    ghost said = { λ p. packet p.store p.span.offset p.span.metadata.0 };

    ghost no_refusal = { λ _. refl };
}

// A packet's length.
impl Said for Size {
    ghost said = { λ size. plain (length_is size.0) };

    ghost no_refusal = { λ _. refl };
}

// The report of one store.
impl Said for StorageReport {
    ghost said = { λ report. plain (reported report.total_free_space.0 report.largest_free_region.0) };

    ghost no_refusal = { λ _. refl };
}

// The documents' number of the refusal that a call answered, 0 where it was not refused.
pub fn number<T: Said + Drop>(answer: Result<T, PacketRefusal>) -> u32
    ensures { result ≡ refusal_in (says T.said answer) }
{
    match answer {
        Ok(_) => 0,
        Err(why) => why.number(),
    }
}

// One for each store.
#[derive(Clone, Copy)]
pub struct Both<H> {
    pub on_chip: H,
    pub external: H,
}

impl<H: Copy> Both<H> {
    // The one of the store that is meant.
    pub fn at(self, store: Store) -> H
        ensures { result ≡ one_at store self.on_chip self.external }
    {
        match store {
            Store::OnChip => self.on_chip,
            Store::External => self.external,
        }
    }

    // The one of the other store.
    pub fn beside(self, store: Store) -> H
        ensures { result ≡ one_at (other store) self.on_chip self.external }
    {
        match store {
            Store::OnChip => self.external,
            Store::External => self.on_chip,
        }
    }

    // Both, with the one of the store that is meant changed.
    pub fn with(self, store: Store, one: H) -> Both<H>
        ensures on_chip { result.on_chip ≡ one_at store one self.on_chip }
        ensures external { result.external ≡ one_at store self.external one }
    {
        match store {
            Store::OnChip => Both {
                on_chip: one,
                external: self.external,
            },
            Store::External => Both {
                on_chip: self.on_chip,
                external: one,
            },
        }
    }
}

// What a call answered, and what it leaves of a head or of both: the scalars where the rest is lent, the whole head where it comes by value.
#[derive(Clone, Copy)]
pub struct Outcome<T, H> {
    pub answer: Result<T, PacketRefusal>,
    pub left: H,
}
