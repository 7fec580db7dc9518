// Seeded draws: a linear congruential generator, and the numbers that are made of its seeds. Whoever draws keeps the seed.
#![tactic(auto)]

ghost use Rattle.std.specs.Prelude.{◌≡◌};
ghost use Rattle.draws.specs.Draws.{next_seed, high_half, high_below, whole_word};

// The seed after this one.
pub fn next(seed: u32) -> u32
    ensures { result ≡ next_seed seed }
{
    seed.wrapping_mul(1664525).wrapping_add(1013904223)
}

// The low bits of a seed come round again soon; the high half is good enough for sizes.
pub fn high_half(seed: u32) -> u32
    ensures { result ≡ high_half seed }
{
    seed / 65536
}

// A number below n, by the high half, so n is best at most 65,536; 0 where nothing is below n.
pub fn below(seed: u32, n: u32) -> u32
    ensures { result ≡ high_below seed n }
{
    if n == 0 { 0 } else { high_half(seed) % n }
}

// All 32 bits of a word: the high halves of the next two seeds.
#[tactic(auto, unfolding(crate::specs::Draws::whole_word))]
pub fn word(seed: u32) -> u32
    ensures { result ≡ whole_word seed }
{
    let first = next(seed);
    high_half(first) * 65536 + high_half(next(first))
}
