// Sampling of noise (docs/RULES.md, 4.5): a word of random bits becomes a signed number, by the set's table. No word is branched on.
#![tactic(auto)]

ghost use Rattle.std.specs.Prelude.{◌≡◌, ◌-◌, ◌≤◌, ◌<◌, ltb, nat_abs, length};
ghost use Rattle.sets.specs.declared.Chi.{Chi};
ghost use Rattle.sets.specs.declared.Chi.TheVariants.{Frodo640, Frodo976, Frodo1344};
ghost use Rattle.noise.specs.Noise.{one, signed, sampled, table_of, largest_of};

use sets::Chi;

const FRODO640: [u16; 13] = [
    4643, 13363, 20579, 25843, 29227, 31145, 32103, 32525, 32689, 32745, 32762, 32766, 32767,
];

const FRODO976: [u16; 11] = [
    5638, 15915, 23689, 28571, 31116, 32217, 32613, 32731, 32760, 32766, 32767,
];

const FRODO1344: [u16; 7] = [9142, 23462, 30338, 32361, 32725, 32765, 32767];

// 1 where an entry is below t, else 0.
// Stays: a carry and no `entry < t`, and two products below and no `if`, since no word is branched on.
fn below(entry: u16, t: u16) -> u16
    ensures { (result ≡ one (ltb entry t)) × (result ≤ 1) }
{
    ((t as u32 + 65535 - entry as u32) / 65536) as u16
}

// size, or -size where odd is 1.
fn with_sign(odd: u16, size: u16) -> i16
    requires { (odd < 2) × (size < 32768) }
    ensures { result ≡ signed odd size }
{
    let even = 1 - odd;
    let plus = even * size;
    let minus = odd * size;
    plus as i16 - minus as i16
}

// The noise of one word, by a table, and how large it can be.
fn sample_word(table: &[u16], r: u16) -> i16
    requires { (0 < length table.now) × (length table.now ≤ 16) }
    ensures { (result ≡ sampled table.now r) × (nat_abs result ≤ length table.now - 1) }
{
    let t = r / 2;
    let counted = table.len() - 1;
    let mut size: u16 = 0;
    for &entry in &table[..counted] {
        size += below(entry, t);
    }
    with_sign(r % 2, size)
}

// A distribution as a type, so that code over it is compiled for its table alone.
pub trait Distribution {
    ghost chi: { Chi };

    // The noise of one word, by the distribution's table, and how large it can be.
    fn sample(r: u16) -> i16
        ensures { (result ≡ sampled (table_of chi) r) × (nat_abs result ≤ largest_of chi) };
}

pub struct Noise640;

impl Distribution for Noise640 {
    ghost chi = { Frodo640 };

    fn sample(r: u16) -> i16 {
        sample_word(&FRODO640, r)
    }
}

pub struct Noise976;

impl Distribution for Noise976 {
    ghost chi = { Frodo976 };

    fn sample(r: u16) -> i16 {
        sample_word(&FRODO976, r)
    }
}

pub struct Noise1344;

impl Distribution for Noise1344 {
    ghost chi = { Frodo1344 };

    fn sample(r: u16) -> i16 {
        sample_word(&FRODO1344, r)
    }
}

// The noise of one word, by the table of a distribution, and how large it can be.
pub fn sample(chi: Chi, r: u16) -> i16
    ensures { (result ≡ sampled (table_of chi) r) × (nat_abs result ≤ largest_of chi) }
{
    match chi {
        Chi::Frodo640 => Noise640::sample(r),
        Chi::Frodo976 => Noise976::sample(r),
        Chi::Frodo1344 => Noise1344::sample(r),
    }
}
