// The set's SHAKE over slices in a row, and the set's noise, stored (docs/RULES.md, 4.5.3 and 4.8 to 4.10).
#![tactic(auto)]

ghost use Rattle.std.specs.Prelude.{◌≡◌, ◌∷◌, ◌*◌, length};
ghost use Rattle.sponge.specs.Parts.{joined};
ghost use Rattle.scheme.specs.Parts.{hash, stored, stored_samples, noise_words};

use noise::{Distribution, Noise640, Noise976, Noise1344};
use sets::{Chi, Set};
use sponge::{shake, shake_words};

// `out` is filled with the hash of the parts in a row.
#[tactic(auto, unfolding(scheme::specs::Parts::hash))]
pub fn hash(set: Set, parts: &[&[u8]], out: &mut [u8])
    ensures { out.new ≡ hash set.p (joined parts.now) (length out.old) }
{
    shake(set.p.rate, parts, out);
}

// A signed number mod 2^16.
// Stays: the `cast_unsigned` of std branches on the sign, and no word of noise is branched on (crates/noise).
fn stored(x: i16) -> u16
    ensures { result ≡ stored x }
{
    ((x as i32 + 65536) as u32 % 65536) as u16
}

// Each word becomes the sample that it draws, stored. The distribution is a type, so that each table has a loop of its own: a table picked inside the loop would be picked again for each word.
fn store_each<D: Distribution>(s: &mut [u16])
    ensures { s.new ≡ stored_samples D.chi s.old }
{
    for x in s {
        *x = stored(D::sample(*x));
    }
}

// Each word becomes the sample that it draws, stored mod 2^16, by the table of a distribution.
pub fn store_samples(chi: Chi, s: &mut [u16])
    ensures { s.new ≡ stored_samples chi s.old }
{
    match chi {
        Chi::Frodo640 => store_each::<Noise640>(s),
        Chi::Frodo976 => store_each::<Noise976>(s),
        Chi::Frodo1344 => store_each::<Noise1344>(s),
    }
}

// `out` is filled with noise: the hash of the tag and the seed in words, each sampled by the set's table and stored mod 2^16.
pub fn draw(set: Set, tag: u8, seed: &[u8], out: &mut [u16])
    ensures { out.new ≡ noise_words set.p (hash set.p (tag ∷ seed.now) (2 * length out.old)) }
{
    shake_words(set.p.rate, &[&[tag], seed], out);
    store_samples(set.p.chi, out);
}
