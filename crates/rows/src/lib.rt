// Rows of A (docs/RULES.md, 4.6), and the modulus by which words are taken mod q.
#![tactic(auto)]

ghost use Rattle.std.specs.Prelude.{◌≡◌, ◌<◌, length};
ghost use Rattle.rows.specs.Row.{row_words, row};

use sets::Set;
use shake::Sponge;
use words::Modulus;

// q of a set.
pub fn modulus(set: Set) -> Modulus
    ensures { result ≡ set.p.q }
{
    Modulus::new((set.p.q - 1) as u16)
}

// The words of row i as SHAKE128 gives them, as many as out holds.
fn row_words(seed: &[u8], i: usize, out: &mut [u16])
    requires { i < 65536 }
    ensures { out.new ≡ row_words (length out.old) seed.now i }
{
    let number = (i as u16).to_le_bytes();
    let sponge = Sponge::new(168);
    let sponge = sponge.absorb(&number);
    let sponge = sponge.absorb(seed);
    let sponge = sponge.finish();
    sponge.squeeze_words(out);
}

// Row i of A.
pub fn row(set: Set, seed: &[u8], i: usize, out: &mut [u16])
    requires { (i < 65536) × (length out.old ≡ set.p.n) }
    ensures { out.new ≡ row set.p seed.now i }
{
    row_words(seed, i, out);
    modulus(set).low_all(out);
}
