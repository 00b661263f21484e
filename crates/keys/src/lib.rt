// The public key of a seed and the matrices behind it, where all lengths are right (docs/RULES.md, 4.8).
#![tactic(auto)]

ghost use Rattle.std.specs.Prelude.{◌≡◌, length};
ghost use Rattle.scheme.specs.KeyGen.{key_seed_a};
ghost use Rattle.keys.specs.Made.{MatrixSized, MatrixMade, PublicMade};

use codec::pack;
use hashes::{draw, hash};
use products::mul_add_as_plus_e_from_seed;
use sets::Set;

// Stays: noise and work are two parameters; a struct of both was tried here: the borrow checker does not cover the call that is lent two parts of noise and one of work.
// The key's matrices, where seedA is known. noise: S, E. work: B, then a row of A.
pub fn key_matrix(set: Set, seed: &[u8], seed_a: &[u8], noise: &mut [u16], work: &mut [u16])
    requires { MatrixSized set.p (length seed.now) (length noise.old) (length work.old) × (seed_a.now ≡ key_seed_a set.p seed.now) }
    ensures { MatrixMade set.p seed.now noise.old work.old noise.new work.new }
{
    let from = set.p.secret;
    let to = from + set.p.seedse;
    let m = 8 * set.p.n;
    let e = 16 * set.p.n;
    let f = 9 * set.p.n;
    draw(set, 0x5f, &seed[from..to], &mut noise[0..e]);
    mul_add_as_plus_e_from_seed(set, seed_a, &noise[0..m], &noise[m..e], &mut work[0..f]);
}

// The public key: seedA, then B packed. The scratches as in `key_matrix`.
pub fn public_key(set: Set, seed: &[u8], pk: &mut [u8], noise: &mut [u16], work: &mut [u16])
    requires { MatrixSized set.p (length seed.now) (length noise.old) (length work.old) × (length pk.old ≡ set.p.pk) }
    ensures { PublicMade set.p seed.now noise.old work.old pk.new noise.new work.new }
{
    let from = set.p.secret + set.p.seedse;
    let to = set.p.seed;
    let m = 8 * set.p.n;
    let (seed_a, b) = pk.split_at_mut(16);
    hash(set, &[&seed[from..to]], seed_a);
    key_matrix(set, seed, seed_a, noise, work);
    pack(set.p.d, &work[0..m], b);
}
