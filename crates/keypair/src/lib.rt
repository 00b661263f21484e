// Key generation from a seed, where all lengths are right (docs/RULES.md, 4.8).
#![tactic(auto)]

ghost use Rattle.std.specs.Prelude.{◌≡◌, ◌++◌, length};
ghost use Rattle.bits.specs.Little.{bytes_of};
ghost use Rattle.lengths.specs.Sized.{KeypairSized};
ghost use Rattle.scheme.specs.Parts.{pkh_of};
ghost use Rattle.scheme.specs.KeyGen.{seed_s};
ghost use Rattle.keypair.specs.Made.{SecretSized, KeypairMade};

use hashes::hash;
use keys::public_key;
use sets::Set;
use words::{bytes_of, copy};

// The secret key: s, the public key, S with all 16 bits of its words, pkh.
fn secret_key(set: Set, seed: &[u8], pk: &[u8], s: &[u16], sk: &mut [u8])
    requires { SecretSized set.p (length seed.now) (length pk.now) (length s.now) (length sk.old) }
    ensures { sk.new ≡ seed_s set.p seed.now ++ (pk.now ++ (bytes_of s.now ++ pkh_of set.p pk.now)) }
{
    let (random, rest) = sk.split_at_mut(set.p.secret);
    let (public, rest) = rest.split_at_mut(set.p.pk);
    let (matrix, pkh) = rest.split_at_mut(16 * set.p.n);
    copy(&seed[0..set.p.secret], random);
    copy(pk, public);
    bytes_of(s, matrix);
    hash(set, &[pk], pkh);
}

// Stays: noise and work are two parameters, as the steps below take them; crates/keys says where a struct of both stopped.
// Both keys of the seed, which is zeroed, as are both scratches up to the set's lengths.
pub fn generate(
    set: Set,
    seed: &mut [u8],
    pk: &mut [u8],
    sk: &mut [u8],
    noise: &mut [u16],
    work: &mut [u16],
)
    requires { KeypairSized set.p (length seed.old) (length pk.old) (length sk.old) (length noise.old) (length work.old) }
    ensures { KeypairMade set.p seed.old noise.old work.old
        seed.new pk.new sk.new noise.new work.new }
{
    let m = 8 * set.p.n;
    public_key(set, seed, pk, noise, work);
    secret_key(set, seed, pk, &noise[0..m], sk);
    seed.fill(0);
    noise[..set.p.noise].fill(0);
    work[..set.p.work].fill(0);
}
