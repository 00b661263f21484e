// Encapsulation (docs/RULES.md, 4.9) in lent memory, for lengths that the caller has tested.
#![tactic(auto)]

ghost use Rattle.std.specs.Prelude.{◌≡◌, ◌+◌, ◌*◌, length, take, drop};
ghost use Rattle.codec.specs.Pack.{packed};
ghost use Rattle.lengths.specs.Sized.{EncapsSized};
ghost use Rattle.scheme.specs.Parts.{pkh_of};
ghost use Rattle.scheme.specs.Encaps.{draw, enc_seed_se, ciphertext};
ghost use Rattle.sealing.specs.Sealing.{mask_noise, mask_b, mask_c, Masked};
ghost use Rattle.encaps.specs.Made.{EncapsMade};

use codec::pack;
use hashes::hash;
use sealing::{masks, values};
use sets::Set;
use words::copy;

// Stays: noise and work are two parameters; a struct of both was tried in crates/keys: the borrow checker does not cover a call that is lent parts of both fields.
// c1 from seedA and seedSE'.
fn put_c1(set: Set, seed: &[u8], seedse: &[u8], c1: &mut [u8], noise: &mut [u16], work: &mut [u16])
    requires { (length c1.old ≡ set.p.d * set.p.n) × (length noise.old ≡ 16 * set.p.n + 64) × (length work.old ≡ 8 * set.p.n) }
    ensures { (c1.new ≡ packed set.p.d (mask_b set.p seed.now (mask_noise set.p seedse.now)))
        × Masked set.p seed.now (mask_noise set.p seedse.now) noise.new work.new }
{
    masks(set, seed, seedse, noise, work);
    pack(set.p.d, work, c1);
}

// c2 from the packed B, the message, and S' and E'' in noise.
fn put_c2(set: Set, b: &[u8], msg: &[u8], c2: &mut [u8], noise: &mut [u16], work: &mut [u16])
    requires { (length b.now ≡ set.p.d * set.p.n) × (length msg.now ≡ 8 * set.p.b) × (length c2.old ≡ set.p.d * 8) × (length noise.old ≡ 16 * set.p.n + 64) × (length work.old ≡ 64) }
    ensures { c2.new ≡ packed set.p.d (mask_c set.p b.now msg.now (take (8 * set.p.n) noise.old) (drop (16 * set.p.n) noise.old)) }
{
    values(set, b, msg, noise, work);
    pack(set.p.d, work, c2);
}

// Stays: pk, msg and salt are three parameters; in a struct each function here would take them apart again, and `encapsulate` would make it of just these three.
// The ciphertext: c1, c2 and the salt, from seedSE'.
fn seal(
    set: Set,
    pk: &[u8],
    msg: &[u8],
    salt: &[u8],
    seedse: &[u8],
    ct: &mut [u8],
    noise: &mut [u16],
    work: &mut [u16],
)
    requires { (length pk.now ≡ set.p.pk) × (length msg.now ≡ set.p.secret) × (length salt.now ≡ set.p.salt)
        × (length ct.old ≡ set.p.ct) × (length noise.old ≡ 16 * set.p.n + 64) × (length work.old ≡ 8 * set.p.n)
        × (seedse.now ≡ enc_seed_se set.p (pkh_of set.p pk.now) msg.now salt.now) }
    ensures { ct.new ≡ ciphertext set.p pk.now msg.now salt.now }
{
    let (seed_a, b) = pk.split_at(16);
    let (c1, rest) = ct.split_at_mut(set.p.d * set.p.n);
    let (c2, end) = rest.split_at_mut(set.p.d * 8);
    put_c1(set, seed_a, seedse, c1, noise, work);
    put_c2(set, b, msg, c2, noise, &mut work[0..64]);
    copy(salt, end);
}

// seedSE' and k in a row, with room for pkh.
fn draw_seeds(set: Set, pk: &[u8], msg: &[u8], salt: &[u8], pkh: &mut [u8], seeds: &mut [u8])
    requires { (length pkh.old ≡ set.p.secret) × (length seeds.old ≡ set.p.seedse + set.p.secret) }
    ensures { seeds.new ≡ draw set.p (pkh_of set.p pk.now) msg.now salt.now }
{
    hash(set, &[pk], pkh);
    hash(set, &[pkh, msg, salt], seeds);
}

// Both outputs from seedSE' and k, which stand in seeds in a row; then the scratch is wiped.
fn encapsulate_from(
    set: Set,
    pk: &[u8],
    msg: &[u8],
    salt: &[u8],
    seeds: &[u8],
    ct: &mut [u8],
    ss: &mut [u8],
    noise: &mut [u16],
    work: &mut [u16],
)
    requires { EncapsSized set.p (length pk.now) (length msg.now) (length salt.now) (length ct.old) (length ss.old) (length noise.old) (length work.old)
        × (seeds.now ≡ draw set.p (pkh_of set.p pk.now) msg.now salt.now) }
    ensures { EncapsMade set.p pk.now msg.now salt.now noise.old work.old ct.new ss.new noise.new work.new }
{
    let m = 8 * set.p.n;
    let f = 16 * set.p.n + 64;
    let (seedse, k) = seeds.split_at(set.p.seedse);
    seal(
        set,
        pk,
        msg,
        salt,
        seedse,
        ct,
        &mut noise[0..f],
        &mut work[0..m],
    );
    hash(set, &[ct, k], ss);
    noise[..set.p.noise].fill(0);
    work[..set.p.work].fill(0);
}

// The ciphertext and the shared secret of a message and a salt under a public key. The scratch may be longer than it has to be.
pub fn encapsulate(
    set: Set,
    pk: &[u8],
    msg: &[u8],
    salt: &[u8],
    ct: &mut [u8],
    ss: &mut [u8],
    noise: &mut [u16],
    work: &mut [u16],
)
    requires { EncapsSized set.p (length pk.now) (length msg.now) (length salt.now) (length ct.old) (length ss.old) (length noise.old) (length work.old) }
    ensures { EncapsMade set.p pk.now msg.now salt.now noise.old work.old ct.new ss.new noise.new work.new }
{
    let a = set.p.secret;
    let b = set.p.seedse + a;
    let mut pkh = [0u8; 32];
    let mut seeds = [0u8; 128];
    let seeds = &mut seeds[0..b];
    draw_seeds(set, pk, msg, salt, &mut pkh[0..a], seeds);
    encapsulate_from(set, pk, msg, salt, seeds, ct, ss, noise, work);
}
