// The margin, where all lengths are right (docs/RULES.md, 4.11).
#![tactic(auto)]

ghost use Rattle.std.specs.Prelude.{◌≡◌, ◌++◌, ◌≤◌, length, drop};
ghost use Rattle.lists.specs.Lists.{residues};
ghost use Rattle.algebra.specs.Matrix.{table};
ghost use Rattle.lengths.specs.Sized.{MarginSized, Scratch};
ghost use Rattle.keys.specs.Made.{MatrixSized};
ghost use Rattle.scheme.specs.Encaps.{enc_noise};
ghost use Rattle.margin.specs.Made.{KeyMade, CopyMade, BothMade, sealing_part, key_part, NoiseMade, MarginMade};

use hashes::{draw, hash};
use keys::key_matrix;
use pkh::pkh_of;
use products::{mul_add_sb_plus_e, mul_bs, sub};
use ratio::{Margin, margin_of};
use sets::Set;
use words::copy;

// Stays: noise and work are two parameters; a struct of both was tried in crates/keys: the borrow checker does not cover a call that is lent parts of both fields.
// The key's noise and pkh. noise: S, E. work: B, then a row of A.
fn key_noise(set: Set, seed: &[u8], pkh: &mut [u8], noise: &mut [u16], work: &mut [u16])
    requires { MatrixSized set.p (length seed.now) (length noise.old) (length work.old) × (length pkh.old ≡ set.p.secret) }
    ensures { KeyMade set.p seed.now noise.old work.old pkh.new noise.new work.new }
{
    let z = set.p.secret + set.p.seedse;
    let y = set.p.seed;
    let m = 8 * set.p.n;
    let mut seed_a = [0u8; 16];
    hash(set, &[&seed[z..y]], &mut seed_a);
    key_matrix(set, seed, &seed_a, noise, work);
    pkh_of(set, &seed_a, &work[0..m], pkh);
}

// The noise with which encapsulation seals the message. seeds: seedSE', k.
fn sealing_noise(set: Set, pkh: &[u8], msg: &[u8], salt: &[u8], seeds: &mut [u8], noise: &mut [u16])
    requires { (128 ≤ length seeds.old) × (set.p.noise ≤ length noise.old) }
    ensures { noise.new ≡ enc_noise set.p pkh.now msg.now salt.now ++ drop set.p.noise noise.old }
{
    let e = set.p.seedse;
    let l = e + set.p.secret;
    let k = set.p.noise;
    hash(set, &[pkh, msg, salt], &mut seeds[0..l]);
    draw(set, 0x96, &seeds[0..e], &mut noise[0..k]);
}

// The key's noise in both scratches, S and then E, and pkh.
fn copied_noise(set: Set, seed: &[u8], pkh: &mut [u8], noise: &mut [u16], work: &mut [u16])
    requires { MatrixSized set.p (length seed.now) (length noise.old) (length work.old) × (length pkh.old ≡ set.p.secret) }
    ensures { CopyMade set.p seed.now noise.old work.old pkh.new noise.new work.new }
{
    let e = 16 * set.p.n;
    key_noise(set, seed, pkh, noise, work);
    copy(&noise[0..e], &mut work[0..e]);
}

// The noise of both sides. noise: S', E, E''. work: S, E'.
fn both_noises(
    set: Set,
    seed: &[u8],
    msg: &[u8],
    salt: &[u8],
    pkh: &mut [u8],
    noise: &mut [u16],
    work: &mut [u16],
)
    requires { MatrixSized set.p (length seed.now) (length noise.old) (length work.old) × (length pkh.old ≡ set.p.secret) }
    ensures { BothMade set.p seed.now msg.now salt.now noise.old work.old noise.new work.new }
{
    let m = 8 * set.p.n;
    let e = 16 * set.p.n;
    let mut seeds = [0u8; 128];
    copied_noise(set, seed, pkh, noise, work);
    sealing_noise(set, pkh, msg, salt, &mut seeds, noise);
    noise[m..e].swap_with_slice(&mut work[m..e]);
}

// S'E + E'' mod q, where noise has S', E, E''.
fn sealing_product(set: Set, noise: &[u16], out: &mut [u16])
    requires { (set.p.noise ≤ length noise.now) × (length out.old ≡ 64) }
    ensures { out.new ≡ residues set.p.q (table 8 8 (sealing_part set.p noise.now)) }
{
    let m = 8 * set.p.n;
    let e = 16 * set.p.n;
    let f = set.p.noise;
    mul_add_sb_plus_e(set, &noise[0..m], &noise[m..e], &noise[e..f], out);
}

// E'S mod q, where work has S, E'.
fn key_product(set: Set, work: &[u16], out: &mut [u16])
    requires { (set.p.work ≤ length work.now) × (length out.old ≡ 64) }
    ensures { out.new ≡ residues set.p.q (table 8 8 (key_part set.p work.now)) }
{
    let m = 8 * set.p.n;
    let e = 16 * set.p.n;
    mul_bs(set, &work[m..e], &work[0..m], out);
}

// S'E + E'' - E'S mod q, into the first 64 words of noise. The scratches as `both_noises` leaves them.
fn difference(set: Set, noise: &mut [u16], work: &mut [u16])
    requires { Scratch set.p (length noise.old) (length work.old) }
    ensures { NoiseMade set.p noise.old work.old noise.new work.new }
{
    let e = 16 * set.p.n;
    let f = e + 64;
    sealing_product(set, noise, &mut work[e..f]);
    key_product(set, work, &mut noise[0..64]);
    sub(set, &work[e..f], &mut noise[0..64]);
}

// The margin of a key's seed, a message and a salt. Both scratches are zeroed up to the set's lengths.
pub fn margin(
    set: Set,
    seed: &[u8],
    msg: &[u8],
    salt: &[u8],
    noise: &mut [u16],
    work: &mut [u16],
) -> Margin
    requires { MarginSized set.p (length seed.now) (length msg.now) (length salt.now) (length noise.old) (length work.old) }
    ensures { MarginMade set.p seed.now msg.now salt.now noise.old work.old
        result noise.new work.new }
{
    let l = set.p.secret;
    let b = set.p.b;
    let h = set.p.q >> (b + 1);
    let mut pkh = [0u8; 32];
    both_noises(set, seed, msg, salt, &mut pkh[0..l], noise, work);
    difference(set, noise, work);
    let answer = margin_of(set.p.q, h, &noise[0..64]);
    noise[..set.p.noise].fill(0);
    work[..set.p.work].fill(0);
    answer
}
