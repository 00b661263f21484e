// Whether a ciphertext is what encapsulation gives again (docs/RULES.md, 4.10): both of its matrices are compared with those that are made anew, mod q.
// No branch and no index depends on a value that is secret.
#![tactic(auto)]

ghost use Rattle.std.specs.Prelude.{◌≡◌, ◌+◌, ◌*◌, length, take, drop};
ghost use Rattle.lists.specs.Lists.{residues, equal};
ghost use Rattle.codec.specs.Pack.{unpacked};
ghost use Rattle.scheme.specs.Encaps.{enc_seed_se};
ghost use Rattle.scheme.specs.Decaps.{sk_pkh, ct_salt, agrees};
ghost use Rattle.sealing.specs.Sealing.{mask_noise, mask_c};
ghost use Rattle.opening.specs.Opening.{bit};
ghost use Rattle.agreement.specs.Again.{AgainSized, MasksCompared};

use ciphertext::CiphertextRef;
use codec::unpack;
use opening::ct_verify;
use rows::modulus;
use sealing::{masks, values};
use sets::Set;

// Stays: noise and work are two parameters; a struct of both was tried in crates/keys: the borrow checker does not cover a call that is lent parts of both fields.
// Whether c1 holds S'*A + E' mod q: 1, or else 0. noise: S', B' of c1 in the place of E', E''.
fn masks_agree(
    set: Set,
    seed: &[u8],
    c1: &[u8],
    seedse: &[u8],
    noise: &mut [u16],
    work: &mut [u16],
) -> u8
    requires { (length c1.now ≡ set.p.d * set.p.n) × (length noise.old ≡ 16 * set.p.n + 64) × (length work.old ≡ 8 * set.p.n) }
    ensures { MasksCompared set.p seed.now c1.now (mask_noise set.p seedse.now) noise.new result }
{
    let m = 8 * set.p.n;
    let e = 16 * set.p.n;
    masks(set, seed, seedse, noise, work);
    modulus(set).low_all(work);
    let b = &mut noise[m..e];
    unpack(set.p.d, c1, b);
    ct_verify(work, b)
}

// Whether c2 holds S'*B + E'' + the encoded message mod q. b is the packed B; S' and E'' stand in noise.
fn values_agree(
    set: Set,
    b: &[u8],
    c2: &[u8],
    msg: &[u8],
    noise: &mut [u16],
    work: &mut [u16],
) -> u8
    requires { (length b.now ≡ set.p.d * set.p.n) × (length c2.now ≡ set.p.d * 8) × (length msg.now ≡ 8 * set.p.b) × (length noise.old ≡ 16 * set.p.n + 64) × (length work.old ≡ 64) }
    ensures { result ≡ bit (equal (residues set.p.q (mask_c set.p b.now msg.now (take (8 * set.p.n) noise.old) (drop (16 * set.p.n) noise.old))) (unpacked set.p.d c2.now)) }
{
    values(set, b, msg, noise, work);
    let c = &mut noise[0..64];
    unpack(set.p.d, c2, c);
    ct_verify(work, c)
}

// Whether encapsulation of the message, redone from seedSE', gives both matrices of the ciphertext.
pub fn both_agree(
    sk: &[u8],
    ct: CiphertextRef<'_>,
    msg: &[u8],
    seedse: &[u8],
    noise: &mut [u16],
    work: &mut [u16],
) -> u8
    requires { AgainSized ct.set.p (length sk.now) (length msg.now) (length noise.old) (length work.old)
        × (seedse.now ≡ enc_seed_se ct.set.p (sk_pkh ct.set.p sk.now) msg.now (ct_salt ct.set.p ct.bytes.now)) }
    ensures { result ≡ bit (agrees ct.entry.set.p sk.now ct.entry.bytes.now msg.now) }
{
    let set = ct.set;
    let pk = &sk[set.p.secret..set.p.secret + set.p.pk];
    let (seed_a, b) = pk.split_at(16);
    let masked = masks_agree(set, seed_a, ct.c1(), seedse, noise, work);
    let valued = values_agree(set, b, ct.c2(), msg, noise, &mut work[0..64]);
    masked & valued
}
