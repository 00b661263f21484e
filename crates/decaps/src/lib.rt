// Decapsulation (docs/RULES.md, 4.10) in lent memory, for lengths that the caller has tested. The stored pkh is used as it stands.
#![tactic(auto)]

ghost use Rattle.std.specs.Prelude.{◌≡◌, cond, ◌++◌, ◌+◌, ◌≤◌, eqb, length};
ghost use Rattle.lengths.specs.Sized.{DecapsSized, DecapsSecretSized};
ghost use Rattle.scheme.specs.Parts.{hash};
ghost use Rattle.scheme.specs.Encaps.{draw};
ghost use Rattle.scheme.specs.Decaps.{sk_pkh, ct_salt, decaps_k, decaps_message, decaps_secret};
ghost use Rattle.agreement.specs.Again.{AgainSized};
ghost use Rattle.decaps.specs.Made.{DecapsMade, DecapsSecretMade};

use agreement::both_agree;
use ciphertext::CiphertextRef;
use hashes::hash;
use opening::{ct_select, open_message};
use sets::Set;

// Stays: the secret key is parts of a slice; each part is read at one place, and of a view beside the ciphertext's it would have to be asked that both have one set.
// seedSE' and k' in a row, from the stored pkh, the message and the ciphertext's salt.
fn draw_again(sk: &[u8], ct: CiphertextRef<'_>, msg: &[u8], seeds: &mut [u8])
    requires { (length sk.now ≡ ct.set.p.sk) × (length seeds.old ≡ ct.set.p.seedse + ct.set.p.secret) }
    ensures { seeds.new ≡ draw ct.entry.set.p (sk_pkh ct.entry.set.p sk.now) msg.now (ct_salt ct.entry.set.p ct.entry.bytes.now) }
{
    let set = ct.set;
    let pkh = set.p.sk - set.p.secret;
    hash(set, &[&sk[pkh..], msg, ct.salt()], seeds);
}

// The secret over the ciphertext and k where choice is 1, or s where it is 0.
fn chosen_secret(
    set: Set,
    choice: u8,
    k: &[u8],
    s: &[u8],
    ct: &[u8],
    chosen: &mut [u8],
    ss: &mut [u8],
)
    requires { (choice ≤ 1) × (length k.now ≡ length chosen.old) × (length s.now ≡ length chosen.old) }
    ensures { ss.new ≡ hash set.p (ct.now ++ cond (eqb choice 1) k.now s.now) (length ss.old) }
{
    ct_select(choice, k, s, chosen);
    hash(set, &[ct, chosen], ss);
}

// The secret that goes with the message. seeds and chosen are room for seedSE' and k', and for what is hashed behind the ciphertext.
fn secret_of(
    sk: &[u8],
    ct: CiphertextRef<'_>,
    msg: &[u8],
    seeds: &mut [u8],
    chosen: &mut [u8],
    ss: &mut [u8],
    noise: &mut [u16],
    work: &mut [u16],
)
    requires { AgainSized ct.set.p (length sk.now) (length msg.now) (length noise.old) (length work.old)
        × (length seeds.old ≡ ct.set.p.seedse + ct.set.p.secret) × (length chosen.old ≡ ct.set.p.secret) × (length ss.old ≡ ct.set.p.secret) }
    ensures { ss.new ≡ hash ct.entry.set.p (ct.entry.bytes.now ++ decaps_k ct.entry.set.p sk.now ct.entry.bytes.now msg.now) ct.entry.set.p.secret }
{
    let set = ct.set;
    draw_again(sk, ct, msg, seeds);
    let (seedse, k) = seeds.split_at(set.p.seedse);
    let choice = both_agree(sk, ct, msg, seedse, noise, work);
    chosen_secret(set, choice, k, &sk[..set.p.secret], ct.bytes, chosen, ss);
}

// Stays: noise and work are two parameters; a struct of both was tried in crates/keys: the borrow checker does not cover a call that is lent parts of both fields.
// The message and the secret, in scratches of just the room that they take.
fn decapsulate_in(
    sk: &[u8],
    ct: CiphertextRef<'_>,
    ss: &mut [u8],
    msg: &mut [u8],
    noise: &mut [u16],
    work: &mut [u16],
)
    requires { AgainSized ct.set.p (length sk.now) (length msg.old) (length noise.old) (length work.old) × (length ss.old ≡ ct.set.p.secret) }
    ensures { (ss.new ≡ decaps_secret ct.entry.set.p sk.now ct.entry.bytes.now) × (msg.new ≡ decaps_message ct.entry.set.p sk.now ct.entry.bytes.now) }
{
    let l = ct.set.p.secret;
    let b = ct.set.p.seedse + l;
    let mut seeds = [0u8; 128];
    let mut chosen = [0u8; 32];
    open_message(sk, ct, msg, noise, &mut work[0..64]);
    secret_of(
        sk,
        ct,
        msg,
        &mut seeds[0..b],
        &mut chosen[0..l],
        ss,
        noise,
        work,
    );
}

// The shared secret and the message of a ciphertext. The message is written also where the matrices do not agree. The scratches may be longer than
// they have to be.
pub fn decapsulate(
    set: Set,
    sk: &[u8],
    ct: &[u8],
    ss: &mut [u8],
    msg: &mut [u8],
    noise: &mut [u16],
    work: &mut [u16],
)
    requires { DecapsSized set.p (length sk.now) (length ct.now) (length ss.old) (length msg.old) (length noise.old) (length work.old) }
    ensures { DecapsMade set.p sk.now ct.now noise.old work.old ss.new msg.new noise.new work.new }
{
    let m = 8 * set.p.n;
    let f = 16 * set.p.n + 64;
    let view = CiphertextRef::from_slice(set, ct);
    decapsulate_in(sk, view, ss, msg, &mut noise[0..f], &mut work[0..m]);
    noise[..set.p.noise].fill(0);
    work[..set.p.work].fill(0);
}

// The shared secret alone.
pub fn decapsulate_shared_secret(
    set: Set,
    sk: &[u8],
    ct: &[u8],
    ss: &mut [u8],
    noise: &mut [u16],
    work: &mut [u16],
)
    requires { DecapsSecretSized set.p (length sk.now) (length ct.now) (length ss.old) (length noise.old) (length work.old) }
    ensures { DecapsSecretMade set.p sk.now ct.now noise.old work.old ss.new noise.new work.new }
{
    let l = set.p.secret;
    let mut msg = [0u8; 32];
    decapsulate(set, sk, ct, ss, &mut msg[0..l], noise, work);
}
