// What decapsulation has besides encapsulation's own steps (docs/RULES.md, 4.10): the message that a ciphertext opens to, the comparison of two
// matrices, and the choice of one of two secrets. No branch and no index depends on a value that is secret.
#![tactic(auto)]

ghost use Rattle.std.specs.Prelude.{◌≡◌, ◌&&◌, cond, ◌++◌, ◌*◌, ◌≤◌, eqb, length};
ghost use Rattle.lists.specs.Lists.{equal};
ghost use Rattle.algebra.specs.Congruence.{minus};
ghost use Rattle.algebra.specs.Matrix.{mat, mat_t, mul, table};
ghost use Rattle.message.specs.Message.{decoded};
ghost use Rattle.scheme.specs.Decaps.{sk_matrix_s, ct_b, ct_c, decaps_message};
ghost use Rattle.opening.specs.Opening.{OpenSized, bit};

use ciphertext::CiphertextRef;
use codec::unpack;
use message::decode_message;
use products::{mul_bs, sub};
use sets::Set;
use words::words_of;

// ---- the message

// S of the secret key, then B' and C of the ciphertext, in words.
fn open_parts(sk: &[u8], ct: CiphertextRef<'_>, noise: &mut [u16])
    requires { OpenSized ct.set.p (length sk.now) (length noise.old) }
    ensures { noise.new ≡ sk_matrix_s ct.entry.set.p sk.now ++ (ct_b ct.entry.set.p ct.entry.bytes.now ++ ct_c ct.entry.set.p ct.entry.bytes.now) }
{
    let set = ct.set;
    let from = set.p.secret + set.p.pk;
    let to = from + 16 * set.p.n;
    let (s, rest) = noise.split_at_mut(8 * set.p.n);
    let (b, c) = rest.split_at_mut(8 * set.p.n);
    words_of(&sk[from..to], s);
    unpack(set.p.d, ct.c1(), b);
    unpack(set.p.d, ct.c2(), c);
}

// The message in C - B'*S.
fn decode_difference(set: Set, b: &[u16], s: &[u16], c: &[u16], msg: &mut [u8], work: &mut [u16])
    requires { (length b.now ≡ 8 * set.p.n) × (length s.now ≡ 8 * set.p.n) × (length c.now ≡ 64) × (length msg.old ≡ 8 * set.p.b) × (length work.old ≡ 64) }
    ensures { msg.new ≡ decoded set.p.q set.p.b (table 8 8 (λ i j. minus set.p.q (mat 8 c.now i j) (mul set.p.n (mat set.p.n b.now) (mat_t set.p.n s.now) i j))) }
{
    mul_bs(set, b, s, work);
    sub(set, c, work);
    decode_message(set.p.q, set.p.b, work, msg);
}

// Stays: noise and work are two parameters; a struct of both was tried in crates/keys: the borrow checker does not cover a call that is lent parts of both fields.
// The message that the ciphertext opens to. noise takes S, B' and C, work the product.
pub fn open_message(
    sk: &[u8],
    ct: CiphertextRef<'_>,
    msg: &mut [u8],
    noise: &mut [u16],
    work: &mut [u16],
)
    requires { OpenSized ct.set.p (length sk.now) (length noise.old) × (length msg.old ≡ ct.set.p.secret) × (length work.old ≡ 64) }
    ensures { msg.new ≡ decaps_message ct.entry.set.p sk.now ct.entry.bytes.now }
{
    let set = ct.set;
    open_parts(sk, ct, noise);
    let (s, rest) = noise.split_at(8 * set.p.n);
    let (b, c) = rest.split_at(8 * set.p.n);
    decode_difference(set, b, s, c, msg, work);
}

// ---- the comparison

// The bits gathered so far, and those in which two words differ.
fn gather(gathered: u16, x: u16, y: u16) -> u16
    ensures { eqb result 0 ≡ (eqb gathered 0 && eqb x y) }
{
    gathered | (x ^ y)
}

// All bits in which two words in the same place differ: none where the slices are equal.
fn differences(a: &[u16], b: &[u16]) -> u16
    requires { length a.now ≡ length b.now }
    ensures { eqb result 0 ≡ equal a.now b.now }
{
    let mut gathered: u16 = 0;
    for (x, y) in a.iter().zip(b) {
        gathered = gather(gathered, *x, *y);
    }
    gathered
}

// 1 of 0, and 0 of every other word: 65535 carries any other into the 17th bit.
fn is_zero(x: u16) -> u8
    ensures { result ≡ bit (eqb x 0) }
{
    (1 - ((x as u32) + 65535) / 65536) as u8
}

// 1 where the slices are equal, and 0 where they are not. Every word is read in either case.
pub fn ct_verify(a: &[u16], b: &[u16]) -> u8
    requires { length a.now ≡ length b.now }
    ensures { result ≡ bit (equal a.now b.now) }
{
    is_zero(differences(a, b))
}

// ---- the choice

// Stays: a choice is a number, 1 or 0, and not a bool, by the rule of docs/RULES.md, 8.11: its text has no branch.
// x where choice is 1, y where it is 0.
fn select(choice: u8, x: u8, y: u8) -> u8
    requires { choice ≤ 1 }
    ensures { result ≡ cond (eqb choice 1) x y }
{
    let mask = 255 * choice;
    (x & mask) | (y & (255 - mask))
}

// a where choice is 1, b where it is 0. Both are read in either case.
pub fn ct_select(choice: u8, a: &[u8], b: &[u8], out: &mut [u8])
    requires { (choice ≤ 1) × (length a.now ≡ length out.old) × (length b.now ≡ length out.old) }
    ensures { out.new ≡ cond (eqb choice 1) a.now b.now }
{
    for (i, x) in out.iter_mut().enumerate() {
        *x = select(choice, a[i], b[i]);
    }
}
