// The two matrices of a ciphertext (docs/RULES.md, 4.9 and 4.10): encapsulation makes them, and decapsulation makes them again.
#![tactic(auto)]

ghost use Rattle.std.specs.Prelude.{◌≡◌, ◌+◌, ◌*◌, length, take, drop};
ghost use Rattle.lists.specs.Lists.{residues};
ghost use Rattle.sealing.specs.Sealing.{mask_noise, mask_c, Masked};

use codec::unpack;
use hashes::draw;
use message::encode_message;
use products::{add, mul_add_sa_plus_e_from_seed, mul_add_sb_plus_e};
use sets::Set;

// Stays: noise and work are two parameters; a struct of both was tried in crates/keys: the borrow checker does not cover a call that is lent parts of both fields.
// S', E' and E'' of seedSE' are drawn into noise, and S'*A + E' goes into work. seed is seedA. Rows of A take the place of E'.
pub fn masks(set: Set, seed: &[u8], seedse: &[u8], noise: &mut [u16], work: &mut [u16])
    requires { (length noise.old ≡ 16 * set.p.n + 64) × (length work.old ≡ 8 * set.p.n) }
    ensures { Masked set.p seed.now (mask_noise set.p seedse.now) noise.new work.new }
{
    let e = 16 * set.p.n;
    draw(set, 0x96, seedse, noise);
    mul_add_sa_plus_e_from_seed(set, seed, &mut noise[0..e], work);
}

// S'*B + E'' + the encoded message mod q goes into work. b is the packed B; noise has S' in front and E'' at its end. B takes the place of E', and then the
// encoded message the front of S'.
pub fn values(set: Set, b: &[u8], msg: &[u8], noise: &mut [u16], work: &mut [u16])
    requires { (length b.now ≡ set.p.d * set.p.n) × (length msg.now ≡ 8 * set.p.b) × (length noise.old ≡ 16 * set.p.n + 64) × (length work.old ≡ 64) }
    ensures { work.new ≡ residues set.p.q (mask_c set.p b.now msg.now (take (8 * set.p.n) noise.old) (drop (16 * set.p.n) noise.old)) }
{
    let (s, rest) = noise.split_at_mut(8 * set.p.n);
    let (unpacked, e) = rest.split_at_mut(8 * set.p.n);
    unpack(set.p.d, b, unpacked);
    mul_add_sb_plus_e(set, s, unpacked, e, work);
    let code = &mut s[0..64];
    encode_message(set.p.q, set.p.b, msg, code);
    add(set, code, work);
}
