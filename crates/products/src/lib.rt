// The products of FrodoKEM, on words (docs/RULES.md, 4.7). Those from the seed keep words mod 2^16, the others mod q.
#![tactic(auto)]

ghost use Rattle.std.specs.Prelude.{◌≡◌, ◌*◌, length, take, drop};
ghost use Rattle.lists.specs.Lists.{residues};
ghost use Rattle.algebra.specs.Congruence.{minus};
ghost use Rattle.algebra.specs.Matrix.{mat, mat_t, mul, ◌⊕◌, table};
ghost use Rattle.rows.specs.Row.{mat_a};

use loops::{add_row, dots, fold};
use rows::{modulus, row};
use sets::Set;
use words::copy;

// A * S + E, from the seed of A. S is stored transposed, in 8 rows of n; E and the result are in n rows of 8.
// The result overwrites the first 8n words of work, and rows of A take the last n.
pub fn mul_add_as_plus_e_from_seed(set: Set, seed: &[u8], s: &[u16], e: &[u16], work: &mut [u16])
    requires { (length s.now ≡ 8 * set.p.n) × (length e.now ≡ 8 * set.p.n) × (length work.old ≡ 9 * set.p.n) }
    ensures { take (8 * set.p.n) work.new ≡ residues 65536 (table set.p.n 8 (mul set.p.n (mat_a set.p seed.now) (mat_t set.p.n s.now) ⊕ mat 8 e.now)) }
{
    let n = set.p.n;
    let from = 8 * n;
    let to = 9 * n;
    // Stays: docs/RULES.md, 8.7, lays down a loop over the rows of A, which are made by their numbers.
    for i in 0..n {
        let at = i * 8;
        let end = at + 8;
        row(set, seed, i, &mut work[from..to]);
        let sums = dots(n, &e[at..end], &work[from..to], s);
        work[at..end].copy_from_slice(&sums);
    }
}

// S' * A + E', from the seed of A. noise has S' and then E', in 8 rows of n each; rows of A take a part of E''s place, and S' stands.
// The result, in 8 rows of n, overwrites out.
pub fn mul_add_sa_plus_e_from_seed(set: Set, seed: &[u8], noise: &mut [u16], out: &mut [u16])
    requires { (length noise.old ≡ 16 * set.p.n) × (length out.old ≡ 8 * set.p.n) }
    ensures { (out.new ≡ residues 65536 (table 8 set.p.n (mul set.p.n (mat set.p.n (take (8 * set.p.n) noise.old)) (mat_a set.p seed.now) ⊕ mat set.p.n (drop (8 * set.p.n) noise.old))))
        × (take (8 * set.p.n) noise.new ≡ take (8 * set.p.n) noise.old) }
{
    let n = set.p.n;
    let from = 8 * n;
    let to = 9 * n;
    let all = 16 * n;
    copy(&noise[from..all], out);
    // Stays: docs/RULES.md, 8.7, lays down a loop over the rows of A, which are made by their numbers.
    for k in 0..n {
        row(set, seed, k, &mut noise[from..to]);
        add_row(n, out, &noise[0..from], &noise[from..to], k);
    }
}

// S' * B + E'' mod q. S' is in 8 rows of n, B in n rows of 8.
pub fn mul_add_sb_plus_e(set: Set, s: &[u16], b: &[u16], e: &[u16], out: &mut [u16])
    requires { (length s.now ≡ 8 * set.p.n) × (length b.now ≡ 8 * set.p.n) × (length e.now ≡ 64) × (length out.old ≡ 64) }
    ensures { out.new ≡ residues set.p.q (table 8 8 (mul set.p.n (mat set.p.n s.now) (mat 8 b.now) ⊕ mat 8 e.now)) }
{
    let n = set.p.n;
    let q = modulus(set);
    // Stays: of rows that are written through `chunks_exact_mut` a proof knows the length alone, so each row of out is lent by its bounds.
    for i in 0..8 {
        let at = i * 8;
        let end = at + 8;
        let from = i * n;
        let to = from + n;
        let mut sums = fold(n, &e[at..end], &s[from..to], b);
        q.low_all(&mut sums);
        out[at..end].copy_from_slice(&sums);
    }
}

// B' * S mod q. B' is in 8 rows of n, S is stored transposed, in 8 rows of n.
pub fn mul_bs(set: Set, b: &[u16], s: &[u16], out: &mut [u16])
    requires { (length b.now ≡ 8 * set.p.n) × (length s.now ≡ 8 * set.p.n) × (length out.old ≡ 64) }
    ensures { out.new ≡ residues set.p.q (table 8 8 (mul set.p.n (mat set.p.n b.now) (mat_t set.p.n s.now))) }
{
    let n = set.p.n;
    let q = modulus(set);
    let zero = [0u16; 8];
    // Stays: of rows that are written through `chunks_exact_mut` a proof knows the length alone, so each row of out is lent by its bounds.
    for i in 0..8 {
        let at = i * 8;
        let end = at + 8;
        let from = i * n;
        let to = from + n;
        let mut sums = dots(n, &zero, &b[from..to], s);
        q.low_all(&mut sums);
        out[at..end].copy_from_slice(&sums);
    }
}

// out + rhs mod q.
pub fn add(set: Set, rhs: &[u16], out: &mut [u16])
    requires { (length rhs.now ≡ 64) × (length out.old ≡ 64) }
    ensures { out.new ≡ residues set.p.q (table 8 8 (mat 8 out.old ⊕ mat 8 rhs.now)) }
{
    let q = modulus(set);
    for (i, x) in out.iter_mut().enumerate() {
        *x = q.add(*x, rhs[i]);
    }
}

// lhs - out mod q.
pub fn sub(set: Set, lhs: &[u16], out: &mut [u16])
    requires { (length lhs.now ≡ 64) × (length out.old ≡ 64) }
    ensures { out.new ≡ table 8 8 (λ i j. minus set.p.q (mat 8 lhs.now i j) (mat 8 out.old i j)) }
{
    let q = modulus(set);
    for (i, x) in out.iter_mut().enumerate() {
        *x = q.sub(lhs[i], *x);
    }
}
