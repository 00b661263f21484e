// The loops inside the products, on words mod 2^16: a row times a matrix, and a row of A taken into a product (docs/RULES.md, 4.7).
#![tactic(auto)]

ghost use Rattle.std.specs.Prelude.{◌≡◌, ◌+◌, ◌*◌, ◌<◌, length, get_or};
ghost use Rattle.lists.specs.Lists.{tab, residues};
ghost use Rattle.algebra.specs.Matrix.{mat, mat_t, mul, ◌⊕◌, table};

use eights::{column8, load8, mac8};
use words::mac;

// a * S + e for a row a of n words, where S is stored transposed, in 8 rows of n.
pub fn dots(n: usize, e: &[u16], a: &[u16], s: &[u16]) -> [u16; 8]
    requires { (length e.now ≡ 8) × (length a.now ≡ n) × (length s.now ≡ 8 * n) }
    ensures { result ≡ residues 65536 (table 1 8 (mul n (mat n a.now) (mat_t n s.now) ⊕ mat 8 e.now)) }
{
    let mut sums = load8(e, 0);
    for (j, x) in a.iter().enumerate() {
        let y = column8(s, n, j);
        let next = mac8(sums, *x, y);
        sums = next;
    }
    sums
}

// a * B + e for a row a of n words, where B is stored in n rows of 8.
pub fn fold(n: usize, e: &[u16], a: &[u16], b: &[u16]) -> [u16; 8]
    requires { (length e.now ≡ 8) × (length a.now ≡ n) × (length b.now ≡ 8 * n) }
    ensures { result ≡ residues 65536 (table 1 8 (mul n (mat n a.now) (mat 8 b.now) ⊕ mat 8 e.now)) }
{
    let mut sums = load8(e, 0);
    for (j, x) in a.iter().enumerate() {
        let y = load8(b, j * 8);
        let next = mac8(sums, *x, y);
        sums = next;
    }
    sums
}

// x times each word of row, added to the words of out.
fn add_times(out: &mut [u16], x: u16, row: &[u16])
    requires { length out.old ≡ length row.now }
    ensures { out.new ≡ residues 65536 (tab (length row.now) (λ j. get_or out.old j 0 + x * get_or row.now j 0)) }
{
    for (j, word) in out.iter_mut().enumerate() {
        *word = mac(*word, x, row[j]);
    }
}

// Row k of A taken into S' * A: column k of S', in 8 rows of n, times the row is added to out, in 8 rows of n.
pub fn add_row(n: usize, out: &mut [u16], s: &[u16], row: &[u16], k: usize)
    requires { (length out.old ≡ 8 * n) × (length s.now ≡ 8 * n) × (length row.now ≡ n) × (k < n) }
    ensures { out.new ≡ residues 65536 (table 8 n (mat n out.old ⊕ (λ i j. mat n s.now i k * get_or row.now j 0))) }
{
    // Stays: of rows that are written through `chunks_exact_mut` a proof knows the length alone, so each row of out is lent by its bounds.
    for i in 0..8 {
        let base = i * n;
        let end = base + n;
        add_times(&mut out[base..end], s[base + k], row);
    }
}
