// Eight words at a time, by value: what a product's loop does in one turn (docs/RULES.md, 4.7).
#![tactic(auto)]

ghost use Rattle.std.specs.Prelude.{◌≡◌, ◌+◌, ◌*◌, ◌%◌, ◌≤◌, ◌<◌, length, get_or};
ghost use Rattle.lists.specs.Lists.{tab};
ghost use Rattle.algebra.specs.Matrix.{mat_t};

use std::array;
use words::mac;

// x times each of y, added to each of t.
pub fn mac8(t: [u16; 8], x: u16, y: [u16; 8]) -> [u16; 8]
    ensures { result ≡ tab 8 (λ i. (get_or t i 0 + x * get_or y i 0) % 65536) }
{
    array::from_fn(|i| mac(t[i], x, y[i]))
}

// The eight words of s from `at` on.
pub fn load8(s: &[u16], at: usize) -> [u16; 8]
    requires { at + 8 ≤ length s.now }
    ensures { result ≡ tab 8 (λ i. get_or s.now (at + i) 0) }
{
    array::from_fn(|i| s[at + i])
}

// Row j of a matrix with n rows of 8 that is stored transposed: word j of each of 8 rows of n.
pub fn column8(s: &[u16], n: usize, j: usize) -> [u16; 8]
    requires { (length s.now ≡ 8 * n) × (j < n) }
    ensures { result ≡ tab 8 (mat_t n s.now j) }
{
    array::from_fn(|i| s[i * n + j])
}
