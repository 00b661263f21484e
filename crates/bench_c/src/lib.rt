// Inside parts of the library, exported for `make bench` alone: the permutation, the row engine of set 3, and sampling.
#![tactic(auto)]

ghost use Rattle.std.specs.Prelude.{◌≡◌, cond, ◌*◌, length};
ghost use Rattle.keccak.specs.Keccak.{keccak_f};
ghost use Rattle.sets.specs.Sets.{frodo1344, known, params_of};
ghost use Rattle.scheme.specs.Parts.{stored_samples};

use sets::{Frodo1344Shake, Set};

// Stays: the exports take what C hands them, numbers and slices, as tests/bench/src/main.rs declares them.

#[unsafe(no_mangle)]
pub extern "C" fn bench_permute(s: &mut [u64; 25])
    ensures { s.new ≡ keccak_f s.old }
{
    keccak::permute(s);
}

// Set 3.
fn third() -> Set
    ensures { result.p ≡ frodo1344 }
{
    Set {
        p: Frodo1344Shake::params(),
    }
}

// Every row of A, one after the other, in one place.
#[unsafe(no_mangle)]
pub extern "C" fn bench_rows(seed: &[u8], out: &mut [u16])
    requires { length out.old ≡ 1344 }
{
    let set = third();
    for i in 0..1344 {
        rows::row(set, seed, i, out);
    }
}

// A * S + E.
#[unsafe(no_mangle)]
pub extern "C" fn bench_as(seed: &[u8], s: &[u16], e: &[u16], work: &mut [u16])
    requires { (length s.now ≡ 8 * 1344) × (length e.now ≡ 8 * 1344) × (length work.old ≡ 9 * 1344) }
{
    products::mul_add_as_plus_e_from_seed(third(), seed, s, e, work);
}

// S' * A + E'.
#[unsafe(no_mangle)]
pub extern "C" fn bench_sa(seed: &[u8], noise: &mut [u16], out: &mut [u16])
    requires { (length noise.old ≡ 16 * 1344) × (length out.old ≡ 8 * 1344) }
{
    products::mul_add_sa_plus_e_from_seed(third(), seed, noise, out);
}

// Each word becomes the sample that it draws in a set, stored mod 2^16; with a number that is no set the words stay.
#[unsafe(no_mangle)]
pub extern "C" fn bench_samples(set: u32, words: &mut [u16])
    ensures { words.new ≡ cond (known set) (stored_samples (params_of set).chi words.old) words.old }
{
    let Some(set) = sets::choose(set) else {
        return;
    };
    hashes::store_samples(set.p.chi, words);
}
