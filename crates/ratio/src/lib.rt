// The margin's answer (docs/RULES.md, 4.11): the largest size of some words of noise, that size over h as an f64, and the verdict on each of the words (4.11.4).
#![tactic(auto)]

ghost use Rattle.std.specs.Prelude.{◌≡◌, ◌%◌, ◌<◌};
ghost use Rattle.lists.specs.Lists.{Below};
ghost use Rattle.algebra.specs.Whole.{centred};
ghost use Rattle.scheme.specs.Margin.{size_of, largest_size, in_range, kept_by};
ghost use Rattle.ratio.specs.Ratio.{PowerOfTwo, Exact};
ghost use Rattle.ratio.specs.Answered.{Measured};

#[derive(Clone, Copy)]
pub struct Margin {
    pub size: u32,
    pub ratio: f64,
    pub kept: bool,
}

// size over h. Nothing is rounded, since h is a power of two.
pub fn ratio(size: u32, h: u32) -> f64
    requires { PowerOfTwo h }
    ensures { Exact size h result }
{
    size as f64 / h as f64
}

// The margin of a largest size and a verdict.
pub fn measured(size: u32, h: u32, kept: bool) -> Margin
    requires { PowerOfTwo h }
    ensures { Measured size h kept result }
{
    let ratio = ratio(size, h);
    Margin { size, ratio, kept }
}

// How far the centred value of a word mod q is from 0.
fn size_of(q: u32, x: u16) -> u32
    requires { (q % 2 ≡ 0) × (x < q) }
    ensures { result ≡ size_of q x }
{
    let w = x as u32;
    if w < q / 2 { w } else { q - w }
}

// The largest size of some words mod q.
fn largest_size(q: u32, words: &[u16]) -> u32
    requires { (q % 2 ≡ 0) × Below q words.now }
    ensures { result ≡ largest_size q words.now }
{
    let mut size = 0;
    for &x in words {
        size = size.max(size_of(q, x));
    }
    size
}

// Whether the centred value of a word mod q is at least -h and less than h.
fn in_range(q: u32, h: u32, x: u16) -> bool
    requires { (q % 2 ≡ 0) × (x < q) }
    ensures { result ≡ in_range h (centred q x) }
{
    let w = x as u32;
    if w < q / 2 { w < h } else { q - w <= h }
}

// Whether that is so of every word. Each is read, whatever the others are: the noise is secret.
fn all_in_range(q: u32, h: u32, words: &[u16]) -> bool
    requires { (q % 2 ≡ 0) × Below q words.now }
    ensures { result ≡ kept_by q h words.now }
{
    let mut kept = true;
    for &x in words {
        kept &= in_range(q, h, x);
    }
    kept
}

// Stays: q and the words are two arguments and no struct that keeps them below q: it would be made here alone, for the two functions above, and this one would ask the same of its caller.
// The margin of some words of noise mod q.
pub fn margin_of(q: u32, h: u32, words: &[u16]) -> Margin
    requires { PowerOfTwo h × (q % 2 ≡ 0) × Below q words.now }
    ensures { Measured (largest_size q words.now) h (kept_by q h words.now) result }
{
    let size = largest_size(q, words);
    let kept = all_in_range(q, h, words);
    measured(size, h, kept)
}
