// Answers that the replay programs compare: rows of A, and the products on the matrices of a line. Each is made in memory that holds other words before.
#![tactic(auto)]

ghost use Rattle.std.specs.Prelude.{◌≡◌, ◌*◌, vec_len, IfOk};
ghost use Rattle.bits.specs.Little.{bytes_of};

use sets::Set;
use shake::Sponge;
use std::alloc::{AllocError, Global};

// The bytes of words.
pub fn bytes_of(alloc: Global, words: &[u16]) -> Result<Vec<u8>, AllocError>
    ensures { IfOk result (λ v. v.items ≡ bytes_of words.now) }
{
    let mut bytes = vec![in alloc; 0; 2 * words.len()]?;
    words::bytes_of(words, &mut bytes);
    Ok(bytes)
}

// How the matrices of a line are made: drawn from its seed, or of words all alike.
#[derive(Clone, Copy)]
pub enum Made {
    Drawn,
    Ones,
    Zeros,
}

impl Made {
    // By its letter.
    pub fn of(letter: &[u8]) -> Option<Made> {
        match letter {
            b"r" => Some(Made::Drawn),
            b"f" => Some(Made::Ones),
            b"z" => Some(Made::Zeros),
            _ => None,
        }
    }
}

// The words of SHAKE128 over two parts of an input.
fn draw(front: &[u8], seed: &[u8], out: &mut [u16]) {
    let p = Sponge::new(168);
    let p = p.absorb(front);
    let p = p.absorb(seed);
    let p = p.finish();
    p.squeeze_words(out);
}

// Matrix t of a line.
fn matrix(made: Made, t: u8, seed: &[u8], out: &mut [u16]) {
    match made {
        Made::Drawn => draw(&[t], seed, out),
        Made::Ones => out.fill(0xffff),
        Made::Zeros => out.fill(0),
    }
}

// What a line gives: its set, its seed, and matrices 1 and 2 of 8n words each, one behind the other.
#[derive(Drop)]
pub struct Input {
    pub set: Set,
    made: Made,
    seed: Vec<u8>,
    noise: Vec<u16>,
    ghost sized: { vec_len noise ≡ 16 * set.p.n },
}

impl Input {
    pub fn new(alloc: Global, set: Set, made: Made, seed: Vec<u8>) -> Result<Input, AllocError>
        ensures { IfOk result (λ input. input.set.p ≡ set.p) }
    {
        let mut noise = vec![in alloc; 0xa5a5; 16 * set.p.n]?;
        let (first, second) = noise.split_at_mut(8 * set.p.n);
        matrix(made, 1, &seed, first);
        matrix(made, 2, &seed, second);
        Ok(Input {
            set,
            made,
            seed,
            noise,
        })
    }

    // Words mod q.
    pub fn in_residues(&self, words: &mut [u16]) {
        rows::modulus(self.set).low_all(words);
    }

    // Five rows of A.
    pub fn rows(&self, alloc: Global) -> Result<Vec<u16>, AllocError>
        ensures { IfOk result (λ words. vec_len words ≡ 5 * self.now.set.p.n) }
    {
        let n = self.set.p.n;
        let mut rows = Vec::new(alloc);
        for i in [0, 1, 255, 256, n - 1] {
            let mut row = vec![in alloc; 0xa5a5; n]?;
            rows::row(self.set, &self.seed, i, &mut row);
            rows.extend_from_slice(&row)?;
        }
        Ok(rows)
    }

    // A * S + E.
    pub fn as_plus_e(&self, alloc: Global) -> Result<Vec<u16>, AllocError>
        ensures { IfOk result (λ words. vec_len words ≡ 8 * self.now.set.p.n) }
    {
        let n = self.set.p.n;
        let (s, e) = self.noise.split_at(8 * n);
        let mut work = vec![in alloc; 0xa5a5; 9 * n]?;
        products::mul_add_as_plus_e_from_seed(self.set, &self.seed, s, e, &mut work);
        work.truncate(8 * n);
        Ok(work)
    }

    // S' * A + E'.
    pub fn sa_plus_e(&self, alloc: Global) -> Result<Vec<u16>, AllocError>
        ensures { IfOk result (λ words. vec_len words ≡ 8 * self.now.set.p.n) }
    {
        let mut noise = self.noise.clone()?;
        let mut out = vec![in alloc; 0xa5a5; 8 * self.set.p.n]?;
        products::mul_add_sa_plus_e_from_seed(self.set, &self.seed, &mut noise, &mut out);
        Ok(out)
    }

    // S' * B + E'', with matrix 3, of 64 words.
    pub fn sb_plus_e(&self, alloc: Global) -> Result<Vec<u16>, AllocError>
        ensures { IfOk result (λ words. vec_len words ≡ 64) }
    {
        let (s, b) = self.noise.split_at(8 * self.set.p.n);
        let e = self.small(alloc, 3)?;
        let mut out = vec![in alloc; 0xa5a5; 64]?;
        products::mul_add_sb_plus_e(self.set, s, b, &e, &mut out);
        Ok(out)
    }

    // B' * S.
    pub fn bs(&self, alloc: Global) -> Result<Vec<u16>, AllocError>
        ensures { IfOk result (λ words. vec_len words ≡ 64) }
    {
        let (b, s) = self.noise.split_at(8 * self.set.p.n);
        let mut out = vec![in alloc; 0xa5a5; 64]?;
        products::mul_bs(self.set, b, s, &mut out);
        Ok(out)
    }

    // Matrix t, of 64 words.
    fn small(&self, alloc: Global, t: u8) -> Result<Vec<u16>, AllocError>
        ensures { IfOk result (λ v. vec_len v ≡ 64) }
    {
        let mut words = vec![in alloc; 0xa5a5; 64]?;
        matrix(self.made, t, &self.seed, &mut words);
        Ok(words)
    }

    // Matrices 1 and 2 of 64 words, added.
    pub fn sum(&self, alloc: Global) -> Result<Vec<u16>, AllocError>
        ensures { IfOk result (λ words. vec_len words ≡ 64) }
    {
        let first = self.small(alloc, 1)?;
        let mut second = self.small(alloc, 2)?;
        products::add(self.set, &first, &mut second);
        Ok(second)
    }

    // And subtracted.
    pub fn difference(&self, alloc: Global) -> Result<Vec<u16>, AllocError>
        ensures { IfOk result (λ words. vec_len words ≡ 64) }
    {
        let first = self.small(alloc, 1)?;
        let mut second = self.small(alloc, 2)?;
        products::sub(self.set, &first, &mut second);
        Ok(second)
    }
}
