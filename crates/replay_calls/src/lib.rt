// What `replay_kem` compares: each call of `frodo` on a line of a list, in memory that holds other bytes before, and what the call leaves of it.
// A line is read from the set on: SET SEED MSG SALT, and what it has beside.
#![tactic(auto)]

ghost use Rattle.std.specs.Prelude.{◌≡◌, true, false, IsOk, IsErr, IfErr};

use ratio::Margin;
use replay::Line;
use sets::Answer;
use std::alloc::{AllocError, Global};
use std::fmt;

// Whose value differs: a call's, or the line's own.
#[derive(Clone, Copy, PartialEq, Eq)]
pub enum Call {
    Generate,
    Encapsulate,
    Decapsulate,
    SecretAlone,
    Margin,
    Line,
}

impl fmt::Display for Call {
    fn fmt<W: fmt::Write>(&self, f: &mut fmt::Formatter<W>) -> fmt::Result {
        match self {
            Call::Generate => write!(f, "generate_keypair_from_seed"),
            Call::Encapsulate => write!(f, "encapsulate"),
            Call::Decapsulate => write!(f, "decapsulate"),
            Call::SecretAlone => write!(f, "decapsulate_shared_secret"),
            Call::Margin => write!(f, "margin"),
            Call::Line => write!(f, "the"),
        }
    }
}

// The value that is not as it should be.
#[derive(Clone, Copy, PartialEq, Eq)]
pub enum Value {
    Answer,
    Noise,
    Work,
    Seed,
    PublicKey,
    SecretKey,
    Ciphertext,
    Secret,
    Message,
    Size,
    Ratio,
    Verdict,
    Damage,
    Command,
}

impl fmt::Display for Value {
    fn fmt<W: fmt::Write>(&self, f: &mut fmt::Formatter<W>) -> fmt::Result {
        match self {
            Value::Answer => write!(f, "answer"),
            Value::Noise => write!(f, "noise-scratch"),
            Value::Work => write!(f, "work-scratch"),
            Value::Seed => write!(f, "seed"),
            Value::PublicKey => write!(f, "public-key"),
            Value::SecretKey => write!(f, "secret-key"),
            Value::Ciphertext => write!(f, "ciphertext"),
            Value::Secret => write!(f, "shared-secret"),
            Value::Message => write!(f, "message"),
            Value::Size => write!(f, "size"),
            Value::Ratio => write!(f, "ratio"),
            Value::Verdict => write!(f, "verdict"),
            Value::Damage => write!(f, "damage"),
            Value::Command => write!(f, "command"),
        }
    }
}

// What differs first.
#[derive(Clone, Copy, PartialEq, Eq)]
pub struct Difference {
    pub call: Call,
    pub value: Value,
}

impl fmt::Display for Difference {
    fn fmt<W: fmt::Write>(&self, f: &mut fmt::Formatter<W>) -> fmt::Result {
        let call = self.call;
        let value = self.value;
        write!(f, "{call} {value} differs")
    }
}

impl Call {
    // Whether a value of this call is as it should be.
    pub fn agrees(self, value: Value, agrees: bool) -> Result<(), Difference>
        ensures right { agrees ≡ true → IsOk result }
        ensures wrong { agrees ≡ false → IfErr result (λ d. (d.call ≡ self) × (d.value ≡ value)) }
        ensures refused { agrees ≡ false → IsErr result }
    {
        if agrees {
            Ok(())
        } else {
            Err(Difference { call: self, value })
        }
    }

    // Whether it was done, and has wiped both scratches.
    fn done(self, set: u32, answer: Answer, noise: &[u16], work: &[u16]) -> Result<(), Difference> {
        let sizes = frodo::lengths_of(set);
        self.agrees(Value::Answer, sets::number(answer) == 0)?;
        self.agrees(Value::Noise, wiped(noise, sizes.noise))?;
        self.agrees(Value::Work, wiped(work, sizes.work))
    }
}

// Whether all bytes are alike.
fn all_bytes(bytes: &[u8], byte: u8) -> bool {
    bytes.iter().all(|b| *b == byte)
}

// Whether the first k words are zero, and later ones as they were.
fn wiped(words: &[u16], k: usize) -> bool {
    let (zeros, rest) = words.split_at(k.min(words.len()));
    zeros.iter().all(|word| *word == 0) && rest.iter().all(|word| *word == 0xa5a5)
}

// Whether field k has the digest of these bytes.
fn digest_is(line: Line<'_>, k: usize, bytes: &[u8]) -> bool {
    line.has(k, &replay::digest(bytes))
}

// What a line begins with.
#[derive(PartialEq, Eq, Drop)]
pub struct Input {
    pub set: u32,
    pub seed: Vec<u8>,
    pub message: Vec<u8>,
    pub salt: Vec<u8>,
}

impl Input {
    pub fn of(alloc: Global, line: Line<'_>) -> Result<Input, AllocError> {
        Ok(Input {
            set: line.decimal(0),
            seed: line.bytes(alloc, 1, 128)?,
            message: line.bytes(alloc, 2, 64)?,
            salt: line.bytes(alloc, 3, 128)?,
        })
    }
}

// Stays: scratches as arrays of set 3's length, since words behind a smaller set's scratch have to stay (docs/DECISIONS.md, "Whole calls replayed").
// Key generation, and what it leaves of seed and scratch.
fn generated(set: u32, seed: &mut [u8], pk: &mut [u8], sk: &mut [u8]) -> Result<(), Difference> {
    let mut noise = [0xa5a5u16; 21568];
    let mut work = [0xa5a5u16; 23104];
    let answer = frodo::generate_keypair_from_seed(set, seed, pk, sk, &mut noise, &mut work);
    Call::Generate.done(set, answer, &noise, &work)?;
    Call::Generate.agrees(Value::Seed, all_bytes(seed, 0))
}

// Encapsulation.
fn sealed(input: &Input, pk: &[u8], ct: &mut [u8], ss: &mut [u8]) -> Result<(), Difference> {
    let mut noise = [0xa5a5u16; 21568];
    let mut work = [0xa5a5u16; 23104];
    let answer = frodo::encapsulate(
        input.set,
        pk,
        &input.message,
        &input.salt,
        ct,
        ss,
        &mut noise,
        &mut work,
    );
    Call::Encapsulate.done(input.set, answer, &noise, &work)
}

// Keys and ciphertext.
fn made(
    input: &Input,
    seed: &mut [u8],
    pk: &mut [u8],
    sk: &mut [u8],
    ct: &mut [u8],
    ss: &mut [u8],
) -> Result<(), Difference> {
    generated(input.set, seed, pk, sk)?;
    sealed(input, pk, ct, ss)
}

// What is made of an input, in memory of the set's lengths that held other bytes before, and what differed as it was made.
#[derive(Drop)]
pub struct Sealing {
    pub input: Input,
    pk: Vec<u8>,
    sk: Vec<u8>,
    ct: Vec<u8>,
    ss: Vec<u8>,
    made: Result<(), Difference>,
}

impl Sealing {
    pub fn of(alloc: Global, input: Input) -> Result<Sealing, AllocError> {
        let sizes = frodo::lengths_of(input.set);
        let mut seed = input.seed.clone()?;
        let mut pk = vec![in alloc; 0xa5; sizes.pk]?;
        let mut sk = vec![in alloc; 0xa5; sizes.sk]?;
        let mut ct = vec![in alloc; 0xa5; sizes.ct]?;
        let mut ss = vec![in alloc; 0xa5; sizes.ss]?;
        let made = made(&input, &mut seed, &mut pk, &mut sk, &mut ct, &mut ss);
        Ok(Sealing {
            input,
            pk,
            sk,
            ct,
            ss,
            made,
        })
    }

    // A line of keys and ciphertext: PK SK CT SS.
    pub fn agrees(&self, line: Line<'_>) -> Result<(), Difference> {
        self.made?;
        Call::Generate.agrees(Value::PublicKey, digest_is(line, 4, &self.pk))?;
        Call::Generate.agrees(Value::SecretKey, digest_is(line, 5, &self.sk))?;
        Call::Encapsulate.agrees(Value::Ciphertext, digest_is(line, 6, &self.ct))?;
        Call::Encapsulate.agrees(Value::Secret, line.has(7, &self.ss))
    }

    // What a line opens: copies, since damage is done to them.
    pub fn opening(&self) -> Result<Opening, AllocError> {
        Ok(Opening {
            made: self.made,
            seed: self.input.seed.clone()?,
            sk: self.sk.clone()?,
            ct: self.ct.clone()?,
        })
    }
}

// A secret key and a ciphertext, and what differed as they were made.
#[derive(Drop)]
pub struct Opening {
    made: Result<(), Difference>,
    seed: Vec<u8>,
    sk: Vec<u8>,
    ct: Vec<u8>,
}

impl Opening {
    // The damage of a line, KIND PLACE BITS: bits exclusive-ored into one byte, where there is such a byte, or every byte replaced, by SHAKE128 over SEED.
    fn damage(&mut self, line: Line<'_>) -> Option<()> {
        let place = usize::from(u16::from_be_bytes(line.array(5)));
        let [bits] = line.array::<1>(6);
        match line.decimal(4) {
            0 => {}
            1 => *self.ct.get_mut(place)? ^= bits,
            2 => *self.sk.get_mut(place)? ^= bits,
            3 => shake::shake(168, &self.seed, &mut self.ct),
            4 => shake::shake(168, &self.seed, &mut self.sk),
            _ => return None,
        }
        Some(())
    }

    // Decapsulation, with the message: SS MSG.
    fn opened(&self, set: u32, line: Line<'_>) -> Result<(), Difference> {
        let sizes = frodo::lengths_of(set);
        let ss = &mut [0xa5u8; 32][..sizes.ss.min(32)];
        let msg = &mut [0xa5u8; 32][..sizes.message.min(32)];
        let mut noise = [0xa5a5u16; 21568];
        let mut work = [0xa5a5u16; 23104];
        let answer = frodo::decapsulate(set, &self.sk, &self.ct, ss, msg, &mut noise, &mut work);
        Call::Decapsulate.done(set, answer, &noise, &work)?;
        Call::Decapsulate.agrees(Value::Secret, line.has(7, ss))?;
        Call::Decapsulate.agrees(Value::Message, line.has(8, msg))
    }

    // And without it.
    fn secret_alone(&self, set: u32, line: Line<'_>) -> Result<(), Difference> {
        let sizes = frodo::lengths_of(set);
        let ss = &mut [0xa5u8; 32][..sizes.ss.min(32)];
        let mut noise = [0xa5a5u16; 21568];
        let mut work = [0xa5a5u16; 23104];
        let answer = frodo::decapsulate_shared_secret(
            set, &self.sk, &self.ct, ss, &mut noise, &mut work,
        );
        Call::SecretAlone.done(set, answer, &noise, &work)?;
        Call::SecretAlone.agrees(Value::Secret, line.has(7, ss))
    }

    // A line of an opening.
    pub fn agrees(&mut self, line: Line<'_>) -> Result<(), Difference> {
        let set = line.decimal(0);
        self.made?;
        let damaged = self.damage(line).is_some();
        Call::Line.agrees(Value::Damage, damaged)?;
        self.opened(set, line)?;
        self.secret_alone(set, line)
    }
}

// q / 2^(B+1).
fn half(set: u32) -> u32 {
    match set {
        3 => 2048,
        _ => 4096,
    }
}

// Size, ratio and verdict. The product of the ratio and h is exact, since h is a power of two.
fn margin_is(margin: Margin, size: u32, h: u32, kept: bool) -> Result<(), Difference> {
    let over = margin.ratio * f64::from(h) == f64::from(size);
    Call::Margin.agrees(Value::Size, margin.size == size)?;
    Call::Margin.agrees(Value::Ratio, over)?;
    Call::Margin.agrees(Value::Verdict, margin.kept == kept)
}

// A line of a margin: SIZE in two bytes, the higher first, and KEPT.
pub fn margin_agrees(input: &Input, line: Line<'_>) -> Result<(), Difference> {
    let mut noise = [0xa5a5u16; 21568];
    let mut work = [0xa5a5u16; 23104];
    let set = input.set;
    let margin = frodo::margin(
        set,
        &input.seed,
        &input.message,
        &input.salt,
        &mut noise,
        &mut work,
    );
    let size = u32::from(u16::from_be_bytes(line.array(4)));
    let [kept] = line.array::<1>(5);
    match margin {
        Ok(margin) => {
            Call::Margin.done(set, Ok(()), &noise, &work)?;
            margin_is(margin, size, half(set), kept == 1)
        }
        Err(refusal) => Call::Margin.done(set, Err(refusal), &noise, &work),
    }
}

// What key generation is lent, in other bytes.
#[derive(Drop)]
pub struct Lent {
    seed: Vec<u8>,
    pk: Vec<u8>,
    sk: Vec<u8>,
    noise: Vec<u16>,
    work: Vec<u16>,
}

impl Lent {
    // Of these lengths.
    pub fn of(
        alloc: Global,
        seed: usize,
        pk: usize,
        sk: usize,
        noise: usize,
        work: usize,
    ) -> Result<Lent, AllocError> {
        Ok(Lent {
            seed: vec![in alloc; 0xa5; seed]?,
            pk: vec![in alloc; 0xa5; pk]?,
            sk: vec![in alloc; 0xa5; sk]?,
            noise: vec![in alloc; 0xa5a5; noise]?,
            work: vec![in alloc; 0xa5a5; work]?,
        })
    }

    fn is_unchanged(&self) -> bool {
        all_bytes(&self.seed, 0xa5)
            && all_bytes(&self.pk, 0xa5)
            && all_bytes(&self.sk, 0xa5)
            && wiped(&self.noise, 0)
            && wiped(&self.work, 0)
    }

    // Key generation answers that number, and changes something exactly where the number is 0.
    pub fn refused(&mut self, set: u32, refusal: u32) -> Result<(), Difference> {
        let answer = frodo::generate_keypair_from_seed(
            set,
            &mut self.seed,
            &mut self.pk,
            &mut self.sk,
            &mut self.noise,
            &mut self.work,
        );
        Call::Generate.agrees(Value::Answer, sets::number(answer) == refusal)?;
        Call::Generate.agrees(Value::Seed, self.is_unchanged() == (refusal != 0))
    }
}
