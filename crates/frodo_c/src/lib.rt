// The C interface: one thin function a call, which answers the paper's number. A slice is a pointer and a length in elements.
#![tactic(auto)]

ghost use Rattle.std.specs.Prelude.{◌≡◌};
ghost use Rattle.ratio.specs.Answered.{answered};
ghost use Rattle.frodo.specs.One.{Keypair, Encaps, Decaps, DecapsSecret, Margins};
ghost use Rattle.frodo.specs.SetLengths.{lengths_for};
ghost use Rattle.frodo_c.specs.Call.{Call, MarginCall, margin_of};
ghost use Rattle.frodo_c.specs.Table.{Fits, lengths_in_c};

use frodo::SetLengths;
use ratio::Margin;
use sets::Refusal;

// Stays: the C interface: a set is any number, an answer is the paper's number, and a buffer is a slice of its own, as include/frodo.h declares each function.

#[unsafe(no_mangle)]
pub extern "C" fn frodo_generate_keypair_from_seed(
    set: u32,
    seed: &mut [u8],
    pk: &mut [u8],
    sk: &mut [u8],
    noise: &mut [u16],
    work: &mut [u16],
) -> u32
    ensures { Call (λ a. Keypair
        (record { set = set; seed = seed.old; pk = pk.old; sk = sk.old; noise = noise.old; work = work.old })
        (record { answer = a; seed = seed.new; pk = pk.new; sk = sk.new; noise = noise.new; work = work.new })) result }
{
    let answer = frodo::generate_keypair_from_seed(set, seed, pk, sk, noise, work);
    sets::number(answer)
}

#[unsafe(no_mangle)]
pub extern "C" fn frodo_encapsulate(
    set: u32,
    pk: &[u8],
    message: &[u8],
    salt: &[u8],
    ct: &mut [u8],
    ss: &mut [u8],
    noise: &mut [u16],
    work: &mut [u16],
) -> u32
    ensures { Call (λ a. Encaps
        (record { set = set; pk = pk.now; msg = message.now; salt = salt.now; ct = ct.old; ss = ss.old; noise = noise.old; work = work.old })
        (record { answer = a; ct = ct.new; ss = ss.new; noise = noise.new; work = work.new })) result }
{
    let answer = frodo::encapsulate(set, pk, message, salt, ct, ss, noise, work);
    sets::number(answer)
}

#[unsafe(no_mangle)]
pub extern "C" fn frodo_decapsulate(
    set: u32,
    sk: &[u8],
    ct: &[u8],
    ss: &mut [u8],
    message: &mut [u8],
    noise: &mut [u16],
    work: &mut [u16],
) -> u32
    ensures { Call (λ a. Decaps
        (record { set = set; sk = sk.now; ct = ct.now; ss = ss.old; msg = message.old; noise = noise.old; work = work.old })
        (record { answer = a; ss = ss.new; msg = message.new; noise = noise.new; work = work.new })) result }
{
    let answer = frodo::decapsulate(set, sk, ct, ss, message, noise, work);
    sets::number(answer)
}

#[unsafe(no_mangle)]
pub extern "C" fn frodo_decapsulate_shared_secret(
    set: u32,
    sk: &[u8],
    ct: &[u8],
    ss: &mut [u8],
    noise: &mut [u16],
    work: &mut [u16],
) -> u32
    ensures { Call (λ a. DecapsSecret
        (record { set = set; sk = sk.now; ct = ct.now; ss = ss.old; noise = noise.old; work = work.old })
        (record { answer = a; ss = ss.new; noise = noise.new; work = work.new })) result }
{
    let answer = frodo::decapsulate_shared_secret(set, sk, ct, ss, noise, work);
    sets::number(answer)
}

// struct frodo_margin of the C interface.
// Stays: the C interface: it has the refusal's number beside the margin, and the verdict as 1 or 0.
#[repr(C)]
#[derive(Clone, Copy)]
pub struct FrodoMargin {
    pub refusal: u32,
    pub size: u32,
    pub ratio: f64,
    pub kept: u32,
}

fn margin_of(m: Result<Margin, Refusal>) -> FrodoMargin
    ensures { result ≡ margin_of (answered m) }
{
    match m {
        Ok(m) => FrodoMargin {
            refusal: 0,
            size: m.size,
            ratio: m.ratio,
            kept: u32::from(m.kept),
        },
        Err(refusal) => FrodoMargin {
            refusal: sets::number(Err(refusal)),
            size: 0,
            ratio: 0.0,
            kept: 0,
        },
    }
}

#[unsafe(no_mangle)]
pub extern "C" fn frodo_margin(
    set: u32,
    seed: &[u8],
    message: &[u8],
    salt: &[u8],
    noise: &mut [u16],
    work: &mut [u16],
) -> FrodoMargin
    ensures { MarginCall (λ m. Margins
        (record { set = set; seed = seed.now; msg = message.now; salt = salt.now; noise = noise.old; work = work.old })
        (record { margin = m; noise = noise.new; work = work.new })) result }
{
    let m = frodo::margin(set, seed, message, salt, noise, work);
    margin_of(m)
}

// struct frodo_lengths of the C interface.
#[repr(C)]
#[derive(Clone, Copy)]
pub struct FrodoLengths {
    pub seed: u32,
    pub public_key: u32,
    pub secret_key: u32,
    pub ciphertext: u32,
    pub message: u32,
    pub salt: u32,
    pub shared_secret: u32,
    pub noise_words: u32,
    pub work_words: u32,
}

// Stays: a function with a `requires` and no `From`, which cannot ask that the lengths fit into 32 bits.
fn lengths_in_c(l: SetLengths) -> FrodoLengths
    requires { Fits l }
    ensures { result ≡ lengths_in_c l }
{
    FrodoLengths {
        seed: l.seed as u32,
        public_key: l.pk as u32,
        secret_key: l.sk as u32,
        ciphertext: l.ct as u32,
        message: l.message as u32,
        salt: l.salt as u32,
        shared_secret: l.ss as u32,
        noise_words: l.noise as u32,
        work_words: l.work as u32,
    }
}

// The lengths of a set's buffers, all 0 where the number is no set.
#[unsafe(no_mangle)]
pub extern "C" fn frodo_lengths(set: u32) -> FrodoLengths
    ensures { result ≡ lengths_in_c (lengths_for set) }
{
    let l = frodo::lengths_of(set);
    lengths_in_c(l)
}
