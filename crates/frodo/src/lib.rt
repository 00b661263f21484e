// The calls that the runtime makes (docs/RULES.md, 4.8 to 4.11). None has a `requires`: a wrong set number, length or scratch is refused, and then
// nothing that was lent has changed. What each leaves is one equation, by the definitions of specs/.
#![tactic(auto)]

ghost use Rattle.std.specs.Prelude.{◌≡◌};
ghost use Rattle.frodo.specs.SetLengths.{lengths_of, lengths_for};
ghost use Rattle.ratio.specs.Answered.{answered};
ghost use Rattle.frodo.specs.One.{Keypair, Encaps, Decaps, DecapsSecret, Margins};

use ratio::Margin;
use sets::{Params, Refusal};

// Stays: a set is a number here and no enum, since the runtime hands any number, and one that is no set is refused with 1 (docs/RULES.md, 3.1 and 7.5).

// Stays: every buffer is an argument of its own, since the calls are lent what the C interface lends (crates/frodo_c), and a contract names what each holds before and after.

pub fn generate_keypair_from_seed(
    set: u32,
    seed: &mut [u8],
    pk: &mut [u8],
    sk: &mut [u8],
    noise: &mut [u16],
    work: &mut [u16],
) -> Result<(), Refusal>
    ensures { Keypair
        (record { set = set; seed = seed.old; pk = pk.old; sk = sk.old; noise = noise.old; work = work.old })
        (record { answer = result; seed = seed.new; pk = pk.new; sk = sk.new; noise = noise.new; work = work.new }) }
{
    let set = sets::choose(set).ok_or(Refusal::UnknownSet)?;
    lengths::keypair(set, seed.len(), pk.len(), sk.len(), noise.len(), work.len())?;
    keypair::generate(set, seed, pk, sk, noise, work);
    Ok(())
}

pub fn encapsulate(
    set: u32,
    pk: &[u8],
    msg: &[u8],
    salt: &[u8],
    ct: &mut [u8],
    ss: &mut [u8],
    noise: &mut [u16],
    work: &mut [u16],
) -> Result<(), Refusal>
    ensures { Encaps
        (record { set = set; pk = pk.now; msg = msg.now; salt = salt.now; ct = ct.old; ss = ss.old; noise = noise.old; work = work.old })
        (record { answer = result; ct = ct.new; ss = ss.new; noise = noise.new; work = work.new }) }
{
    let set = sets::choose(set).ok_or(Refusal::UnknownSet)?;
    lengths::encaps(
        set,
        pk.len(),
        msg.len(),
        salt.len(),
        ct.len(),
        ss.len(),
        noise.len(),
        work.len(),
    )?;
    encaps::encapsulate(set, pk, msg, salt, ct, ss, noise, work);
    Ok(())
}

pub fn decapsulate(
    set: u32,
    sk: &[u8],
    ct: &[u8],
    ss: &mut [u8],
    msg: &mut [u8],
    noise: &mut [u16],
    work: &mut [u16],
) -> Result<(), Refusal>
    ensures { Decaps
        (record { set = set; sk = sk.now; ct = ct.now; ss = ss.old; msg = msg.old; noise = noise.old; work = work.old })
        (record { answer = result; ss = ss.new; msg = msg.new; noise = noise.new; work = work.new }) }
{
    let set = sets::choose(set).ok_or(Refusal::UnknownSet)?;
    lengths::decaps(
        set,
        sk.len(),
        ct.len(),
        ss.len(),
        msg.len(),
        noise.len(),
        work.len(),
    )?;
    decaps::decapsulate(set, sk, ct, ss, msg, noise, work);
    Ok(())
}

pub fn decapsulate_shared_secret(
    set: u32,
    sk: &[u8],
    ct: &[u8],
    ss: &mut [u8],
    noise: &mut [u16],
    work: &mut [u16],
) -> Result<(), Refusal>
    ensures { DecapsSecret
        (record { set = set; sk = sk.now; ct = ct.now; ss = ss.old; noise = noise.old; work = work.old })
        (record { answer = result; ss = ss.new; noise = noise.new; work = work.new }) }
{
    let set = sets::choose(set).ok_or(Refusal::UnknownSet)?;
    lengths::decaps_secret(set, sk.len(), ct.len(), ss.len(), noise.len(), work.len())?;
    decaps::decapsulate_shared_secret(set, sk, ct, ss, noise, work);
    Ok(())
}

// The seed is kept: a margin is asked for where seed, message and salt are still known.
pub fn margin(
    set: u32,
    seed: &[u8],
    msg: &[u8],
    salt: &[u8],
    noise: &mut [u16],
    work: &mut [u16],
) -> Result<Margin, Refusal>
    ensures { Margins
        (record { set = set; seed = seed.now; msg = msg.now; salt = salt.now; noise = noise.old; work = work.old })
        (record { margin = answered result; noise = noise.new; work = work.new }) }
{
    let set = sets::choose(set).ok_or(Refusal::UnknownSet)?; // before any length is looked at
    lengths::margin(
        set,
        seed.len(),
        msg.len(),
        salt.len(),
        noise.len(),
        work.len(),
    )?;
    Ok(margin::margin(set, seed, msg, salt, noise, work))
}

// The lengths of a set's buffers, the scratches' in words.
#[derive(Clone, Copy, Default)]
pub struct SetLengths {
    pub seed: usize,
    pub pk: usize,
    pub sk: usize,
    pub ct: usize,
    pub message: usize,
    pub salt: usize,
    pub ss: usize,
    pub noise: usize,
    pub work: usize,
}

impl From<Params> for SetLengths {
    ghost from_gives = { λ p l. l ≡ lengths_of p };

    fn from(p: Params) -> SetLengths {
        SetLengths {
            seed: p.seed,
            pk: p.pk,
            sk: p.sk,
            ct: p.ct,
            message: p.secret,
            salt: p.salt,
            ss: p.secret,
            noise: p.noise,
            work: p.work,
        }
    }
}

// All 0 where the number is no set.
pub fn lengths_of(set: u32) -> SetLengths
    ensures { result ≡ lengths_for set }
{
    match sets::choose(set) {
        Some(set) => SetLengths::from(set.p),
        None => SetLengths::default(),
    }
}
