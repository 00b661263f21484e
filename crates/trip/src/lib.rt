// The third demand of the program (docs/RULES.md, 1.3): key generation, encapsulation and decapsulation in a row, on whatever is lent.
#![tactic(auto)]

ghost use Rattle.trip.specs.ThereAndBack.{ThereAndBack};

use sets::Answer;

// What the three calls answer.
#[derive(Clone, Copy)]
pub struct Answers {
    pub keys: Answer,
    pub sealing: Answer,
    pub opening: Answer,
}

// Stays: every buffer is an argument of its own, as of the three calls that it makes (crates/frodo).
// `ss` takes encapsulation's secret, `opened` and `back` decapsulation's secret and message.
pub fn there_and_back(
    set: u32,
    seed: &mut [u8],
    pk: &mut [u8],
    sk: &mut [u8],
    msg: &[u8],
    salt: &[u8],
    ct: &mut [u8],
    ss: &mut [u8],
    opened: &mut [u8],
    back: &mut [u8],
    noise: &mut [u16],
    work: &mut [u16],
) -> Answers
    ensures { ThereAndBack
        (record { set = set; seed = seed.old; pk = pk.old; sk = sk.old; msg = msg.now; salt = salt.now; ct = ct.old; ss = ss.old; opened = opened.old; back = back.old; noise = noise.old; work = work.old })
        (record { answers = result; seed = seed.new; pk = pk.new; sk = sk.new; ct = ct.new; ss = ss.new; opened = opened.new; back = back.new; noise = noise.new; work = work.new }) }
{
    let keys = frodo::generate_keypair_from_seed(set, seed, pk, sk, noise, work);
    let sealing = frodo::encapsulate(set, pk, msg, salt, ct, ss, noise, work);
    let opening = frodo::decapsulate(set, sk, ct, opened, back, noise, work);
    Answers {
        keys,
        sealing,
        opening,
    }
}
