// Replays the oracle's answers for sampling, message coding and packing, the numbers on each side of an edge (docs/RULES.md, 5), and verdicts on noise whose worst entry
// lies around an end of the range. Prints how many agree.
#![tactic(auto)]

ghost use Rattle.std.specs.Prelude.{◌≡◌, ◌*◌, ◌≤◌, length, vec_len, IfOk};
ghost use Rattle.sets.specs.Sets.{Valid};

use ratio::Margin;
use replay::{Line, Tally};
use replay_answers::bytes_of;
use sets::{Chi, Set};
use std::alloc::{AllocError, Global};
use std::io;

// The kinds of lines.
#[derive(Clone, Copy, PartialEq, Eq)]
enum Kind {
    Sample,
    Decode,
    OneSample,
    OneDecode,
    Pack,
    Unpack,
    Encode,
    Margin,
}

// What is printed of each kind, and of any other line.
const KINDS: [(Option<Kind>, &str); 9] = [
    (Some(Kind::Sample), "every word sampled"),
    (Some(Kind::Decode), "every word decoded"),
    (Some(Kind::OneSample), "the rules' words sampled"),
    (Some(Kind::OneDecode), "the rules' words decoded"),
    (Some(Kind::Pack), "eight words packed"),
    (Some(Kind::Unpack), "eight words unpacked"),
    (Some(Kind::Encode), "messages encoded"),
    (Some(Kind::Margin), "verdicts on noise"),
    (None, "other lines"),
];

fn kind_of(line: Line<'_>) -> Option<Kind> {
    match line.field(0)? {
        b"sample" => Some(Kind::Sample),
        b"decode" => Some(Kind::Decode),
        b"one_sample" => Some(Kind::OneSample),
        b"one_decode" => Some(Kind::OneDecode),
        b"pack" => Some(Kind::Pack),
        b"unpack" => Some(Kind::Unpack),
        b"encode" => Some(Kind::Encode),
        b"margin" => Some(Kind::Margin),
        _ => None,
    }
}

// Every word, in order.
fn every_word(alloc: Global) -> Result<Vec<u16>, AllocError> {
    (0..=u16::MAX).collect(alloc)
}

// Every word, sampled.
fn sample(alloc: Global, chi: Chi, expected: &[u8]) -> Result<bool, AllocError> {
    let mut words = every_word(alloc)?;
    hashes::store_samples(chi, &mut words);
    Ok(replay::digest(&bytes_of(alloc, &words)?).as_slice() == expected)
}

// The message of 64 words.
fn decoded(alloc: Global, set: Set, words: &[u16]) -> Result<Vec<u8>, AllocError>
    requires { length words.now ≡ 64 }
    ensures { IfOk result (λ v. vec_len v ≡ set.p.secret) }
{
    let mut message = vec![in alloc; 0xa5; set.p.secret]?;
    message::decode_message(set.p.q, set.p.b, words, &mut message);
    Ok(message)
}

// Every word, decoded, 64 words at a time.
fn decode(alloc: Global, set: Set, expected: &[u8]) -> Result<bool, AllocError> {
    let words = every_word(alloc)?;
    let (groups, _) = words.as_chunks::<64>();
    let mut bytes = Vec::new(alloc);
    for group in groups {
        bytes.extend_from_slice(&decoded(alloc, set, group)?)?;
    }
    Ok(replay::digest(&bytes).as_slice() == expected)
}

// A word, sampled.
fn one_sample(alloc: Global, chi: Chi, input: &[u8], expected: &[u8]) -> Result<bool, AllocError> {
    let [lower, higher] = input else {
        return Ok(false);
    };
    let mut words = [u16::from_le_bytes([*lower, *higher])];
    hashes::store_samples(chi, &mut words);
    Ok(bytes_of(alloc, &words)?.as_slice() == expected)
}

// A word, decoded, with 63 zero words after it: the first byte is its group.
fn one_decode(alloc: Global, set: Set, input: &[u8], expected: &[u8]) -> Result<bool, AllocError> {
    let [lower, higher] = input else {
        return Ok(false);
    };
    let mut words = [0u16; 64];
    words[0] = u16::from_le_bytes([*lower, *higher]);
    let message = decoded(alloc, set, &words)?;
    Ok(&message[..1] == expected)
}

// Eight words, packed.
fn pack(alloc: Global, set: Set, input: &[u8], expected: &[u8]) -> Result<bool, AllocError> {
    if input.len() != 16 {
        return Ok(false);
    }
    let mut words = [0u16; 8];
    let mut bytes = vec![in alloc; 0; set.p.d]?;
    words::words_of(input, &mut words);
    codec::pack(set.p.d, &words, &mut bytes);
    Ok(bytes.as_slice() == expected)
}

// Eight words, unpacked.
fn unpack(alloc: Global, set: Set, input: &[u8], expected: &[u8]) -> Result<bool, AllocError> {
    if input.len() != set.p.d {
        return Ok(false);
    }
    let mut words = [0u16; 8];
    codec::unpack(set.p.d, input, &mut words);
    Ok(bytes_of(alloc, &words)?.as_slice() == expected)
}

// A message, encoded.
fn encode(alloc: Global, set: Set, input: &[u8], expected: &[u8]) -> Result<bool, AllocError> {
    if input.len() != set.p.secret {
        return Ok(false);
    }
    let mut words = [0u16; 64];
    message::encode_message(set.p.q, set.p.b, input, &mut words);
    Ok(replay::digest(&bytes_of(alloc, &words)?).as_slice() == expected)
}

// Whether this is the listed margin, SIZE in two bytes, the higher first, and KEPT, and a message comes back just where it is kept. The product of the ratio and h is
// exact, since h is a power of two.
fn margin_is(margin: Margin, h: u32, back: bool, expected: &[u8]) -> bool {
    let [higher, lower, kept] = expected else {
        return false;
    };
    let size = u32::from(u16::from_le_bytes([*lower, *higher]));
    let kept = *kept == 1;
    margin.size == size
        && margin.ratio * f64::from(h) == f64::from(size)
        && margin.kept == kept
        && back == kept
}

// 64 words of noise, judged, and decoded: the words of a message of zeros are zeros.
fn margin(alloc: Global, set: Set, input: &[u8], expected: &[u8]) -> Result<bool, AllocError> {
    if input.len() != 128 {
        return Ok(false);
    }
    let h = set.p.q >> (set.p.b + 1);
    let mut words = [0u16; 64];
    words::words_of(input, &mut words);
    rows::modulus(set).low_all(&mut words);
    let margin = ratio::margin_of(set.p.q, h, &words);
    let back = decoded(alloc, set, &words)?.iter().all(|byte| *byte == 0);
    Ok(margin_is(margin, h, back, expected))
}

// One line's input and answer. The lines on every word have the answer alone, as their third field.
fn agrees(
    alloc: Global,
    set: Set,
    kind: Kind,
    third: &[u8],
    fourth: &[u8],
) -> Result<bool, AllocError> {
    match kind {
        Kind::Sample => sample(alloc, set.p.chi, third),
        Kind::Decode => decode(alloc, set, third),
        Kind::OneSample => one_sample(alloc, set.p.chi, third, fourth),
        Kind::OneDecode => one_decode(alloc, set, third, fourth),
        Kind::Pack => pack(alloc, set, third, fourth),
        Kind::Unpack => unpack(alloc, set, third, fourth),
        Kind::Encode => encode(alloc, set, third, fourth),
        Kind::Margin => margin(alloc, set, third, fourth),
    }
}

// How many bytes field k has.
fn length(line: Line<'_>, k: usize) -> usize {
    line.field(k).unwrap_or(&[]).len() / 2
}

// One line of a kind: KIND SET, and its bytes, of which 128 and 64 are looked at.
fn line_agrees(alloc: Global, kind: Kind, line: Line<'_>) -> Result<bool, AllocError> {
    let Some(set) = sets::choose(line.decimal(1)) else {
        return Ok(false);
    };
    let third: [u8; 128] = line.array(2);
    let fourth: [u8; 64] = line.array(3);
    let third = &third[..length(line, 2).min(128)];
    let fourth = &fourth[..length(line, 3).min(64)];
    agrees(alloc, set, kind, third, fourth)
}

fn main(rt: HostRuntime) -> io::Result<()> {
    let alloc = rt.alloc();
    let text = replay::read(&rt, alloc, b"parts.txt", 262144)?;
    for (kind, name) in KINDS {
        let tally = replay::count(&text, |tally, line| -> Result<Tally, AllocError> {
            if kind_of(line) != kind {
                return Ok(tally);
            }
            let agrees = match kind {
                Some(kind) => line_agrees(alloc, kind, line)?,
                None => false,
            };
            Ok(tally.with(agrees))
        })?;
        println!(rt; "{name}: {tally}")?;
    }
    Ok(())
}
