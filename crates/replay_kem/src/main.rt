// Replays whole calls: the published answers, the oracle's on honest and on damaged input, margins by an independent computation, and the refusals of docs/RULES.md, 5.6.
// Prints each line of a list that differs, and how many agree. `replay_calls` has the calls.
#![tactic(auto)]

use replay::{Line, Tally};
use replay_calls::{Call, Difference, Input, Lent, Sealing, Value};
use std::alloc::{AllocError, Global};
use std::io;
use std::rt::Files;

// The kinds of lines. One of keys and a ciphertext begins with the set, and the others with a word.
#[derive(Clone, Copy, PartialEq, Eq)]
enum Kind {
    Keys,
    Opening,
    Margin,
    Other,
}

fn kind_of(line: Line<'_>) -> Kind {
    match line.text {
        [b'1'..=b'3', ..] => Kind::Keys,
        [b'o', ..] => Kind::Opening,
        [b'm', ..] => Kind::Margin,
        _ => Kind::Other,
    }
}

// Prints the place in a list, where something differs there. Answers whether nothing does.
fn noted(
    rt: &impl Print,
    list: &str,
    number: usize,
    agrees: Result<(), Difference>,
) -> io::Result<bool> {
    if let Err(difference) = agrees {
        println!(rt; "{list} line {number}: {difference}")?;
    }
    Ok(agrees.is_ok())
}

// Makes what a line needs, unless the line before had the same input: so it is made once for lines in a row that share it.
fn make(alloc: Global, sealing: &mut Sealing, line: Line<'_>) -> Result<(), AllocError> {
    let input = Input::of(alloc, line)?;
    if sealing.input != input {
        *sealing = Sealing::of(alloc, input)?;
    }
    Ok(())
}

fn line_agrees(
    alloc: Global,
    kind: Kind,
    sealing: &mut Sealing,
    line: Line<'_>,
) -> Result<Result<(), Difference>, AllocError> {
    match kind {
        Kind::Keys => {
            make(alloc, sealing, line)?;
            Ok(sealing.agrees(line))
        }
        Kind::Opening => {
            make(alloc, sealing, line.behind())?;
            Ok(sealing.opening()?.agrees(line.behind()))
        }
        Kind::Margin => {
            let input = Input::of(alloc, line.behind())?;
            Ok(replay_calls::margin_agrees(&input, line.behind()))
        }
        Kind::Other => Ok(Call::Line.agrees(Value::Command, false)),
    }
}

// Replays the lines of a kind in the list of that name.
fn replay_list<R: Files + Print>(
    rt: &R,
    alloc: Global,
    name: &str,
    list: &str,
    kind: Kind,
) -> io::Result<()> {
    let text = replay::read(rt, alloc, list.as_bytes(), 524288)?;
    let nothing = Line {
        number: 0,
        text: b"",
    };
    let mut sealing = Sealing::of(alloc, Input::of(alloc, nothing)?)?;
    let tally = replay::count(&text, |tally, line| -> io::Result<Tally> {
        if kind_of(line) != kind {
            return Ok(tally);
        }
        let agrees = line_agrees(alloc, kind, &mut sealing, line)?;
        Ok(tally.with(noted(rt, list, line.number, agrees)?))
    })?;
    println!(rt; "{name}: {tally}")
}

// The numbers on each side of an edge for key generation (docs/RULES.md, 5.6): set, lengths of seed, keys and scratches, and the answer.
const REFUSALS: [(u32, [usize; 5], u32); 6] = [
    (1, [63, 9616, 19888, 10304, 11136], 2),
    (1, [65, 9616, 19888, 10304, 11136], 2),
    (1, [64, 9615, 19888, 10304, 11136], 3),
    (1, [64, 9616, 19888, 10303, 11136], 9),
    (1, [64, 9616, 19888, 10304, 11136], 0),
    (0, [63, 9615, 19887, 10303, 11135], 1),
];

fn refusals(rt: &impl Print, alloc: Global) -> io::Result<()> {
    let mut tally = Tally::new();
    for (number, (set, [seed, pk, sk, noise, work], refusal)) in (1..).zip(REFUSALS) {
        let mut lent = Lent::of(alloc, seed, pk, sk, noise, work)?;
        tally = tally.with(noted(rt, "refusals", number, lent.refused(set, refusal))?);
    }
    println!(rt; "the rules' refusals: {tally}")
}

fn main(rt: HostRuntime) -> io::Result<()> {
    let alloc = rt.alloc();
    replay_list(&rt, alloc, "published answers", "published.txt", Kind::Keys)?;
    replay_list(
        &rt,
        alloc,
        "other published lines",
        "published.txt",
        Kind::Other,
    )?;
    replay_list(&rt, alloc, "keys and ciphertexts", "kem.txt", Kind::Keys)?;
    replay_list(&rt, alloc, "openings", "kem.txt", Kind::Opening)?;
    replay_list(&rt, alloc, "margins", "kem.txt", Kind::Margin)?;
    replay_list(&rt, alloc, "other lines", "kem.txt", Kind::Other)?;
    refusals(&rt, alloc)
}
