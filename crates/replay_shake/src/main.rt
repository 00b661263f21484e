// Replays SHAKE answers: the published ones, and a list around each block's edge. Prints how many of each kind agree.
#![tactic(auto)]

ghost use Rattle.std.specs.Prelude.{◌≡◌, ◌%◌, ◌≤◌, ◌<◌, IfOk};
ghost use Rattle.shake.specs.Sponge.{Squeezing, Even};
ghost use Rattle.replay.specs.Counted.{Counted};

use replay::{Line, Tally};
use shake::Sponge;
use std::alloc::{AllocError, Global};
use std::io;
use std::rt::Files;

// The output lengths that are tried on the list of edges.
const LENGTHS: [usize; 15] = [
    0, 1, 135, 136, 137, 167, 168, 169, 271, 272, 273, 335, 336, 337, 2688,
];

#[derive(Clone, Copy)]
enum Hash {
    Shake128,
    Shake256,
}

impl Hash {
    // By the bits of its name, SHAKE256 where that is not 128.
    fn of(bits: u32) -> Hash {
        match bits {
            128 => Hash::Shake128,
            _ => Hash::Shake256,
        }
    }

    fn rate(self) -> usize
        ensures { (0 < result) × (result ≤ 200) × (result % 2 ≡ 0) }
    {
        match self {
            Hash::Shake128 => 168,
            Hash::Shake256 => 136,
        }
    }

    // A sponge that has taken in two parts of an input.
    fn over(self, first: &[u8], second: &[u8]) -> Sponge
        ensures { Squeezing result × Even result }
    {
        let p = Sponge::new(self.rate());
        let p = p.absorb(first);
        let p = p.absorb(second);
        p.finish()
    }
}

// Two pieces of a sponge's bytes.
fn pieces(p: Sponge, first: &mut [u8], second: &mut [u8])
    requires { Squeezing p }
{
    let q = p.squeeze(first);
    q.squeeze(second);
}

// A line: 128 or 256, the input, the output.
#[derive(Drop)]
struct Answer {
    hash: Hash,
    input: Vec<u8>,
    output: Vec<u8>,
}

impl Answer {
    fn of(alloc: Global, line: Line<'_>) -> Result<Answer, AllocError> {
        Ok(Answer {
            hash: Hash::of(line.decimal(0)),
            input: line.bytes(alloc, 1, 4096)?,
            output: line.bytes(alloc, 2, 4096)?,
        })
    }

    // Whether these are the first bytes, in one call.
    fn begins_with(&self, alloc: Global, output: &[u8]) -> Result<bool, AllocError> {
        let mut out = vec![in alloc; 0; output.len()]?;
        shake::shake(self.hash.rate(), &self.input, &mut out);
        Ok(out.as_slice() == output)
    }

    // Whether the output is right in two pieces, for two parts of the input, both cut at that length.
    fn holds_cut(&self, alloc: Global, len: usize) -> Result<bool, AllocError> {
        let (front, rest) = self.input.split_at(len.min(self.input.len()));
        let (first, second) = self.output.split_at(len.min(self.output.len()));
        let mut one = vec![in alloc; 0; first.len()]?;
        let mut two = vec![in alloc; 0; second.len()]?;
        pieces(self.hash.over(front, rest), &mut one, &mut two);
        Ok(one.as_slice() == first && two.as_slice() == second)
    }

    // Whether it is right as words of two bytes, the lower first.
    fn holds_in_words(&self) -> bool {
        let mut words = [0u16; 1344];
        let mut bytes = [0u8; 2688];
        self.hash.over(&self.input, b"").squeeze_words(&mut words);
        words::bytes_of(&words, &mut bytes);
        bytes.as_slice() == self.output.as_slice()
    }

    // At one output length: in one call, and with input and output cut there.
    fn at_length(&self, alloc: Global, tally: Tally, len: usize) -> Result<Tally, AllocError>
        ensures { Counted tally → IfOk result Counted }
    {
        let (first, _) = self.output.split_at(len.min(self.output.len()));
        let tally = tally.with(self.begins_with(alloc, first)?);
        Ok(tally.with(self.holds_cut(alloc, len)?))
    }
}

// A published line, in one call.
fn published(alloc: Global, tally: Tally, line: Line<'_>) -> Result<Tally, AllocError>
    ensures { Counted tally → IfOk result Counted }
{
    let answer = Answer::of(alloc, line)?;
    Ok(tally.with(answer.begins_with(alloc, &answer.output)?))
}

// A line around a block's edge, at every length of the list, and in words.
fn edges(alloc: Global, tally: Tally, line: Line<'_>) -> Result<Tally, AllocError>
    ensures { Counted tally → IfOk result Counted }
{
    let answer = Answer::of(alloc, line)?;
    let mut tally = tally.with(answer.holds_in_words());
    for len in LENGTHS {
        tally = answer.at_length(alloc, tally, len)?;
    }
    Ok(tally)
}

// Replays a list: `with` adds the answers of a line.
fn replay_list<F: FnMut(Tally, Line<'_>) -> Result<Tally, AllocError>>(
    rt: &(impl Files + Print),
    alloc: Global,
    name: &str,
    path: &str,
    with: F,
) -> io::Result<()>
    requires { F.IsAlwaysCallable with }
{
    let text = replay::read(rt, alloc, path.as_bytes(), 262144)?;
    let tally = replay::count(&text, with)?;
    println!(rt; "{name}: {tally}")
}

fn main(rt: HostRuntime) -> io::Result<()> {
    let alloc = rt.alloc();
    replay_list(
        &rt,
        alloc,
        "published answers",
        "published.txt",
        |tally, line| { published(alloc, tally, line) },
    )?;
    replay_list(
        &rt,
        alloc,
        "answers around each block's edge",
        "edges.txt",
        |tally, line| { edges(alloc, tally, line) },
    )
}
