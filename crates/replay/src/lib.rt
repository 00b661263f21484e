// What the replay programs share: lists of answers as text, one a line, fields between single spaces, bytes as hex digits, '-' for no bytes.
// A list that is malformed leads to answers that do not agree, and never out of bounds.
#![tactic(auto)]

ghost use Rattle.std.specs.Prelude.{◌≡◌, ◌==◌, ◌+◌, ◌≤◌, ◌<◌, true, length, get_or, min, slice_get, vec_len, IfOk};
ghost use Rattle.std.specs.Iterator.{IsFinite};
ghost use Rattle.std.specs.List.{slice_split};
ghost use Rattle.std.specs.Option.{option_map};
ghost use Rattle.shake.specs.Shake.{shake};
ghost use Rattle.replay.specs.Counted.{Counted, KeepsCounted};

use std::alloc::{AllocError, Global};
use std::fs::File;
use std::io::Read;
use std::rt::Files;
use std::{fmt, io};

// The file of that name, as much of it as `most` bytes hold. A name that is not UTF-8 is an error, since std opens no such file.
pub fn read(rt: &impl Files, alloc: Global, path: &[u8], most: usize) -> io::Result<Vec<u8>>
    ensures { IfOk result (λ text. vec_len text ≤ most) }
{
    let Ok(name) = str::from_utf8(path) else {
        return Err(io::Error::from(io::ErrorKind::InvalidInput));
    };
    let mut text = Vec::new(alloc);
    File::open(rt, name)?
        .take(most as u64)
        .read_to_end(&mut text)?;
    // the contract of `take` does not give its limit
    text.truncate(most);
    Ok(text)
}

// A line of a list, and its number there, from 1 on.
#[derive(Clone, Copy)]
pub struct Line<'a> {
    pub number: usize,
    pub text: &'a [u8],
}

impl<'a> Line<'a> {
    // Whether it says nothing to a program: it is empty, or begins with '#'.
    pub fn is_comment(self) -> bool
        ensures empty { length self.entry.text.now ≡ 0 → result ≡ true }
        ensures marked { result ≡ true → 0 < length self.entry.text.now → get_or self.entry.text.now 0 0 ≡ 35 }
    {
        matches!(self.text, [] | [b'#', ..])
    }

    // Field k, where there are as many.
    pub fn field(self, k: usize) -> Option<&'a [u8]>
        ensures { option_map (λ f. f.now) result ≡ slice_get (slice_split (λ b. b == 32) self.entry.text.now) k }
    {
        self.text.split(|b| *b == b' ').nth(k)
    }

    // The line without its first field.
    pub fn behind(self) -> Line<'a>
        ensures { (length result.text.now ≤ length self.entry.text.now) × (result.number ≡ self.entry.number) }
    {
        let text = match self.text.iter().position(|b| *b == b' ') {
            Some(i) => &self.text[i + 1..],
            None => &[],
        };
        Line {
            number: self.number,
            text,
        }
    }

    // The number of at most three decimal digits in field k, 0 for anything else.
    pub fn decimal(self, k: usize) -> u32
        ensures { result < 1666 }
    {
        match self.field(k) {
            Some([a]) => u32::from(digit(*a)),
            Some([a, b]) => u32::from(digit(*a)) * 10 + u32::from(digit(*b)),
            Some([a, b, c]) => u32::from(digit(*a)) * 100
                + u32::from(digit(*b)) * 10
                + u32::from(digit(*c)),
            _ => 0,
        }
    }

    // The pairs of hex digits in field k, none where there is no such field.
    fn pairs(self, k: usize) -> &'a [[u8; 2]] {
        let (pairs, _) = self.field(k).unwrap_or(&[]).as_chunks::<2>();
        pairs
    }

    // The bytes of field k, at most so many.
    pub fn bytes(self, alloc: Global, k: usize, most: usize) -> Result<Vec<u8>, AllocError>
        ensures { IfOk result (λ v. vec_len v ≤ most) }
    {
        self.pairs(k).iter().take(most).map(byte).collect(alloc)
    }

    // The first N bytes of field k, with zeros where there are fewer.
    pub fn array<const N: usize>(self, k: usize) -> [u8; N] {
        let mut bytes = [0; N];
        for (b, pair) in bytes.iter_mut().zip(self.pairs(k)) {
            *b = byte(pair);
        }
        bytes
    }

    // Whether field k has these bytes.
    pub fn has(self, k: usize, bytes: &[u8]) -> bool {
        self.pairs(k).iter().map(byte).eq(bytes.iter().copied())
    }
}

// The value of a hex digit, 0 for any other byte.
fn digit(b: u8) -> u8
    ensures { result < 16 }
{
    match b {
        b'0'..=b'9' => b - b'0',
        b'a'..=b'f' => b - b'a' + 10,
        _ => 0,
    }
}

// The byte of two hex digits.
fn byte(pair: &[u8; 2]) -> u8 {
    let [high, low] = *pair;
    digit(high) * 16 + digit(low)
}

// A long answer by its digest: 16 bytes of SHAKE256.
pub fn digest(bytes: &[u8]) -> [u8; 16]
    ensures { result ≡ shake 136 bytes.now 16 }
{
    let mut digest = [0u8; 16];
    shake::shake(136, bytes, &mut digest);
    digest
}

// Agreeing answers, and all of them: of those that `new` and `with` make, no more agree than there are. It stops counting at a million.
#[derive(Clone, Copy)]
pub struct Tally {
    pub right: usize,
    pub all: usize,
}

impl Tally {
    pub fn new() -> Self
        ensures { (result.right ≡ 0) × (result.all ≡ 0) }
    {
        Self { right: 0, all: 0 }
    }

    // With one answer more.
    pub fn with(self, agrees: bool) -> Self
        ensures most { result.all ≤ self.all + 1 }
        ensures all { self.all ≤ 1000000 → self.right ≤ self.all → result.all ≡ min (self.all + 1) 1000000 }
        ensures right { result.right ≤ self.right + 1 }
        ensures within { self.all ≤ 1000000 → self.right ≤ self.all → result.right ≤ result.all }
    {
        if self.all >= 1_000_000 || self.right >= 1_000_000 {
            return self;
        }
        Self {
            right: self.right + usize::from(agrees),
            all: self.all + 1,
        }
    }
}

impl fmt::Display for Tally {
    fn fmt<W: fmt::Write>(&self, f: &mut fmt::Formatter<W>) -> fmt::Result {
        let right = self.right;
        let all = self.all;
        write!(f, "{right} of {all} agree")
    }
}

// Counts the answers of those lines.
// A function of its own: what `with` keeps stands in the loop's invariant, and rt check takes none of a loop over `split` in a function with type parameters.
fn count_lines<'a, I, E, F>(lines: I, with: &mut F) -> Result<Tally, E>
where
    I: Iterator<Item = (usize, &'a [u8])>,
    F: FnMut(Tally, Line<'_>) -> Result<Tally, E>,
    requires can { I.can_next lines }
    requires finite { IsFinite (I.remaining lines) }
    requires callable { F.IsAlwaysCallable with.old }
    ensures { KeepsCounted F.step → IfOk result Counted }
{
    let mut tally = Tally::new();
    for (number, text) in lines {
        let line = Line { number, text };
        if !line.is_comment() {
            tally = with(tally, line)?;
        }
    }
    Ok(tally)
}

// Counts the answers of a list: `with` adds those of a line that says something. Where it keeps what `Counted` says of a tally, the answer is so, too.
pub fn count<E, F: FnMut(Tally, Line<'_>) -> Result<Tally, E>>(
    text: &[u8],
    mut with: F,
) -> Result<Tally, E>
    requires { F.IsAlwaysCallable with }
    ensures { KeepsCounted F.step → IfOk result Counted }
{
    count_lines((1..).zip(text.split(|b| *b == b'\n')), &mut with)
}
