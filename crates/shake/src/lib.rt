// FIPS 202 (2015), the sponge construction and SHAKE: a sponge over Keccak, at any rate of up to 200 bytes (SHAKE128 has 168, SHAKE256 has 136).
// A sponge goes by value: new, absorb as often as there are parts, finish, squeeze as often as bytes are asked for.
#![tactic(auto)]

ghost use Rattle.std.specs.Prelude.{◌≡◌, ◌+◌, ◌*◌, ◌/◌, ◌%◌, ◌^◌, ◌≤◌, ◌<◌, [], ◌∷◌, length};
ghost use Rattle.lists.specs.Lists.{tab};
ghost use Rattle.bits.specs.Digits.{number};
ghost use Rattle.bits.specs.Little.{words_of};
ghost use Rattle.shake.specs.Shake.{shake};
ghost use Rattle.shake.specs.Sponge.{made, turned, add_byte, xor_bytes, word_at, Whole, empty, absorb_bytes, finished, squeezed, after, Ready, Squeezing, Even};

// `at` is the place of the next byte in a block of `rate` bytes.
// Stays: `Ready`, `Squeezing` and `Even` are no invariants of it, since `new` promises a sponge of every rate, and `at` is below the rate where bytes are absorbed, but may equal it where they are squeezed.
#[derive(Clone, Copy)]
pub struct Sponge {
    pub lanes: [u64; 25],
    pub at: usize,
    pub rate: usize,
}

// The lane x with the byte b added at place k of the state.
fn add_byte(x: u64, k: usize, b: u8) -> u64
    ensures { result ≡ add_byte x k b }
{
    x ^ (b as u64) << (8 * (k % 8)) as u64
}

// The bytes added to the state from place k on, one by one.
fn add_bytes(lanes: &mut [u64; 25], k: usize, bytes: &[u8])
    requires { k + length bytes.now ≤ 200 }
    ensures { lanes.new ≡ xor_bytes lanes.old k bytes.now }
{
    for (i, &b) in bytes.iter().enumerate() {
        let p = k + i;
        let l = p / 8;
        lanes[l] = add_byte(lanes[l], p, b);
    }
}

// The lane of eight bytes, the lowest first.
fn lane_of(bytes: &[u8; 8]) -> u64
    ensures { result ≡ number 256 bytes.now }
{
    u64::from_le_bytes(*bytes)
}

// Whole lanes of bytes added, from lane l on.
fn add_lanes(lanes: &mut [u64; 25], l: usize, bytes: &[u8])
    requires { (length bytes.now % 8 ≡ 0) × (8 * l + length bytes.now ≤ 200) }
    ensures { lanes.new ≡ xor_bytes lanes.old (8 * l) bytes.now }
{
    let (eights, _) = bytes.as_chunks::<8>();
    for (t, eight) in eights.iter().enumerate() {
        let k = l + t;
        lanes[k] = lanes[k] ^ lane_of(eight);
    }
}

// The bytes added to the state from place k on: by lanes where k is the first place of one.
fn add_block(lanes: &mut [u64; 25], k: usize, bytes: &[u8])
    requires { k + length bytes.now ≤ 200 }
    ensures { lanes.new ≡ xor_bytes lanes.old k bytes.now }
{
    let n = bytes.len();
    let m = 8 * whole_lanes(k, n, 8);
    add_lanes(lanes, k / 8, &bytes[0..m]);
    add_bytes(lanes, k + m, &bytes[m..n]);
}

// The byte at place k of the state, in the lane x.
// Stays: this and `word_at` are a line each; one function of both would be a trait over u8 and u16.
fn byte_at(x: u64, k: usize) -> u8
    ensures { result ≡ x / 2 ^ (8 * (k % 8)) % 256 }
{
    ((x >> (8 * (k % 8)) as u64) % 256) as u8
}

// The two bytes from place k on.
fn word_at(x: u64, k: usize) -> u16
    ensures { result ≡ x / 2 ^ (8 * (k % 8)) % 65536 }
{
    ((x >> (8 * (k % 8)) as u64) % 65536) as u16
}

// How many lanes n elements fill, `size` of them a lane, from place k on: none where k is not the first place of one.
fn whole_lanes(k: usize, n: usize, size: usize) -> usize
    requires { 0 < size }
    ensures { Whole k n size result }
{
    if k % 8 == 0 { n / size } else { 0 }
}

// The words of the state from place k on, one by one.
fn put_words(lanes: &[u64; 25], k: usize, out: &mut [u16])
    requires { k + 2 * length out.old ≤ 200 }
    ensures { out.new ≡ tab (length out.old) (λ j. word_at lanes.now (k + 2 * j)) }
{
    for (i, word) in out.iter_mut().enumerate() {
        let p = k + 2 * i;
        *word = word_at(lanes[p / 8], p);
    }
}

// The four words of the lane x.
// Stays: `to_le_bytes` would give eight bytes, to be joined in pairs again.
fn put_lane(x: u64, out: &mut [u16])
    requires { length out.old ≡ 4 }
    ensures { out.new ≡ tab 4 (λ j. x / 2 ^ (16 * j) % 65536) }
{
    out[0] = (x % 65536) as u16;
    out[1] = ((x >> 16) % 65536) as u16;
    out[2] = ((x >> 32) % 65536) as u16;
    out[3] = ((x >> 48) % 65536) as u16;
}

// The words of whole lanes, from lane l on.
fn put_lanes(lanes: &[u64; 25], l: usize, out: &mut [u16])
    requires { (length out.old % 4 ≡ 0) × (8 * l + 2 * length out.old ≤ 200) }
    ensures { out.new ≡ tab (length out.old) (λ j. word_at lanes.now (8 * l + 2 * j)) }
{
    let n = out.len() / 4;
    // Stays: over `out.chunks_exact_mut(4)` nothing is known of what `out` ends as, and the proof stops at `returns`.
    for t in 0..n {
        let i = 4 * t;
        let j = i + 4;
        let k = l + t;
        put_lane(lanes[k], &mut out[i..j]);
    }
}

// The words of the state from place k on: by lanes where k is the first place of one.
fn put_block(lanes: &[u64; 25], k: usize, out: &mut [u16])
    requires { k + 2 * length out.old ≤ 200 }
    ensures { out.new ≡ tab (length out.old) (λ j. word_at lanes.now (k + 2 * j)) }
{
    let n = out.len();
    let m = 4 * whole_lanes(k, n, 4);
    put_lanes(lanes, k / 8, &mut out[0..m]);
    put_words(lanes, k + 2 * m, &mut out[m..n]);
}

// At the end of a block the permutation, and the next block's first place; elsewhere nothing.
// Stays: lanes, place and rate are locals of each loop. As a method of one sponge that is changed in place it was proved, and whole calls took 0.5 to 1 % longer.
fn next_block(lanes: &mut [u64; 25], at: usize, rate: usize) -> usize
    ensures { made lanes.new result rate ≡ turned (made lanes.old at rate) }
{
    if at == rate {
        keccak::permute(lanes);
        return 0;
    }
    at
}

impl Sponge {
    pub fn new(rate: usize) -> Self
        ensures { result ≡ empty rate }
    {
        Self {
            lanes: [0u64; 25],
            at: 0,
            rate,
        }
    }

    pub fn absorb(self, bytes: &[u8]) -> Self
        requires { Ready self }
        ensures { result ≡ absorb_bytes self bytes.now }
    {
        let mut lanes = self.lanes;
        let mut at = self.at;
        let rate = self.rate;
        let mut rest = bytes;
        while !rest.is_empty() {
            let room = rate - at;
            let (part, behind) = rest.split_at(room.min(rest.len()));
            add_block(&mut lanes, at, part);
            let end = at + part.len();
            at = next_block(&mut lanes, end, rate);
            rest = behind;
        }
        Self { lanes, at, rate }
    }

    // The padding: after it bytes are squeezed.
    pub fn finish(self) -> Self
        requires { Ready self }
        ensures { result ≡ finished self }
    {
        let mut lanes = self.lanes;
        let at = self.at;
        let rate = self.rate;
        let k = at / 8;
        lanes[k] = add_byte(lanes[k], at, 0x1f);
        let last = rate - 1;
        let j = last / 8;
        lanes[j] = add_byte(lanes[j], last, 0x80);
        keccak::permute(&mut lanes);
        Self { lanes, at: 0, rate }
    }

    pub fn squeeze(self, out: &mut [u8]) -> Self
        requires { Squeezing self }
        ensures { (out.new ≡ squeezed self (length out.old)) × (result ≡ after self (length out.old)) }
    {
        let mut lanes = self.lanes;
        let mut at = self.at;
        let rate = self.rate;
        for byte in out {
            let k = next_block(&mut lanes, at, rate);
            *byte = byte_at(lanes[k / 8], k);
            at = k + 1;
        }
        Self { lanes, at, rate }
    }

    // As squeeze, in words of two bytes, the lower first; a turn of the loop gives what the block still has.
    pub fn squeeze_words(self, out: &mut [u16]) -> Self
        requires { Squeezing self × Even self }
        ensures { (out.new ≡ words_of (squeezed self (2 * length out.old))) × (result ≡ after self (2 * length out.old)) }
    {
        let mut lanes = self.lanes;
        let mut at = self.at;
        let rate = self.rate;
        let n = out.len();
        // Stays: with the front split off `out` a turn (`rest.split_at_mut(m)`) no invariant can say what `out` ends as, and the proof stops at `returns`.
        let mut i = 0;
        while i < n {
            let place = next_block(&mut lanes, at, rate);
            let m = ((rate - place) / 2).min(n - i);
            let j = i + m;
            put_block(&lanes, place, &mut out[i..j]);
            at = place + 2 * m;
            i = j;
        }
        Self { lanes, at, rate }
    }
}

// SHAKE at a rate of that many bytes: `out` is filled with the first bytes for `input`.
// Stays: SHAKE by the sponge by value (docs/RULES.md, 7.8), with the contract that docs/PROOF.md names, beside that of crates/sponge, which lends one.
pub fn shake(rate: usize, input: &[u8], out: &mut [u8])
    requires { (0 < rate) × (rate ≤ 200) }
    ensures { out.new ≡ shake rate input.now (length out.old) }
{
    let p = Sponge::new(rate);
    let p = p.absorb(input);
    let p = p.finish();
    p.squeeze(out);
}
