// Coding of messages (docs/RULES.md, 4.4), once over q and b. Each b bytes are a number, whose eight groups of b bits, the lowest first, are the words.
// Secret numbers are shifted and masked, and never divided by a number that is not a constant.
#![tactic(auto)]

ghost use Rattle.std.specs.Prelude.{◌≡◌, map, ◌+◌, ◌*◌, ◌/◌, ◌%◌, ◌^◌, ◌≤◌, ◌<◌, length};
ghost use Rattle.lists.specs.Lists.{tab};
ghost use Rattle.bits.specs.Digits.{number, digit};
ghost use Rattle.message.specs.Message.{half, word_of, group_of, encoded, decoded};
ghost use Rattle.message.specs.Coding.{Coding};

// The number of at most four bytes, the lowest first.
fn number_of(m: &[u8]) -> u32
    requires { length m.now ≤ 4 }
    ensures { result ≡ number 256 m.now }
{
    let mut t: u32 = 0;
    for x in m.iter().rev() {
        t = t * 256 + u32::from(*x);
    }
    t
}

// A number's lowest byte.
fn low_byte(t: u32) -> u8
    ensures { result ≡ t % 256 }
{
    (t % 256) as u8
}

// A number's bytes, the lowest first.
fn put_bytes(n: u32, out: &mut [u8])
    ensures { out.new ≡ tab (length out.old) (digit 256 n) }
{
    let mut t = n;
    for x in out.iter_mut() {
        *x = low_byte(t);
        t = t / 256;
    }
}

// The q and b of a set.
#[derive(Clone, Copy)]
struct Coder {
    q: u32,
    b: usize,
    ghost coding: { ∥ Coding q b ∥₁ },
}

impl Coder {
    // How many groups of b bits there are.
    fn count(self) -> u32
        ensures { result ≡ 2 ^ self.b }
    {
        1 << self.b
    }

    // t mod 2^b.
    fn low_bits(self, t: u32) -> u32
        ensures { result ≡ t % 2 ^ self.b }
    {
        t & (self.count() - 1)
    }

    // Half the distance of two groups' words.
    fn half_step(self) -> u32
        ensures { result ≡ half self.q self.b }
    {
        self.q >> (self.b + 1)
    }

    // The word of a number's lowest group.
    fn word_of(self, t: u32) -> u16
        ensures { result ≡ word_of self.q self.b (t % 2 ^ self.b) }
    {
        (self.low_bits(t) * (self.q >> self.b)) as u16
    }

    // The words of a number's eight groups, the lowest first.
    fn put_words(self, n: u32, out: &mut [u16])
        requires { length out.old ≡ 8 }
        ensures { out.new ≡ map (word_of self.q self.b) (tab 8 (digit (2 ^ self.b) n)) }
    {
        let mut t = n;
        for x in out.iter_mut() {
            *x = self.word_of(t);
            t = t >> self.b;
        }
    }

    // The group of a word. A quotient by 2h, which is q/2^b, is the quotient of a multiple by 2^16.
    fn group_of(self, x: u16) -> u32
        ensures { (result ≡ group_of self.q self.b x) × (result < 2 ^ self.b) }
    {
        let last = self.q - 1;
        let times = 65536 / (self.q >> self.b);
        let h = self.half_step();
        self.low_bits((((x as u32) & last) + h) * times / 65536)
    }

    // The number of eight words' groups, the lowest first.
    fn number_of_groups(self, w: &[u16]) -> u32
        requires { length w.now ≡ 8 }
        ensures { result ≡ number (2 ^ self.b) (map (group_of self.q self.b) w.now) }
    {
        let base = self.count();
        let mut t: u32 = 0;
        for x in w.iter().rev() {
            t = t * base + self.group_of(*x);
        }
        t
    }
}

// The words of a message.
pub fn encode_message(q: u32, b: usize, msg: &[u8], out: &mut [u16])
    requires { Coding q b × (length msg.now ≡ 8 * b) × (length out.old ≡ 64) }
    ensures { out.new ≡ encoded q b msg.now }
{
    let coder = Coder { q, b };
    for (k, bytes) in msg.chunks_exact(b).enumerate() {
        coder.put_words(number_of(bytes), &mut out[8 * k..8 * k + 8]);
    }
}

// The message of words.
pub fn decode_message(q: u32, b: usize, words: &[u16], out: &mut [u8])
    requires { Coding q b × (length words.now ≡ 64) × (length out.old ≡ 8 * b) }
    ensures { out.new ≡ decoded q b words.now }
{
    let coder = Coder { q, b };
    for (k, eight) in words.chunks_exact(8).enumerate() {
        let n = coder.number_of_groups(eight);
        put_bytes(n, &mut out[b * k..b * k + b]);
    }
}
