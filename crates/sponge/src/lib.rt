// The sponge lent by &mut and changed in place, and SHAKE of slices in a row through it (docs/RULES.md, 4.1 and 7.8).
// The thin functions over &mut sponge call those of crates/shake that take it by value.
#![tactic(auto)]

ghost use Rattle.std.specs.Prelude.{◌≡◌, ◌*◌, ◌%◌, ◌<◌, ◌≤◌, length};
ghost use Rattle.lists.specs.Lists.{Below};
ghost use Rattle.bits.specs.Little.{words_of};
ghost use Rattle.shake.specs.Shake.{shake};
ghost use Rattle.shake.specs.Sponge.{empty, absorb_bytes, finished, squeezed, after, Ready, Squeezing, Even};
ghost use Rattle.sponge.specs.Parts.{joined};

use shake::Sponge;

pub fn absorb(s: &mut Sponge, input: &[u8])
    requires { Ready s.old }
    ensures { s.new ≡ absorb_bytes s.old input.now }
{
    *s = s.absorb(input);
}

// The padding: after it the sponge is squeezed.
pub fn finish(s: &mut Sponge)
    requires { Ready s.old }
    ensures { s.new ≡ finished s.old }
{
    *s = s.finish();
}

pub fn squeeze(s: &mut Sponge, out: &mut [u8])
    requires { Squeezing s.old }
    ensures { (out.new ≡ squeezed s.old (length out.old)) × (s.new ≡ after s.old (length out.old)) }
{
    *s = s.squeeze(out);
}

// As squeeze, in words of two bytes, the lower first.
pub fn squeeze_words(s: &mut Sponge, out: &mut [u16])
    requires { Squeezing s.old × Even s.old }
    ensures { (out.new ≡ words_of (squeezed s.old (2 * length out.old))) × (s.new ≡ after s.old (2 * length out.old)) }
{
    *s = s.squeeze_words(out);
}

// As absorb. That the part is bytes is said here, since a loop over slices is told nothing of their elements.
fn absorb_part(s: &mut Sponge, part: &[u8])
    requires { Ready s.old }
    ensures { (s.new ≡ absorb_bytes s.old part.now) × Below 256 part.now }
{
    absorb(s, part);
}

// A sponge that has taken the parts in a row and is finished, so that it can be squeezed.
// Stays: the range of `rate` is asked here and twice below; a type for it would have a constructor that asks the same, and no clause fewer for callers.
// Compiled into its two callers, for the stack's sake (docs/DECISIONS.md, "The lent sponge").
#[inline(always)]
fn absorbed(rate: usize, parts: &[&[u8]]) -> Sponge
    requires { (0 < rate) × (rate ≤ 200) }
    ensures { (result ≡ finished (absorb_bytes (empty rate) (joined parts.now))) × Below 256 (joined parts.now) }
{
    let mut s = Sponge::new(rate);
    for part in parts {
        absorb_part(&mut s, part);
    }
    finish(&mut s);
    s
}

// SHAKE at a rate of that many bytes: `out` is filled with the first bytes for the parts in a row.
// A function of its own, for the stack's sake.
#[inline(never)]
pub fn shake(rate: usize, parts: &[&[u8]], out: &mut [u8])
    requires { (0 < rate) × (rate ≤ 200) }
    ensures { out.new ≡ shake rate (joined parts.now) (length out.old) }
{
    let mut s = absorbed(rate, parts);
    squeeze(&mut s, out);
}

// As shake, in words of two bytes, the lower first.
// Stays: what it shares with shake is `absorbed`; the two squeezes are two functions (docs/RULES.md, 7.8), and this one asks an even rate besides.
pub fn shake_words(rate: usize, parts: &[&[u8]], out: &mut [u16])
    requires { (0 < rate) × (rate ≤ 200) × (rate % 2 ≡ 0) }
    ensures { out.new ≡ words_of (shake rate (joined parts.now) (2 * length out.old)) }
{
    let mut s = absorbed(rate, parts);
    squeeze_words(&mut s, out);
}
