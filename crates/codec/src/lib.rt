// Packing of words into bytes and back (docs/RULES.md, 4.3): eight words of 15 bits are 15 bytes; a word of 16 bits is two bytes, the higher first.
#![tactic(auto)]

ghost use Rattle.std.specs.Prelude.{◌≡◌, ◌*◌, length};
ghost use Rattle.codec.specs.Pack.{packed, unpacked};
ghost use Rattle.codec.specs.Packing.{Packing};

use codec15::{pack_eight, unpack_fifteen};

// Words of 15 bits as bytes, eight words at a time.
fn pack15(words: &[u16], out: &mut [u8])
    requires { Packing 15 (length words.now) (length out.old) }
    ensures { out.new ≡ packed 15 words.now }
{
    for (k, eight) in words.chunks_exact(8).enumerate() {
        out[15 * k..15 * k + 15].copy_from_slice(&pack_eight(eight));
    }
}

// Words of 16 bits as bytes.
// Stays: one function for 15 and 16 bits would be a stream of bits at any width, which docs/RULES.md, 4.3.3, leaves out; a word of 16 bits is its own two bytes.
fn pack16(words: &[u16], out: &mut [u8])
    requires { length out.old ≡ 2 * length words.now }
    ensures { out.new ≡ packed 16 words.now }
{
    for (i, x) in words.iter().enumerate() {
        let [higher, lower] = x.to_be_bytes();
        out[2 * i] = higher;
        out[2 * i + 1] = lower;
    }
}

// Packs words of d bits.
pub fn pack(d: usize, words: &[u16], out: &mut [u8])
    requires { Packing d (length words.now) (length out.old) }
    ensures { out.new ≡ packed d words.now }
{
    if d == 15 {
        pack15(words, out);
    } else {
        pack16(words, out);
    }
}

// Bytes as words of 15 bits, fifteen bytes at a time.
fn unpack15(bytes: &[u8], out: &mut [u16])
    requires { Packing 15 (length out.old) (length bytes.now) }
    ensures { out.new ≡ unpacked 15 bytes.now }
{
    for (k, fifteen) in bytes.chunks_exact(15).enumerate() {
        out[8 * k..8 * k + 8].copy_from_slice(&unpack_fifteen(fifteen));
    }
}

// Bytes as words of 16 bits.
fn unpack16(bytes: &[u8], out: &mut [u16])
    requires { length bytes.now ≡ 2 * length out.old }
    ensures { out.new ≡ unpacked 16 bytes.now }
{
    for (i, x) in out.iter_mut().enumerate() {
        *x = u16::from_be_bytes([bytes[2 * i], bytes[2 * i + 1]]);
    }
}

// Unpacks words of d bits.
pub fn unpack(d: usize, bytes: &[u8], out: &mut [u16])
    requires { Packing d (length out.old) (length bytes.now) }
    ensures { out.new ≡ unpacked d bytes.now }
{
    if d == 15 {
        unpack15(bytes, out);
    } else {
        unpack16(bytes, out);
    }
}
