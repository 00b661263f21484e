// pkh from seedA and the words of B (docs/RULES.md, 4.8), without memory for the bytes of the public key.
#![tactic(auto)]

ghost use Rattle.std.specs.Prelude.{◌≡◌, ◌++◌, ◌*◌, ◌≤◌, length};
ghost use Rattle.shake.specs.Sponge.{absorb_bytes, Ready};
ghost use Rattle.codec.specs.Pack.{packed};
ghost use Rattle.codec.specs.Packing.{Packing};
ghost use Rattle.scheme.specs.Parts.{hash};

use codec::pack;
use sets::Set;
use shake::Sponge;

// The sponge takes eight words of d bits, packed; `bytes` is room for them.
fn absorb_eight(d: usize, sponge: Sponge, words: &[u16], bytes: &mut [u8]) -> Sponge
    requires { Ready sponge × Packing d (length words.now) d × (d ≤ length bytes.old) }
    ensures { result ≡ absorb_bytes sponge (packed d words.now) }
{
    pack(d, words, &mut bytes[0..d]);
    sponge.absorb(&bytes[0..d])
}

// `out` is filled with the hash of seedA and B packed.
pub fn pkh_of(set: Set, seed: &[u8], b: &[u16], out: &mut [u8])
    requires { length b.now ≡ 8 * set.p.n }
    ensures { out.new ≡ hash set.p (seed.now ++ packed set.p.d b.now) (length out.old) }
{
    let d = set.p.d;
    let mut bytes = [0u8; 16];
    let sponge = Sponge::new(set.p.rate);
    let mut sponge = sponge.absorb(seed);
    let (eights, _) = b.as_chunks::<8>();
    for eight in eights {
        let more = absorb_eight(d, sponge, eight, &mut bytes);
        sponge = more;
    }
    let sponge = sponge.finish();
    sponge.squeeze(out);
}
