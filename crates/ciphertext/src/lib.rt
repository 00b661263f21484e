// A ciphertext as its holder lends it (docs/RULES.md, 7.9), and its three parts: c1, then c2, then the salt.
#![tactic(auto)]

ghost use Rattle.std.specs.Prelude.{◌≡◌, length};
ghost use Rattle.scheme.specs.Decaps.{ct_c1, ct_c2, ct_salt};
ghost use Rattle.ciphertext.specs.Sized.{CiphertextSized};

use sets::Set;

// The bytes of a ciphertext, and the set that says where its parts stand. A view is had of bytes of the set's length alone.
#[derive(Clone, Copy)]
pub struct CiphertextRef<'a> {
    pub bytes: &'a [u8],
    pub set: Set,
    pub ghost sized: { length bytes.now ≡ set.p.ct },
}

impl<'a> CiphertextRef<'a> {
    pub fn from_slice(set: Set, bytes: &'a [u8]) -> CiphertextRef<'a>
        requires { CiphertextSized set.p (length bytes.now) }
        ensures { (result.bytes ≡ bytes.entry) × (result.set ≡ set) }
    {
        CiphertextRef { bytes, set }
    }

    pub fn c1(self) -> &'a [u8]
        ensures { result.now ≡ ct_c1 self.entry.set.p self.entry.bytes.now }
    {
        let e = self.set.p.d * self.set.p.n;
        &self.bytes[..e]
    }

    pub fn c2(self) -> &'a [u8]
        ensures { result.now ≡ ct_c2 self.entry.set.p self.entry.bytes.now }
    {
        let a = self.set.p.d * self.set.p.n;
        let e = a + self.set.p.d * 8;
        &self.bytes[a..e]
    }

    pub fn salt(self) -> &'a [u8]
        ensures { result.now ≡ ct_salt self.entry.set.p self.entry.bytes.now }
    {
        let a = self.set.p.d * self.set.p.n + self.set.p.d * 8;
        &self.bytes[a..]
    }
}
