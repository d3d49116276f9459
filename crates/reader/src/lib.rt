// The bit reader of the paper: the lent bundle and its current bit. The work is done by `bits`, which takes a slice and a bit number.
// The borrow checker covers no function over a struct that holds a reference, so these are thin, and each is proved by hand. Those
// below that take a plain slice are for callers that are covered.
#![tactic(auto)]

ghost use Rattle.std.specs.Prelude.{◌≡◌, ◌≤◌, eqb};
ghost use Rattle.rules.specs.Bits.{bits};
ghost use Rattle.rules.specs.Layout.{field};

const BYTE: usize = 8;

#[derive(Clone, Copy)]
pub struct BitReader<'a> {
    pub bundle: &'a [u8],
    pub bit: usize,
}

// At a bit of the bundle. It may lie past the end, where every bit is 0.
pub fn at<'a>(bundle: &'a [u8], bit: usize) -> BitReader<'a>
    ensures { (result.bundle ≡ bundle.entry) × (result.bit ≡ bit) }
{
    BitReader { bundle, bit }
}

// The w bits from the current one on, as a number.
pub fn field<'a>(r: BitReader<'a>, w: usize) -> u64
    requires { w ≤ 64 }
    ensures { result ≡ field (bits r.entry.bundle.now) w r.entry.bit }
{
    bits::field(r.bundle, r.bit, w)
}

// The w bits of the bundle from a bit on, as a number.
fn read(bundle: &[u8], bit: usize, w: usize) -> u64
    requires { w ≤ 64 }
    ensures { result ≡ field (bits bundle.now) w bit }
{
    field(at(bundle, bit), w)
}

// The bundle's version, its first byte.
pub fn version(bundle: &[u8]) -> u64
    ensures { result ≡ field (bits bundle.now) 8 0 }
{
    read(bundle, 0, BYTE)
}

// Whether the bundle's version is n.
pub fn is_version(bundle: &[u8], n: u64) -> bool
    ensures { result ≡ eqb (field (bits bundle.now) 8 0) n }
{
    version(bundle) == n
}

// How many templates the bundle has, its second byte.
pub fn template_count(bundle: &[u8]) -> u64
    ensures { result ≡ field (bits bundle.now) 8 8 }
{
    read(bundle, BYTE, BYTE)
}
