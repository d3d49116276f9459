// What is derived from a fixed name is computed from its bytes. (The compiler works it out where the name is fixed.)
#![tactic(auto)]

ghost use Rattle.std.specs.Prelude.{◌≡◌, ◌<◌, length};
ghost use Rattle.names.specs.Head.{head_of};

// What a string of the bundle starts with if it is t: its count and its first byte, 24 bits.
pub fn head(t: &[u8]) -> u64
    requires { (0 < length t.now) × (length t.now < 65536) }
    ensures { result ≡ head_of t.now }
{
    (t.len() as u64) * 256 + (t[0] as u64)
}
