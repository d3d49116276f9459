// The entries of open partials, in the lent table: hash pairs with their values, and inline partials. meaning/specs/Entries says how one is kept.
#![tactic(auto)]

ghost use Rattle.std.specs.Prelude.{◌≡◌, ◌+◌, ◌*◌, ◌<◌, length};
ghost use Rattle.meaning.specs.Entries.{low, high, place};
ghost use Rattle.entries.specs.Stored.{stored};

pub fn low(ent: &[u64], e: usize) -> u32
    requires { 2 * e < length ent.now }
    ensures { result ≡ low ent.now e }
{
    (ent[2 * e] % 4294967296) as u32
}

pub fn high(ent: &[u64], e: usize) -> u32
    requires { 2 * e < length ent.now }
    ensures { result ≡ high ent.now e }
{
    (ent[2 * e] / 4294967296 % 4294967296) as u32
}

pub fn place(ent: &[u64], e: usize) -> usize
    requires { 2 * e + 1 < length ent.now }
    ensures { result ≡ place ent.now e }
{
    ent[2 * e + 1] as usize
}

pub fn store(ent: &mut [u64], e: usize, low: u32, high: u32, place: usize)
    requires { 2 * e + 1 < length ent.old }
    ensures { ent.new ≡ stored ent.old e low high place }
{
    ent[2 * e] = (low as u64) + 4294967296 * (high as u64);
    ent[2 * e + 1] = place as u64;
}
