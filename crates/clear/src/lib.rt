// Sets lent buffers to zero, whole or from a place on, whatever their entries are.
#![tactic(auto)]

ghost use Rattle.std.specs.Prelude.{◌≡◌, length, replicate};
ghost use Rattle.clear.specs.Cleared.{cleared};

// Sets every entry from the place on to zero. A place past the end leaves all as it is.
pub fn clear_from<T: Copy>(b: &mut [T], at: usize, zero: T)
    ensures { b.new ≡ cleared at zero b.old }
{
    for i in at..b.len() {
        b[i] = zero;
    }
}

// Sets every entry to zero.
pub fn clear<T: Copy>(b: &mut [T], zero: T)
    ensures { b.new ≡ replicate (length b.old) zero }
{
    clear_from(b, 0, zero);
}
