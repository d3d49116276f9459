// Checks 1 to 6: what a call needs before it reads the plan.
ghost use Rattle.std.specs.Prelude.{[], ◌∷◌, ◌≡◌, length};
ghost use Rattle.rules.specs.Call.{long_enough, scratch_lengths};
ghost use Rattle.registry.specs.Templates.{Standing};
ghost use Rattle.handlebars.specs.Begins.{Begins, Filled};

use crate::numbers::{STRICT_AND_GUIDE_TRUTH, TEMPLATE_NOT_FOUND};
use expand::Options;

// The lengths of the scratch buffers (docs/BUFFERS.md); include/handlebars.h has the same numbers.
const PLACES: usize = 4096;

const ENTRIES: usize = 8192;

const TEXTS: usize = 16384;

const INDENT: usize = 256;

// Check 1, of the lengths of the scratch buffers.
pub fn long_enough(places: usize, entries: usize, texts: usize, indent: usize) -> bool
    ensures { result ≡ long_enough scratch_lengths (places ∷ entries ∷ texts ∷ indent ∷ []) }
{
    if places < PLACES {
        return false;
    }
    if entries < ENTRIES {
        return false;
    }
    if texts < TEXTS {
        return false;
    }
    if indent < INDENT {
        return false;
    }
    true
}

// Checks 5 and 6: the places of the template's name and of its body, or the number of the check that is not passed.
fn find(b: &[u8], start: &[u8], options: Options) -> Result<(usize, usize), u32>
    requires { Standing b.now }
    ensures { Begins b.now start.now options result }
{
    if options.strict & options.guide_truth {
        return Err(STRICT_AND_GUIDE_TRUTH);
    }
    let f = registry::get_template(b, 16, start);
    match f {
        Some((_, name, body)) => Ok((name, body)),
        None => Err(TEMPLATE_NOT_FOUND),
    }
}

// Checks 2 to 6. The table gets the places of the templates where 2, 3 and 4 are passed, else it is zero.
pub fn begin(
    b: &[u8],
    start: &[u8],
    options: Options,
    index: &mut [u32],
) -> Result<(usize, usize), u32>
    requires { length index.old ≡ 64 }
    ensures { Begins b.now start.now options result × Filled b.now index.new }
{
    match layout::check_indexed(b, index) {
        Ok(()) => find(b, start, options),
        Err(e) => Err(u32::from(u8::from(e))),
    }
}
