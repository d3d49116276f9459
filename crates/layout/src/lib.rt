// Checks 2, 3 and 4 of a bundle, in one walk from its first bit to its last.
// A place is a bit of the bundle, with a mark that check 4 sets, or that the layout is broken. Each function below takes the place
// before a part and gives the place behind it; a broken place stays broken, so that a row of parts is a row of calls.
// It goes from call to call as one number: twice the bit, two more, and one for the mark; below 2 it is broken. (An enum would be stored
// in pieces and read back whole at each call, and the load would wait for the stores.)
// They all require what check 2 has found: at most 65,536 bytes.
#![tactic(auto)]

ghost use Rattle.std.specs.Prelude.{Bool, ◌≡◌, ℕ, ◌≤◌, ◌<◌, length, get_or, replicate};
ghost use Rattle.rules.specs.Bytes.{same};
ghost use Rattle.rules.specs.Bits.{bits};
ghost use Rattle.rules.specs.Bundle.{among, templates, partial_context};
ghost use Rattle.layout.specs.Walk.{At, place_by, past, ahead, number_at};
ghost use Rattle.layout.specs.Listed.{Listed, BundleListed};
ghost use Rattle.layout.specs.Text.{text_at};
ghost use Rattle.layout.specs.Names.{seen_at};
ghost use Rattle.layout.specs.Verdict.{error_number, verdict_number, bundle_answer};

mod body;
mod call;
mod part;

use error::{BUNDLE_LAYOUT, BUNDLE_TOO_LARGE, PARTIAL_PARAMETER};
use part::{BROKEN, START};

const VERSION: u64 = 1;

// How many bytes a bundle may have, how many templates, and how deep a template's body may go
const BYTES: usize = 65536;

const TEMPLATES: usize = 64;

const DEPTH: usize = 16;

// The bits of a line or a column
const POSITION: usize = 16;

// Whether the strings at the bits p and q are the same bytes.
pub fn same_text(b: &[u8], p: usize, q: usize) -> bool
    requires { (p ≤ 524288) × (q ≤ 524288) }
    ensures { result ≡ same (text_at (bits b.now) p) (text_at (bits b.now) q) }
{
    let m = bits::field(b, p, 16) as usize;
    let n = bits::field(b, q, 16) as usize;
    bits::same_at(b, p + 16, m, q + 16, n)
}

// Whether the string at the bit at is one of those at the first n places.
fn known(b: &[u8], places: &[u32], n: usize, at: usize) -> bool
    requires { (n ≤ length places.now) × ((j : ℕ) → j < n → get_or places.now j 0 ≤ 524288) × (at ≤ 524288) }
    ensures { result
        ≡ among (text_at (bits b.now) at) (seen_at (bits b.now) places.now n) }
{
    for j in (0..n).rev() {
        if same_text(b, places[j] as usize, at) {
            return true;
        }
    }
    false
}

// Template count 1 to 64 (8), each: name, body; names distinct. Fills in the place of each, and zeroes the rest.
fn templates(b: &[u8], p: usize, w: usize, places: &mut [u32]) -> usize
    requires { (length b.now ≤ 65536) × (64 ≤ length places.old) }
    ensures { (place_by result ≡ past partial_context (templates w) (bits b.now) (place_by p))
        × (length places.new ≡ length places.old)
        × ((q : ℕ) (m : Bool)
        → place_by result ≡ At q m
        → Listed w (bits b.now) (ahead (bits b.now) 8 (place_by p))
        (number_at (bits b.now) 8 (place_by p)) places.new) }
{
    let n = part::number(b, p, 8);
    if n < 1 {
        return BROKEN;
    }
    if TEMPLATES < n {
        return BROKEN;
    }
    clear::clear(places, 0);
    let mut cur = part::ahead(b, p, 8);
    for i in 0..n {
        if cur < START {
            return BROKEN;
        }
        let at = cur / 2 - 1;
        let template = part::string(b, cur);
        if template < START {
            return BROKEN;
        }
        if known(b, places, i, at) {
            return BROKEN;
        }
        places[i] = at as u32;
        cur = body::body(b, template, w, DEPTH);
    }
    cur
}

// The first of the checks 2, 3 and 4 that a bundle does not pass.
#[derive(Clone, Copy, Debug, PartialEq, Eq)]
pub enum BundleError {
    TooLong,
    BadLayout,
    PartialContext,
}

// The paper's number of each.
impl From<BundleError> for u8 {
    ghost from_gives = { λ e n. n ≡ error_number e };

    fn from(e: BundleError) -> u8 {
        match e {
            BundleError::TooLong => BUNDLE_TOO_LARGE,
            BundleError::BadLayout => BUNDLE_LAYOUT,
            BundleError::PartialContext => PARTIAL_PARAMETER,
        }
    }
}

// Checks 2, 3 and 4, and the places of the templates where all are passed.
fn checked(b: &[u8], places: &mut [u32]) -> Result<(), BundleError>
    requires { 64 ≤ length places.old }
    ensures { (verdict_number result ≡ bundle_answer b.now)
        × (length places.new ≡ length places.old)
        × (result ≡ Ok tt → BundleListed (bits b.now) places.new) }
{
    if BYTES < b.len() {
        return Err(BundleError::TooLong);
    }
    if !reader::is_version(b, VERSION) {
        return Err(BundleError::BadLayout);
    }
    let last = templates(b, part::ahead(b, START, 8), POSITION, places);
    if last < START {
        return Err(BundleError::BadLayout);
    }
    let at = last / 2 - 1;
    let end = 8 * b.len();
    if end < at {
        return Err(BundleError::BadLayout);
    }
    let left = end - at;
    if 7 < left {
        return Err(BundleError::BadLayout);
    }
    if bits::field(b, at, left) != 0 {
        return Err(BundleError::BadLayout);
    }
    if last % 2 == 1 {
        return Err(BundleError::PartialContext);
    }
    Ok(())
}

// Checks 2, 3 and 4 of any bytes.
pub fn check_bundle(b: &[u8]) -> Result<(), BundleError>
    ensures { verdict_number result ≡ bundle_answer b.now }
{
    let mut places: [u32; TEMPLATES] = [0; TEMPLATES];
    checked(b, &mut places)
}

// The same, with the places of the templates in the table, and zero behind them; all zero where a check refuses.
pub fn check_indexed(b: &[u8], places: &mut [u32]) -> Result<(), BundleError>
    requires { 64 ≤ length places.old }
    ensures { (verdict_number result ≡ bundle_answer b.now)
        × (length places.new ≡ length places.old)
        × (result ≡ Ok tt → BundleListed (bits b.now) places.new)
        × ((result ≡ Ok tt → ⊥) → places.new ≡ replicate (length places.old) 0) }
{
    let r = checked(b, places);
    if r.is_err() {
        clear::clear(places, 0);
    }
    r
}
