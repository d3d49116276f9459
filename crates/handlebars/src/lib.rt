// The library. What C callers get stands in handlebars_c, which exports the four functions of the names handlebars_..; include/handlebars.h declares them.
#![tactic(auto)]

ghost use Rattle.std.specs.Prelude.{[], ◌∷◌, ◌≡◌, length};
ghost use Rattle.layout.specs.Verdict.{verdict, verdict_number};
ghost use Rattle.handlebars.specs.Checks.{plan_number, plan_table};
ghost use Rattle.handlebars.specs.Calls.{inputs, options_from, left, predicted};
ghost use Rattle.rules.specs.Call.{render_bytes};

use expand::Options;

mod call;
mod draw;
mod naming;
mod numbers;
mod start;

pub use call::render;
pub use naming::handlebars_template_name;
use numbers::SCRATCH_TOO_SHORT;

// The entries that a table of the plan's values has; include/handlebars.h has the same number.
pub const VALUES: usize = 4096;

// What a call answers; include/handlebars.h has the same struct.
#[repr(C)]
#[derive(Clone, Copy)]
pub struct Answer {
    // 0, or the number of the refusal
    pub number: u32,
    // one more than the bit place of the template's name in the bundle; 0 where there is none
    pub template: usize,
    pub line: u64,
    pub column: u64,
    // how many bytes of the page the text has
    pub length: usize,
}

// Checks 2, 3 and 4 of any bytes: the number of the refusal, or 0.
pub fn handlebars_check_bundle(bundle: &[u8]) -> u32
    ensures { result ≡ verdict_number (verdict bundle.now) }
{
    match layout::check_bundle(bundle) {
        Ok(()) => 0,
        Err(e) => u8::from(e) as u32,
    }
}

// Checks 7 to 10 of any bytes: the number of the refusal, or 0 and the table of the plan's values. A table that is too short is refused
// with 1. After a refusal the table is all zero.
pub fn handlebars_check_plan(plan: &[u8], table: &mut [u64]) -> u32
    ensures { (result ≡ plan_number (length table.old) plan.now) × (table.new ≡ plan_table (length table.old) plan.now) }
{
    if table.len() < VALUES {
        clear::clear(table, 0);
        return SCRATCH_TOO_SHORT;
    }
    plan_read::read_plan(plan, table) as u32
}

// The options by their bits; all other bits are ignored.
fn options_from(bits: u32) -> Options
    ensures { result ≡ options_from bits }
{
    Options {
        strict: bits % 2 == 1,
        recursive_lookup: bits / 2 % 2 == 1,
        guide_truth: bits / 4 % 2 == 1,
    }
}

// The call for C: options is 1 for strict, 2 for recursive lookup, 4 for guide truth, or a sum of these.
pub fn handlebars_render(
    bundle: &[u8],
    plan: &[u8],
    start: &[u8],
    options: u32,
    page: &mut [u8],
    places: &mut [u64],
    entries: &mut [u64],
    texts: &mut [u8],
    indent: &mut [u8],
) -> Answer
    ensures { left bundle.now result page.new (places.new ∷ entries.new ∷ texts.new ∷ indent.new ∷ []) ≡ predicted (inputs bundle.now plan.now start.now (options_from options) (length page.old) (length places.old ∷ length entries.old ∷ length texts.old ∷ length indent.old ∷ [])) }
{
    call::render(
        bundle,
        plan,
        start,
        options_from(options),
        page,
        places,
        entries,
        texts,
        indent,
    )
}
