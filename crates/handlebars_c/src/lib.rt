// The library for C: each function is the one of the same name in handlebars, with its contract. include/handlebars.h declares them.
#![tactic(auto)]

ghost use Rattle.std.specs.Prelude.{[], ◌∷◌, ◌≡◌, length};
ghost use Rattle.layout.specs.Verdict.{verdict, verdict_number};
ghost use Rattle.handlebars.specs.Checks.{plan_number, plan_table};
ghost use Rattle.handlebars.specs.Calls.{inputs, options_from, left, predicted};
ghost use Rattle.handlebars.specs.Names.{template_name, Filled};

use handlebars::Answer;

// Checks 2, 3 and 4 of any bytes: the number of the refusal, or 0.
#[unsafe(no_mangle)]
pub extern "C" fn handlebars_check_bundle(bundle: &[u8]) -> u32
    ensures { result ≡ verdict_number (verdict bundle.now) }
{
    handlebars::handlebars_check_bundle(bundle)
}

// Checks 7 to 10 of any bytes: the number of the refusal, or 0 and the table of the plan's values. A table that is too short is refused
// with 1. After a refusal the table is all zero.
#[unsafe(no_mangle)]
pub extern "C" fn handlebars_check_plan(plan: &[u8], table: &mut [u64]) -> u32
    ensures { (result ≡ plan_number (length table.old) plan.now) × (table.new ≡ plan_table (length table.old) plan.now) }
{
    handlebars::handlebars_check_plan(plan, table)
}

// The call: options is 1 for strict, 2 for recursive lookup, 4 for guide truth, or a sum of these.
#[unsafe(no_mangle)]
pub extern "C" fn handlebars_render(
    bundle: &[u8],
    plan: &[u8],
    start: &[u8],
    options: u32,
    page: &mut [u8],
    places: &mut [u64],
    entries: &mut [u64],
    texts: &mut [u8],
    indent: &mut [u8],
) -> Answer
    ensures { left bundle.now result page.new (places.new ∷ entries.new ∷ texts.new ∷ indent.new ∷ []) ≡ predicted (inputs bundle.now plan.now start.now (options_from options) (length page.old) (length places.old ∷ length entries.old ∷ length texts.old ∷ length indent.old ∷ [])) }
{
    handlebars::handlebars_render(
        bundle, plan, start, options, page, places, entries, texts, indent,
    )
}

// The bytes of the name that the number template stands for, and zeros behind them: how many they are. None for 0, where no string lies
// within the bundle there, and where it does not fit the buffer.
#[unsafe(no_mangle)]
pub extern "C" fn handlebars_template_name(bundle: &[u8], template: usize, out: &mut [u8]) -> usize
    ensures { Filled (template_name bundle.now template (length out.old)) (length out.old) result out.new }
{
    handlebars::handlebars_template_name(bundle, template, out)
}
