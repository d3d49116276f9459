// registry.rs: `render`, with the checks before it. All that is lent is zero at the end, but for the text.
ghost use Rattle.std.specs.Prelude.{[], ◌∷◌, ◌≡◌, length, replicate};
ghost use Rattle.rules.specs.Registry.{paper_limits};
ghost use Rattle.rules.specs.Call.{render_bytes};
ghost use Rattle.drawing.specs.Renders.{options_of};
ghost use Rattle.handlebars.specs.Answers.{refusal, Shown};
ghost use Rattle.handlebars.specs.Begins.{Roomy, StartHolds, Tabled, goes_on};
ghost use Rattle.handlebars.specs.Calls.{inputs, left, predicted, Emptied};

use crate::Answer;
use crate::draw::draw;
use crate::numbers::SCRATCH_TOO_SHORT;
use crate::start::{begin, long_enough};
use expand::Options;

// A refusal by one of the first ten checks: no name, no position, no text.
fn refused(number: u32) -> Answer
    ensures { result ≡ refusal number }
{
    Answer {
        number: number,
        template: 0,
        line: 0,
        column: 0,
        length: 0,
    }
}

// Clears the page from the place on, and all scratch but the places.
fn clear_lent(
    page: &mut [u8],
    from: usize,
    entries: &mut [u64],
    texts: &mut [u8],
    indent: &mut [u8],
)
    ensures { Emptied from page.old entries.old texts.old indent.old page.new entries.new texts.new indent.new }
{
    clear::clear_from(page, from, 0);
    clear::clear(entries, 0);
    clear::clear(texts, 0);
    clear::clear(indent, 0);
}

// Checks 7 to 10, then the drawing of the template whose name stands at the place name and whose body at p. The places are zero again at the end.
fn go_on(
    bundle: &[u8],
    index: &[u32],
    plan: &[u8],
    options: Options,
    name: usize,
    p: usize,
    page: &mut [u8],
    places: &mut [u64],
    entries: &mut [u64],
    texts: &mut [u8],
    indent: &mut [u8],
) -> Answer
    requires { StartHolds bundle.now (Ok (name, p)) × Tabled bundle.now index.now × Roomy places.old entries.old texts.old indent.old }
    ensures shown { Shown bundle.now result page.new (goes_on bundle.now plan.now (options_of options) (paper_limits (length page.old)) (Ok (name, p))) }
    ensures places_after { places.new ≡ replicate (length places.old) 0 }
{
    let n = plan_read::read_plan(plan, places);
    if n != 0 {
        return refused(n as u32);
    }
    let r = draw(
        bundle, index, plan, places, options, name, p, page, entries, texts, indent,
    );
    places::clear_table(plan, places);
    r
}

// The checks in their order, and the drawing: the text is at the front of the page. The places are zero; what else is lent keeps whatever was written into it.
fn answer(
    bundle: &[u8],
    plan: &[u8],
    start: &[u8],
    options: Options,
    page: &mut [u8],
    places: &mut [u64],
    entries: &mut [u64],
    texts: &mut [u8],
    indent: &mut [u8],
) -> Answer
    ensures shown { Shown bundle.now result page.new (render_bytes (inputs bundle.now plan.now start.now options (length page.old) (length places.old ∷ length entries.old ∷ length texts.old ∷ length indent.old ∷ []))) }
    ensures places_after { places.new ≡ replicate (length places.old) 0 }
{
    if !long_enough(places.len(), entries.len(), texts.len(), indent.len()) {
        clear::clear(places, 0);
        return refused(SCRATCH_TOO_SHORT);
    }
    let mut index: [u32; 64] = [0; 64];
    let from = begin(bundle, start, options, &mut index);
    match from {
        Err(number) => {
            clear::clear(places, 0);
            refused(number)
        }
        Ok((name, p)) => go_on(
            bundle, &index, plan, options, name, p, page, places, entries, texts, indent,
        ),
    }
}

// The whole call: the text on the page and its length, or the first refusal in the paper's order. It asks nothing of its arguments.
// All that is lent is cleared at the end: the page behind the text, and the scratch buffers. (The places are cleared first, before the plan is read, and so at the end only
// where its values stand.)
pub fn render(
    bundle: &[u8],
    plan: &[u8],
    start: &[u8],
    options: Options,
    page: &mut [u8],
    places: &mut [u64],
    entries: &mut [u64],
    texts: &mut [u8],
    indent: &mut [u8],
) -> Answer
    ensures { left bundle.now result page.new (places.new ∷ entries.new ∷ texts.new ∷ indent.new ∷ []) ≡ predicted (inputs bundle.now plan.now start.now options (length page.old) (length places.old ∷ length entries.old ∷ length texts.old ∷ length indent.old ∷ [])) }
{
    let r = answer(
        bundle, plan, start, options, page, places, entries, texts, indent,
    );
    clear_lent(page, r.length, entries, texts, indent);
    r
}
