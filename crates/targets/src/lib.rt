// partial.rs: what the name of a partial stands for, up to the body that is drawn.
// s is the plan with its places tab, b the bundle with the places of its templates; ent holds the entries of open partials; d is the number of depths
// left for the body of the element.
#![tactic(auto)]

ghost use Rattle.std.specs.Prelude.{◌≡◌, ℕ, ◌+◌, ◌^◌, ◌≤◌, ◌<◌};
ghost use Rattle.rules.specs.Bits.{bits};
ghost use Rattle.rules.specs.Bundle.{body};
ghost use Rattle.parts.specs.Says.{MaybeHolds};
ghost use Rattle.state.specs.Context.{whole, Current};
ghost use Rattle.state.specs.World.{sizes_of};
ghost use Rattle.meaning.specs.Standing.{Stands};
ghost use Rattle.inlining.specs.Decorated.{SomeReady};
ghost use Rattle.drawing.specs.Renders.{Checked};
ghost use Rattle.targets.specs.Target.{fallback, by_peek, own_target, Decided};

use error::RenderErrorReason;
use partials::Found;
use scope::Scope;
use state::RenderContext;
use texts::Peek;
use value::Value;

// What a partial's name stands for.
#[derive(Clone, Copy)]
pub enum Target {
    // why it is refused
    Bad(RenderErrorReason),
    // a finished block text, by its place in the buffer and its length
    Text(usize, usize),
    // the own body at that place, as the fallback of `@partial-block`
    Fallback(usize),
    // the body at that place with its depths, one more than the place of its name (0 where it has none), and the body of its block text
    Body(usize, usize, usize, Option<usize>),
}

// The own body of a `@partial-block` that has no text.
fn fallback(own: Option<usize>) -> Target
    ensures { result ≡ fallback own }
{
    match own {
        Some(p) => Target::Fallback(p),
        None => Target::Bad(RenderErrorReason::PartialBlockNotFound),
    }
}

// `@partial-block`: its text, or the fallback.
fn block_target(peek: Peek, own: Option<usize>) -> Target
    ensures { result ≡ by_peek own peek }
{
    match peek {
        Peek::Absent => fallback(own),
        Peek::Nothing => fallback(own),
        Peek::Text(from, n) => Target::Text(from, n),
    }
}

// Where nothing is found, the own body, which then is no block text.
fn own_target(own: Option<usize>, d: usize) -> Target
    ensures { result ≡ own_target own d }
{
    match own {
        Some(p) => Target::Body(p, d, 0, None),
        None => Target::Bad(RenderErrorReason::PartialNotFound),
    }
}

// `expand_partial`: what the name of a partial, which is worked out, stands for.
pub fn expand_partial(
    s: &[u8],
    tab: &[u64],
    b: &[u8],
    index: &[u32],
    ent: &[u64],
    scopes: [Scope; 32],
    name: Value,
    own: Option<usize>,
    d: usize,
    rc: RenderContext,
) -> Target
    requires { Checked s.now tab.now b.now index.now × Current scopes rc
        × SomeReady s.now b.now (whole rc scopes) ent.now
        × (d ≤ 16) × MaybeHolds (body 16 d) (bits b.now) own × ((t : ℕ) × Stands s.now b.now ent.now t name)
        × (rc.writer.high + sizes_of scopes rc.used < 2 ^ 64) }
    ensures { Decided s.now b.now ent.now (whole rc scopes) d name own result }
{
    if partials::is_current_template(s, tab, b, rc.template, name) {
        return Target::Bad(RenderErrorReason::CannotIncludeSelf);
    }
    if print::text_is(s, tab, b, name, b"@partial-block") {
        return block_target(texts::peek_partial_block(scopes, rc), own);
    }
    match partials::find_partial(s, tab, b, index, ent, scopes, rc.used, name) {
        Found::Inline(q, e) => Target::Body(q, e, 0, own),
        Found::Template(n, q) => Target::Body(q, 16, n + 1, own),
        Found::Nothing => own_target(own, d),
    }
}
