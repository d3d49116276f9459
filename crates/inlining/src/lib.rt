// render.rs: `eval_decorator`. It draws nothing; the newest scope may have an inline partial more behind it, or another body under a name that
// it has. s is the plan, b the bundle, ent holds the entries of open partials.
#![tactic(auto)]

ghost use Rattle.std.specs.Prelude.{List, ◌≡◌, ◌+◌, ◌≤◌, length};
ghost use Rattle.rules.specs.Bits.{bits};
ghost use Rattle.rules.specs.Bundle as bundle;
ghost use Rattle.rules.specs.Bundle.{string, param, call_of};
ghost use Rattle.parts.specs.Holds.{Holds};
ghost use Rattle.parts.specs.Says.{MaybeHolds};
ghost use Rattle.places.specs.Accepted.{Accepted};
ghost use Rattle.value.specs.Numbers.{encoded};
ghost use Rattle.entries.specs.Stored.{stored};
ghost use Rattle.state.specs.Context.{whole, Front};
ghost use Rattle.inlining.specs.Decorated.{is_at, place_of, with_body, one_more, NewFits, context_after, entries_after, Keepable, SomeReady, Leaves, Decorates};

use decorators::Inlined;
use error::RenderErrorReason;
use expand::Options;
use scope::Scope;
use state::RenderContext;
use value::Value;

pub fn is_at(m: Option<usize>) -> bool
    ensures { result ≡ is_at m }
{
    match m {
        Some(_) => true,
        None => false,
    }
}

fn place_of(m: Option<usize>) -> usize
    ensures { result ≡ place_of m }
{
    match m {
        Some(q) => q,
        None => 0,
    }
}

// Without a body nothing is kept.
fn with_body(x: Inlined, has_body: bool) -> Inlined
    ensures { result ≡ with_body has_body x }
{
    if has_body {
        return x;
    }
    match x {
        Inlined::Bad(e) => Inlined::Bad(e),
        Inlined::New(_) => Inlined::Bad(RenderErrorReason::BlockContentRequired),
        Inlined::Again(_, _) => Inlined::Bad(RenderErrorReason::BlockContentRequired),
    }
}

// An inline partial more, behind the entries in use: v is its name, q the place of its body, which has d depths. c is the newest scope.
fn add_partial(
    ent: &mut [u64],
    c: Scope,
    rc: RenderContext,
    v: Value,
    d: usize,
    q: usize,
) -> RenderContext
    requires { NewFits ent.old c rc.used rc.total v × (d ≤ 16) }
    ensures { ((l : List Scope) → length l ≡ 32 → Front l rc c → whole result l ≡ one_more (whole rc l))
        × (ent.new ≡ stored ent.old (c.inline + c.count) (encoded v) d q) }
{
    let k = c.inline + c.count;
    decorators::set_local_partial(ent, k as usize, value::encode(v), d, q);
    let mut more = rc;
    more.count = c.count as usize + 1;
    state::set_total(more, rc.total + 1)
}

// What `inline` answered is done.
fn keep_partial(
    ent: &mut [u64],
    c: Scope,
    rc: RenderContext,
    x: Inlined,
    d: usize,
    q: usize,
) -> RenderContext
    requires { Keepable ent.old c rc.used rc.total x × (d ≤ 16) }
    ensures { ((l : List Scope) → length l ≡ 32 → Front l rc c → whole result l ≡ context_after (whole rc l) x)
        × (ent.new ≡ entries_after c ent.old d q x) }
{
    match x {
        Inlined::Bad(e) => state::failed(rc, Some(e)),
        Inlined::New(v) => add_partial(ent, c, rc, v, d, q),
        Inlined::Again(k, _) => {
            // the entry keeps its name
            let name = entries::low(ent, k);
            decorators::set_local_partial(ent, k, name, d, q);
            rc
        }
    }
}

// The decorator whose call stands at p, with its body and its own indent, where it has them; d is the number of depths that both have left. front is the
// newest scope.
pub fn eval_decorator(
    s: &[u8],
    tab: &[u64],
    b: &[u8],
    ent: &mut [u64],
    scopes: [Scope; 32],
    front: Scope,
    options: Options,
    p: usize,
    body: Option<usize>,
    at: Option<usize>,
    d: usize,
    rc: RenderContext,
) -> RenderContext
    requires { Accepted s.now tab.now × (length b.now ≤ 65536) × Front scopes rc front
        × SomeReady s.now b.now (whole rc scopes) ent.old
        × (d ≤ 16) × Holds (call_of (param d)) (bits b.now) p
        × MaybeHolds (bundle.body 16 d) (bits b.now) body × MaybeHolds string (bits b.now) at }
    ensures { Leaves (whole rc scopes) (whole result scopes) ent.old ent.new d body
        × Decorates s.now b.now (whole rc scopes) (whole result scopes)
        ent.old ent.new options p body at d }
{
    let w = expand::try_from_template(s, tab, b, ent, scopes, rc.used, options, p, d);
    if let Some(e) = w.bad {
        return state::failed(rc, Some(e));
    }
    let name = w.name;
    if !decorators::indent_fits(b, rc.writer.has_indent, rc.writer.indent, at) {
        return state::failed(rc, Some(RenderErrorReason::IndentLimit));
    }
    if !decorators::is_inline(s, tab, b, name) {
        return state::failed(rc, Some(RenderErrorReason::DecoratorNotFound));
    }
    // it comes before the refusal of with_body
    if w.count == 0 {
        return state::failed(rc, Some(RenderErrorReason::ParamNotFoundForIndex));
    }
    let has = is_at(body);
    let x = decorators::inline(s, tab, b, ent, front, rc.total, w, has);
    let y = with_body(x, has);
    keep_partial(ent, front, rc, y, d, place_of(body))
}
