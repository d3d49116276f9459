// helpers/*.rs and render.rs: a helper up to the body that it draws. What it does is decided, its marks are set, and the scope of `with` is opened.
// s is the plan with its places tab, b the bundle; ent holds the entries of open partials, indent the indent in force; d is the number of depths left
// for the call and the bodies of the element.
#![tactic(auto)]

ghost use Rattle.std.specs.Prelude.{◌≡◌, List, ℕ, ◌+◌, ◌-◌, ◌≤◌, ◌<◌, length};
ghost use Rattle.rules.specs.Bits.{bits};
ghost use Rattle.rules.specs.Bundle.{string, body, param, call_of, block_names};
ghost use Rattle.parts.specs.Holds.{Holds};
ghost use Rattle.parts.specs.Views.{names_view};
ghost use Rattle.parts.specs.Says.{MaybeHolds};
ghost use Rattle.places.specs.Accepted.{Accepted};
ghost use Rattle.value.specs.Numbers.{decoded, Fits};
ghost use Rattle.meaning.specs.Forms.{Known};
ghost use Rattle.lookup.specs.Answers.{Held};
ghost use Rattle.scope.specs.Names.{Readable};
ghost use Rattle.context.specs.Evaluated.{evaluated_of};
ghost use Rattle.context.specs.Start.{NearFront};
ghost use Rattle.expand.specs.Answers.{ExpandedHeld};
ghost use Rattle.blocks.specs.Opened.{with_scope};
ghost use Rattle.state.specs.Context.{whole, topped, Front};
ghost use Rattle.state.specs.Setters.{marked};
ghost use Rattle.state.specs.World.{world, Ready};
ghost use Rattle.inlining.specs.Decorated.{is_at};
ghost use Rattle.drawing.specs.Parts.{before_helper};
ghost use Rattle.helping.specs.Few.{SecondHolds, second_view, few_view, FewIs};
ghost use Rattle.helping.specs.Decided.{Leads, CallWorked, Decided, DecidedBy, DecidedNear, Doable};
ghost use Rattle.helping.specs.Begun.{done, body_next, turns_next, Stays, WithinBegun, TopIs, HelperBegun};

use error::RenderErrorReason;
use expand::{Expanded, Options};
use helpers::Does;
use output::Writer;
use scope::Scope;
use state::RenderContext;
use value::Value;

// A call whose name is a string, with no hash and few parameters: most are such.
#[derive(Clone, Copy)]
enum Few {
    // the path that is the only one
    One(usize),
    // a path, and behind it a literal
    Two(usize, usize),
    Other,
}

// The path at v is followed by one parameter more.
fn second_at(b: &[u8], v: usize) -> Few
    requires { (length b.now ≤ 65536) × SecondHolds (bits b.now) v }
    ensures { result ≡ second_view (bits b.now) v }
{
    let e = parts::skip_path(b, v);
    if bits::field(b, e, 2) != 2 {
        return Few::Other;
    }
    let l = e + 2;
    let f = parts::skip_literal(b, l);
    if bits::field(b, f, 4) == 0 {
        return Few::Two(v, l);
    }
    Few::Other
}

// The call at p, read with few reads.
fn few_at(b: &[u8], p: usize, d: usize) -> Few
    requires { (length b.now ≤ 65536) × Holds (call_of (param d)) (bits b.now) p }
    ensures { result ≡ few_view (bits b.now) p }
{
    // its name's kind, and the count of the string that a name is
    let x = bits::field(b, p, 18);
    if 65535 < x {
        return Few::Other;
    }
    let q = p + 18 + 8 * (x as usize);
    // the count of parameters, and the first one's kind
    let y = bits::field(b, q, 6);
    if y == 5 {
        let e = parts::skip_path(b, q + 6);
        if bits::field(b, e, 4) == 0 {
            return Few::One(q + 6);
        }
        return Few::Other;
    }
    if y == 9 {
        return second_at(b, q + 6);
    }
    Few::Other
}

// What the helper of the call at p does: its name is a string, and its only parameter leads to what `found` says.
fn decide_one(
    s: &[u8],
    tab: &[u64],
    b: &[u8],
    used: usize,
    options: Options,
    p: usize,
    found: u64,
    has_template: bool,
    has_inverse: bool,
) -> Does
    requires { Accepted s.now tab.now
        × (length b.now ≤ 65536)
        × Holds string (bits b.now) (p + 2)
        × (found ≤ 4294967296)
        × ((found ≡ 0 → ⊥) → Known s.now b.now (decoded (found - 1))) }
    ensures { (ent : List ℕ) (l : List Scope) (d v : ℕ)
        → FewIs d (bits b.now) p (Few.One v)
        → Leads s.now b.now ent l used options v (evaluated_of found)
        → DecidedBy s.now b.now ent l used options d p has_template has_inverse result }
{
    // a wrong index
    if found == 0 {
        return Does::Bad(RenderErrorReason::InvalidJsonIndex);
    }
    let w = value::decode((found - 1) as u32);
    let h = expand::helper_at(b, p + 2);
    helpers::call_one(s, tab, b, used, options, h, w, has_template, has_inverse)
}

// The same where the literal at l is a second parameter.
fn decide_two(
    s: &[u8],
    tab: &[u64],
    b: &[u8],
    ent: &[u64],
    used: usize,
    options: Options,
    p: usize,
    found: u64,
    l: usize,
    has_template: bool,
    has_inverse: bool,
) -> Does
    requires { Accepted s.now tab.now
        × (length b.now ≤ 65536)
        × Holds string (bits b.now) (p + 2)
        × (found ≤ 4294967296)
        × ((found ≡ 0 → ⊥) → Held s.now b.now ent.now (decoded (found - 1)))
        × Held s.now b.now ent.now (Value.Literal l) }
    ensures { (k : List Scope) (d v : ℕ)
        → FewIs d (bits b.now) p (Few.Two v l)
        → Leads s.now b.now ent.now k used options v (evaluated_of found)
        → DecidedBy s.now b.now ent.now k used options d p
        has_template has_inverse result }
{
    // a wrong index
    if found == 0 {
        return Does::Bad(RenderErrorReason::InvalidJsonIndex);
    }
    let w = value::decode((found - 1) as u32);
    let h = expand::helper_at(b, p + 2);
    helpers::call_two(
        s,
        tab,
        b,
        ent,
        used,
        options,
        h,
        w,
        Value::Literal(l),
        has_template,
        has_inverse,
    )
}

// What the helper of the call at p does, by the front alone; None where that does not tell.
pub fn decide_near(
    s: &[u8],
    tab: &[u64],
    b: &[u8],
    ent: &[u64],
    front: Scope,
    names: u64,
    used: usize,
    options: Options,
    p: usize,
    template: Option<usize>,
    inverse: Option<usize>,
    d: usize,
) -> Option<Does>
    requires { Accepted s.now tab.now
        × (length b.now ≤ 65536)
        × NearFront s.now b.now ent.now front names
        × Holds (call_of (param d)) (bits b.now) p }
    ensures { DecidedNear s.now b.now ent.now front names used options d p
        (is_at template) (is_at inverse) result }
{
    let t = inlining::is_at(template);
    let i = inlining::is_at(inverse);
    let few = few_at(b, p, d);
    let r = options.recursive_lookup;
    match few {
        Few::One(v) => {
            let x = context::evaluate_near(s, tab, b, ent, front, names, r, v);
            if x == context::FAR {
                return None;
            }
            Some(decide_one(s, tab, b, used, options, p, x, t, i))
        }
        Few::Two(v, l) => {
            let x = context::evaluate_near(s, tab, b, ent, front, names, r, v);
            if x == context::FAR {
                return None;
            }
            Some(decide_two(s, tab, b, ent, used, options, p, x, l, t, i))
        }
        Few::Other => None,
    }
}

// What the helper of any call does, which was worked out to w.
pub fn decide(
    s: &[u8],
    tab: &[u64],
    b: &[u8],
    ent: &[u64],
    used: usize,
    options: Options,
    w: Expanded,
    template: Option<usize>,
    inverse: Option<usize>,
) -> Does
    requires { Accepted s.now tab.now
        × (length b.now ≤ 65536)
        × (w.bad ≡ None → ExpandedHeld s.now b.now ent.now w) }
    ensures { (l : List Scope) (d p : ℕ)
        → CallWorked s.now b.now ent.now l used options d p w
        → DecidedBy s.now b.now ent.now l used options d p
        (is_at template) (is_at inverse) result }
{
    if let Some(e) = w.bad {
        return Does::Bad(e);
    }
    let n = w.name;
    let h = expand::get_helper(s, tab, b, n);
    helpers::call_helper(
        s,
        tab,
        b,
        ent,
        used,
        options,
        h,
        w,
        inlining::is_at(template),
        inlining::is_at(inverse),
    )
}

// Whether an indent comes in front of what a helper writes.
fn before_helper(w: Writer, before: bool) -> bool
    ensures { result ≡ before_helper w before }
{
    if w.indent_before_write {
        return true;
    }
    if before {
        return w.trailing_newline;
    }
    false
}

// The marks in front of a helper.
pub fn begin_helper(rc: RenderContext, before: bool) -> RenderContext
    ensures { (l : List Scope) → whole result l ≡ marked (whole rc l) (before_helper rc.writer before) }
{
    let w = rc.writer;
    state::begin_aware(rc, before_helper(w, before))
}

// What is left to be drawn of a helper.
#[derive(Clone, Copy)]
pub enum Next {
    // nothing: the context is the one behind it
    Done,
    // the body at that place
    Body(usize),
    // the same in the scope that was opened
    Within(usize),
    // the body for each turn over the value
    Turns(Value, usize),
}

#[derive(Clone, Copy)]
pub struct Begun {
    pub rc: RenderContext,
    // the newest scope: the one that was opened, else the front
    pub top: Scope,
    pub next: Next,
}

fn done(front: Scope, rc: RenderContext) -> Begun
    ensures { Stays front result (λ l. done (whole rc l)) }
{
    Begun {
        rc,
        top: front,
        next: Next::Done,
    }
}

// A body of the element, if it has it; a body has no name.
fn body_next(m: Option<usize>, front: Scope, rc: RenderContext, before: Writer) -> Begun
    ensures { Stays front result (λ l. body_next m (whole rc l) before) }
{
    match m {
        Some(p) => {
            Begun {
                rc: state::set_current_template_name(rc, 0),
                top: front,
                next: Next::Body(p),
            }
        }
        None => done(front, state::settle(rc, before)),
    }
}

// The template of `with`, in a scope of the value; without a template the scope is opened and closed again.
fn within_next(
    b: &[u8],
    ent: &[u64],
    front: Scope,
    at: usize,
    m: Option<usize>,
    v: Value,
    rc: RenderContext,
    before: Writer,
) -> Begun
    requires { (length b.now ≤ 65536)
        × Holds block_names (bits b.now) at
        × Fits v
        × (front.inline + front.count ≤ 4096)
        × Readable b.now ent.now (with_scope v (names_view (bits b.now) at) front)
        × (rc.used < 32) }
    ensures { WithinBegun b.now ent.now at m v front rc before result }
{
    let Some(p) = m else {
        return done(front, state::settle(rc, before));
    };
    let c = blocks::open_with(b, front, at, v);
    let q = state::deeper(rc, scope::names_of(b, ent, c));
    Begun {
        rc: state::set_current_template_name(q, 0),
        top: c,
        next: Next::Within(p),
    }
}

fn turns_next(m: Option<usize>, v: Value, front: Scope, rc: RenderContext, before: Writer) -> Begun
    ensures { Stays front result (λ l. turns_next m v (whole rc l) before) }
{
    match m {
        Some(p) => {
            Begun {
                rc,
                top: front,
                next: Next::Turns(v, p),
            }
        }
        None => done(front, state::settle(rc, before)),
    }
}

// A helper that does what was decided; its block names stand at the place `at`.
pub fn begin(
    s: &[u8],
    tab: &[u64],
    b: &[u8],
    ent: &[u64],
    page: &mut [u8],
    texts: &mut [u8],
    indent: &[u8],
    front: Scope,
    does: Does,
    at: usize,
    template: Option<usize>,
    inverse: Option<usize>,
    before: bool,
    rc: RenderContext,
) -> Begun
    requires { Accepted s.now tab.now
        × (length b.now ≤ 65536)
        × Doable s.now b.now ent.now front rc does
        × Holds block_names (bits b.now) at }
    ensures top_is { TopIs front rc result }
    ensures helper_begun { (l : List Scope) (o : Options) (d p : ℕ)
        → Front l rc front
        → Ready s.now b.now
        (world (whole rc l) page.old texts.old indent.now ent.now)
        → Decided s.now b.now ent.now o (whole rc l) d p template inverse does
        → MaybeHolds (body 16 d) (bits b.now) template
        → MaybeHolds (body 16 d) (bits b.now) inverse
        → HelperBegun s.now b.now o
        (world (whole rc l) page.old texts.old indent.now ent.now)
        (world (topped result.rc l result.top) page.new texts.new indent.now
        ent.now)
        d p at template inverse before result.next }
{
    let marks = rc.writer;
    let q = begin_helper(rc, before);
    match does {
        Does::Bad(n) => done(front, state::failed(q, Some(n))),
        Does::Nothing => done(front, state::settle(q, marks)),
        Does::Template => body_next(template, front, q, marks),
        Does::Inverse => body_next(inverse, front, q, marks),
        Does::Within(v) => within_next(b, ent, front, at, template, v, q, marks),
        Does::Turns(v) => turns_next(template, v, front, q, marks),
        Does::Write(v) => done(
            front,
            state::finish(writing::value(page, texts, indent, s, tab, b, v, q), marks),
        ),
    }
}
