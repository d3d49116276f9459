// partial.rs and render.rs: a partial up to the body that it draws. Its marks are set, its scope is opened, and its indent is set.
// s is the plan with its places tab, b the bundle with the places of its templates; ent holds the entries of open partials, indent the indent in force;
// d is the number of depths left for the call and the body of the element.
#![tactic(auto)]

ghost use Rattle.std.specs.Prelude.{◌||◌, ◌≡◌, List, ◌≤◌, length};
ghost use Rattle.rules.specs.Bits.{bits};
ghost use Rattle.rules.specs.Bundle.{string, body, param, call_of};
ghost use Rattle.parts.specs.Holds.{Holds};
ghost use Rattle.parts.specs.Says.{MaybeHolds};
ghost use Rattle.state.specs.Context.{whole, topped, Front};
ghost use Rattle.state.specs.World.{world, Ready};
ghost use Rattle.texts.specs.Setters.{text_moved};
ghost use Rattle.inlining.specs.Decorated.{is_at};
ghost use Rattle.drawing.specs.Parts.{before_partial};
ghost use Rattle.drawing.specs.Renders.{Checked};
ghost use Rattle.beginning.specs.Opened.{done, BodyFits, body_context, body_buffer, TextEnds, text_buffer, partial_rule, PartialBegun};
ghost use Rattle.beginning.specs.Entering.{Enterable, Enters};

use error::RenderErrorReason;
use expand::Options;
use output::Writer;
use scope::Scope;
use state::RenderContext;
use targets::Target;
use value::Value;

fn has_indent(w: Writer, at: Option<usize>) -> bool
    ensures { result ≡ (w.has_indent || is_at at) }
{
    if w.has_indent {
        return true;
    }
    inlining::is_at(at)
}

// The indent of a partial is set in front of its body, with its own indent at the place `at`; and the body's name, by one more than its place.
fn begin_body(
    indent: &mut [u8],
    b: &[u8],
    at: Option<usize>,
    name: usize,
    rc: RenderContext,
) -> RenderContext
    requires { (length b.now ≤ 65536) × BodyFits (bits b.now) at rc.writer (length indent.old) }
    ensures { ((l : List Scope) → whole result l ≡ body_context (bits b.now) at name (whole rc l))
        × (indent.new ≡ body_buffer (bits b.now) at rc.writer indent.old) }
{
    let w = rc.writer;
    let n = decorators::append_indent(indent, b, w.indent, at);
    let u = texts::with_indent(rc, has_indent(w, at), n);
    state::set_current_template_name(u, name)
}

// The block text, drawn from begin on, is finished; then the body comes.
// (The newest scope is given the text by `texts::with_text`.)
pub fn end_text(
    texts: &mut [u8],
    indent: &mut [u8],
    b: &[u8],
    at: Option<usize>,
    name: usize,
    begin: usize,
    block_text: bool,
    rc: RenderContext,
) -> RenderContext
    requires { (length b.now ≤ 65536)
        × TextEnds (bits b.now) at begin rc.writer (length texts.old) (length indent.old) }
    ensures { ((l : List Scope)
        → whole result l ≡ body_context (bits b.now) at name (text_moved (whole rc l) begin block_text))
        × (texts.new ≡ text_buffer begin rc.writer texts.old)
        × (indent.new ≡ body_buffer (bits b.now) at rc.writer indent.old) }
{
    let u = texts::close_text(texts, rc, begin, block_text);
    begin_body(indent, b, at, name, u)
}

// What is left to be drawn of a partial.
#[derive(Clone, Copy)]
pub enum Next {
    // nothing: the context is the one behind it
    Done,
    // the own body, as the fallback of `@partial-block`
    Fallback(usize),
    // the body at that place with its depths, and one more than the place of its name
    Body(usize, usize, usize),
    // the same behind the block text, whose body stands first
    Text(usize, usize, usize, usize),
}

// top is the newest scope: where none was opened, the one in front of the partial.
#[derive(Clone, Copy)]
pub struct Begun {
    pub rc: RenderContext,
    pub top: Scope,
    pub next: Next,
}

fn done(rc: RenderContext, front: Scope) -> Begun
    ensures { result ≡ done rc front }
{
    Begun {
        rc,
        top: front,
        next: Next::Done,
    }
}

// The scope of the partial that was found is opened inside front, and its body or the body of its block text begins.
// Its call has n hash pairs at r, which are merged into the base; values are the numbers of theirs.
fn enter(
    s: &[u8],
    tab: &[u64],
    b: &[u8],
    ent: &mut [u64],
    indent: &mut [u8],
    front: Scope,
    base: Value,
    r: usize,
    n: usize,
    values: &[u32],
    q: usize,
    e: usize,
    name: usize,
    own: Option<usize>,
    at: Option<usize>,
    d: usize,
    rc: RenderContext,
) -> Begun
    requires { Enterable s.now tab.now b.now ent.old indent.old rc front base d r n values.now at }
    ensures { Enters s.now b.now ent.old ent.new
        indent.old indent.new rc front base d r n values.now q e name own at result }
{
    let opened = opening::open_scope(
        s, tab, b, ent, front, base, r, n, values, d, rc.used, rc.total,
    );
    match opened {
        Err(e) => done(state::failed(rc, Some(e)), front),
        Ok((c, total)) => {
            let u = state::set_total(state::deeper(rc, scope::names_of(b, ent, c)), total);
            match own {
                Some(t) => Begun {
                    rc: state::set_current_template_name(texts::open_text(u), 0),
                    top: c,
                    next: Next::Text(t, q, e, name),
                },
                None => Begun {
                    rc: begin_body(indent, b, at, name, u),
                    top: texts::no_text(c),
                    next: Next::Body(q, e, name),
                },
            }
        }
    }
}

// Whether an indent comes in front of what a partial writes; at is its own indent.
fn before_partial(w: Writer, at: Option<usize>, before: bool) -> bool
    ensures { result ≡ before_partial w at before }
{
    if before {
        if w.trailing_newline {
            return true;
        }
        return inlining::is_at(at);
    }
    false
}

// The partial of the call at p, with its own body and its own indent, where it has them. front is the newest scope.
pub fn begin(
    s: &[u8],
    tab: &[u64],
    b: &[u8],
    index: &[u32],
    ent: &mut [u64],
    page: &mut [u8],
    texts: &mut [u8],
    indent: &mut [u8],
    scopes: [Scope; 32],
    front: Scope,
    options: Options,
    p: usize,
    own: Option<usize>,
    at: Option<usize>,
    before: bool,
    d: usize,
    rc: RenderContext,
) -> Begun
    requires { Checked s.now tab.now b.now index.now
        × Front scopes rc front
        × Ready s.now b.now (world (whole rc scopes) page.old texts.old indent.old ent.old)
        × (d ≤ 16)
        × Holds (call_of (param d)) (bits b.now) p
        × MaybeHolds (body 16 d) (bits b.now) own
        × MaybeHolds string (bits b.now) at }
    ensures { PartialBegun s.now b.now options
        (world (whole rc scopes) page.old texts.old indent.old ent.old)
        (world (topped result.rc scopes result.top)
        page.new texts.new indent.new ent.new)
        d (partial_rule b.now d p own at before) own at result.next
        × (result.top.count ≡ result.rc.count) }
{
    let w = expand::name_and_params(s, tab, b, ent, scopes, rc.used, options, p, d);
    if let Some(e) = w.bad {
        return done(state::failed(rc, Some(e)), front);
    }
    let call = calls::call_at(b, p, d);
    let n = call.pairs as usize;
    let mut values: [u32; 15] = [0; 15];
    let hashed = including::hash_all(
        s,
        tab,
        b,
        ent,
        scopes,
        front,
        rc.names,
        rc.used,
        options,
        call.pair,
        n,
        d,
        &mut values,
    );
    if let Err(reason) = hashed {
        return done(state::failed(rc, Some(reason)), front);
    }
    let marks = rc.writer;
    if !decorators::indent_fits(b, marks.has_indent, marks.indent, at) {
        return done(
            state::failed(rc, Some(RenderErrorReason::IndentLimit)),
            front,
        );
    }
    let q = state::begin_aware(rc, before_partial(marks, at, before));
    let name = w.name;
    match targets::expand_partial(s, tab, b, index, ent, scopes, name, own, d, q) {
        Target::Bad(e) => done(state::failed(q, Some(e)), front),
        Target::Text(from, len) => done(
            state::finish(
                writing::partial_block_text(page, texts, q, from, len),
                marks,
            ),
            front,
        ),
        Target::Fallback(t) => Begun {
            rc: state::set_current_template_name(q, 0),
            top: front,
            next: Next::Fallback(t),
        },
        Target::Body(t, e, k, m) => {
            let first = w.first;
            let base = including::partial_context(front, w.count, first);
            enter(
                s, tab, b, ent, indent, front, base, call.pair, n, &values, t, e, k, m, at, d, q,
            )
        }
    }
}
