// render.rs and partial.rs: bodies draw elements, elements call helpers and partials, and these draw bodies again.
// s is the plan with its places tab, b the bundle with the places of its templates; d is the number of depths left for a body, its own
// included. ent holds the entries of open partials, indent the indent in force; page and texts are written into.
// The open scopes go by value: each function is given the array and its newest record, and gives back the context, in which the newest scope
// may have gained inline partials. The scopes beneath are the caller's own.
#![tactic(auto)]

ghost use Rattle.std.specs.Prelude.{◌≡◌, List, ℕ, ◌+◌, ◌-◌, ◌≤◌, ◌<◌, length, set, replicate};
ghost use Rattle.std.proofs.Math.Option.{some};
ghost use Rattle.rules.specs.Bits.{bits};
ghost use Rattle.rules.specs.Bundle.{string, body, param, call_of, block_names};
ghost use Rattle.rules.specs.Call.{fresh as rules-fresh};
ghost use Rattle.rules.specs.Registry.{paper_limits};
ghost use Rattle.rules.specs.Render as rule;
ghost use Rattle.rules.specs.Render.{render_element};
ghost use Rattle.layout.specs.Text.{text_at};
ghost use Rattle.parts.specs.Holds.{Holds};
ghost use Rattle.parts.specs.Says.{MaybeHolds, names_at};
ghost use Rattle.template.specs.Views.{template_at, element_says, ElementHolds};
ghost use Rattle.scope.specs.declared.Scope.{Scope};
ghost use Rattle.scope.specs.Scopes.{blank};
ghost use Rattle.state.specs.Context.{whole, topped, Front};
ghost use Rattle.rules.specs.Layout.{field};
ghost use Rattle.state.specs.Setters.{fresh, located};
ghost use Rattle.state.specs.World.{world, Ready, Draws};
ghost use Rattle.drawing.specs.EachLoop.{each_rule};
ghost use Rattle.drawing.specs.Renders.{Checked, Named, Openable, Renders, registry_of, body_rule};
ghost use Rattle.places.specs.Accepted.{Accepted};
ghost use Rattle.helping.specs.Begun.{HelperBegun, TopIs};
ghost use Rattle.helping.specs.Decided.{helper_rule};
ghost use Rattle.beginning.specs.Opened.{partial_rule};
ghost use Rattle.render.specs.Texts.{TextDrawn, TextReady};

use expand::Options;
use helping::Begun;
use plain::Shown;
use scope::Scope;
use state::RenderContext;
use template::Element;
use value::Value;

// The error of the element at p gets the line and column that stand there.
fn stopped(b: &[u8], name: usize, p: usize, rc: RenderContext) -> RenderContext
    requires { p ≤ 524288 }
    ensures { (l : List Scope) → whole result l
        ≡ located (whole rc l) name (field (bits b.now) 16 p) (field (bits b.now) 16 (p + 16)) }
{
    state::located(rc, name, bits::field(b, p, 16), bits::field(b, p + 16, 16))
}

// A body, or all of a template whose name stands at the place before name; 0 where it has none. top is the newest scope, and not yet in the array.
// (How a text or a value is stored is written out here: a function that gave the writer or the context back would have it copied for each
// element, which takes a tenth of a sheet's time.)
#[cycle(rendering)]
fn render_elements(
    s: &[u8],
    tab: &[u64],
    b: &[u8],
    index: &[u32],
    ent: &mut [u64],
    page: &mut [u8],
    texts: &mut [u8],
    indent: &mut [u8],
    scopes: [Scope; 32],
    top: Scope,
    options: Options,
    p: usize,
    d: usize,
    name: usize,
    rc: RenderContext,
) -> RenderContext
    requires { Checked s.now tab.now b.now index.now
        × Ready s.now b.now (world (topped rc scopes top) page.old texts.old indent.old ent.old)
        × (d ≤ 16)
        × Holds (body 16 d) (bits b.now) p
        × Named b.now name
        × (top.count ≡ rc.count) }
    ensures { Renders s.now b.now options
        (world (topped rc scopes top) page.old texts.old indent.old ent.old)
        (world (whole result (set scopes (rc.used - 1) top)) page.new texts.new indent.new ent.new)
        (body_rule b.now d p name) }
{
    let body = template::body_at(b, p);
    let count = body.count;
    let k = rc.used - 1;
    let mut q = rc;
    let mut front = top;
    let mut open = scope::put_scope(scopes, k, top);
    let mut cur = body.first;
    let mut i: u64 = 0;
    while i < count {
        let at = cur + 16 + 16;
        match plain::shown_at(
            s,
            tab,
            b,
            ent,
            front,
            q.names,
            options,
            q.disable_escape,
            at,
            d - 1,
        ) {
            Shown::Text(n) => {
                let put = plain::put_text(page, texts, q.writer, b, at + 20, n);
                if put == 0 {
                    let w = writing::write_packed(page, texts, indent, q.writer, b, at + 20, n);
                    q = state::wrote(q, w);
                    if q.bad.is_some() {
                        return stopped(b, name, cur, q);
                    }
                } else {
                    let w = direct::behind(q.writer, n, (put - 1) as u8);
                    q = state::set_writer(q, w);
                }
                cur = at + 20 + 8 * n;
                i += 1;
                continue;
            }
            Shown::Value(v, html, next) => {
                let put = plain::put_number(page, texts, q.writer, s, tab, v);
                if put == 0 {
                    let escape = !(html | q.disable_escape);
                    let u = value::decode(v);
                    let w = writing::write_value(
                        page, texts, indent, q.writer, s, tab, b, u, escape,
                    );
                    q = state::wrote(q, w);
                    if q.bad.is_some() {
                        return stopped(b, name, cur, q);
                    }
                } else {
                    let w = direct::behind(q.writer, put / 256, (put % 256) as u8);
                    q = state::set_writer(q, w);
                }
                cur = next;
                i += 1;
                continue;
            }
            Shown::Lookup(v, html, before, next) => {
                q = plain::draw_lookup(page, texts, indent, s, tab, b, v, html, before, q);
                if q.bad.is_some() {
                    return stopped(b, name, cur, q);
                }
                cur = next;
                i += 1;
                continue;
            }
            Shown::Nothing(next) => {
                cur = next;
                i += 1;
                continue;
            }
            Shown::Bad(reason) => {
                return stopped(b, name, cur, state::failed(q, Some(reason)));
            }
            Shown::Other => {}
        }
        let e = template::content_at(b, cur + 16 + 16, 16, d - 1);
        let element = e.element;
        q = render_element(
            s,
            tab,
            b,
            index,
            ent,
            page,
            texts,
            indent,
            open,
            front,
            options,
            element,
            d - 1,
            q,
        );
        if q.bad.is_some() {
            return stopped(b, name, cur, q);
        }
        cur = e.next;
        i += 1;
        if q.count != front.count as usize {
            front = scope::with_count(front, q.count);
            let counted = scope::put_scope(open, k, front);
            open = counted;
        }
    }
    q
}

#[cycle(rendering)]
fn render_element(
    s: &[u8],
    tab: &[u64],
    b: &[u8],
    index: &[u32],
    ent: &mut [u64],
    page: &mut [u8],
    texts: &mut [u8],
    indent: &mut [u8],
    scopes: [Scope; 32],
    front: Scope,
    options: Options,
    e: Element,
    d: usize,
    rc: RenderContext,
) -> RenderContext
    requires { Checked s.now tab.now b.now index.now
        × Ready s.now b.now (world (whole rc scopes) page.old texts.old indent.old ent.old)
        × (d < 16)
        × ElementHolds 16 d (bits b.now) e
        × Front scopes rc front }
    ensures { Renders s.now b.now options
        (world (whole rc scopes) page.old texts.old indent.old ent.old)
        (world (whole result scopes) page.new texts.new indent.new ent.new)
        (λ g R. render_element g R (element_says 16 d (bits b.now) e)) }
{
    match e {
        Element::RawString(p) => writing::raw_string(page, texts, indent, b, p, rc),
        Element::HtmlExpression(p, before) => {
            expressions::render_html_expression(
                s, tab, b, ent, page, texts, indent, scopes, options, p, before, d, rc,
            )
        }
        Element::Expression(p, before) => {
            expressions::render_expression(
                s, tab, b, ent, page, texts, indent, scopes, options, p, before, d, rc,
            )
        }
        Element::HelperBlock(p, at, template, inverse, before) => {
            render_helper(
                s, tab, b, index, ent, page, texts, indent, scopes, front, options, p, at,
                template, inverse, before, d, rc,
            )
        }
        Element::DecoratorExpression(p, at, _) => {
            inlining::eval_decorator(s, tab, b, ent, scopes, front, options, p, None, at, d, rc)
        }
        Element::DecoratorBlock(p, body, at, _) => {
            inlining::eval_decorator(
                s,
                tab,
                b,
                ent,
                scopes,
                front,
                options,
                p,
                Some(body),
                at,
                d,
                rc,
            )
        }
        Element::PartialBlock(p, body, at, before) => {
            render_partial_block(
                s, tab, b, index, ent, page, texts, indent, scopes, front, options, p, body, at,
                before, d, rc,
            )
        }
        Element::PartialExpression(p, at, before) => {
            render_partial(
                s, tab, b, index, ent, page, texts, indent, scopes, front, options, p, at, before,
                d, rc,
            )
        }
        Element::Comment(_) => rc,
    }
}

// What is left to be drawn of a block with a helper. Most calls are told by the front; others are worked out by all scopes.
fn begin_helper(
    s: &[u8],
    tab: &[u64],
    b: &[u8],
    ent: &[u64],
    page: &mut [u8],
    texts: &mut [u8],
    indent: &[u8],
    scopes: [Scope; 32],
    front: Scope,
    options: Options,
    p: usize,
    at: usize,
    template: Option<usize>,
    inverse: Option<usize>,
    before: bool,
    d: usize,
    rc: RenderContext,
) -> Begun
    requires { Accepted s.now tab.now
        × (length b.now ≤ 65536)
        × Ready s.now b.now (world (whole rc scopes) page.old texts.old indent.now ent.now)
        × Holds (call_of (param d)) (bits b.now) p
        × Holds block_names (bits b.now) at
        × MaybeHolds (body 16 d) (bits b.now) template
        × MaybeHolds (body 16 d) (bits b.now) inverse
        × Front scopes rc front }
    ensures { HelperBegun s.now b.now options
        (world (whole rc scopes) page.old texts.old indent.now ent.now)
        (world (topped result.rc scopes result.top) page.new texts.new indent.now ent.now)
        d p at template inverse before result.next
        × (result.top.count ≡ result.rc.count)
        × TopIs front rc result }
{
    let near = helping::decide_near(
        s, tab, b, ent, front, rc.names, rc.used, options, p, template, inverse, d,
    );
    let Some(does) = near else {
        let w = expand::try_from_template(s, tab, b, ent, scopes, rc.used, options, p, d);
        let far = helping::decide(s, tab, b, ent, rc.used, options, w, template, inverse);
        return helping::begin(
            s, tab, b, ent, page, texts, indent, front, far, at, template, inverse, before, rc,
        );
    };
    helping::begin(
        s, tab, b, ent, page, texts, indent, front, does, at, template, inverse, before, rc,
    )
}

// A block with a helper: its call at p, its block names at the place `at`.
#[cycle(rendering)]
fn render_helper(
    s: &[u8],
    tab: &[u64],
    b: &[u8],
    index: &[u32],
    ent: &mut [u64],
    page: &mut [u8],
    texts: &mut [u8],
    indent: &mut [u8],
    scopes: [Scope; 32],
    front: Scope,
    options: Options,
    p: usize,
    at: usize,
    template: Option<usize>,
    inverse: Option<usize>,
    before: bool,
    d: usize,
    rc: RenderContext,
) -> RenderContext
    requires { Checked s.now tab.now b.now index.now
        × Ready s.now b.now (world (whole rc scopes) page.old texts.old indent.old ent.old)
        × (d < 16)
        × Holds (call_of (param d)) (bits b.now) p
        × Holds block_names (bits b.now) at
        × MaybeHolds (body 16 d) (bits b.now) template
        × MaybeHolds (body 16 d) (bits b.now) inverse
        × Front scopes rc front }
    ensures { Renders s.now b.now options
        (world (whole rc scopes) page.old texts.old indent.old ent.old)
        (world (whole result scopes) page.new texts.new indent.new ent.new)
        (helper_rule b.now d p before (names_at (bits b.now) at) template inverse) }
{
    let marks = rc.writer;
    let begun = begin_helper(
        s, tab, b, ent, page, texts, indent, scopes, front, options, p, at, template, inverse,
        before, d, rc,
    );
    let next = begun.next;
    let top = begun.top;
    let mut q = begun.rc;
    match next {
        helping::Next::Done => {}
        helping::Next::Body(t) => {
            q = render_elements(
                s, tab, b, index, ent, page, texts, indent, scopes, top, options, t, d, 0, q,
            );
            q = state::finish(q, marks);
        }
        helping::Next::Within(t) => {
            q = render_elements(
                s, tab, b, index, ent, page, texts, indent, scopes, top, options, t, d, 0, q,
            );
            q = state::finish_within(q, rc);
        }
        helping::Next::Turns(v, t) => {
            q = render_turns(
                s, tab, b, index, ent, page, texts, indent, scopes, front, options, v, at, t, d, q,
            );
            q = state::finish(q, marks);
        }
    }
    q
}

// `each`: the body at p for each turn over the value, all in one scope.
#[cycle(rendering)]
fn render_turns(
    s: &[u8],
    tab: &[u64],
    b: &[u8],
    index: &[u32],
    ent: &mut [u64],
    page: &mut [u8],
    texts: &mut [u8],
    indent: &mut [u8],
    scopes: [Scope; 32],
    front: Scope,
    options: Options,
    v: Value,
    at: usize,
    p: usize,
    d: usize,
    rc: RenderContext,
) -> RenderContext
    requires { Checked s.now tab.now b.now index.now
        × Ready s.now b.now (world (whole rc scopes) page.old texts.old indent.old ent.old)
        × (d < 16)
        × Holds block_names (bits b.now) at
        × Holds (body 16 d) (bits b.now) p
        × Openable s.now b.now (world (whole rc scopes) page.old texts.old indent.old ent.old) v
        × Front scopes rc front }
    ensures { Renders s.now b.now options
        (world (whole rc scopes) page.old texts.old indent.old ent.old)
        (world (whole result scopes) page.new texts.new indent.new ent.new)
        (each_rule s.now b.now (world (whole rc scopes) page.old texts.old indent.old ent.old) d at p v) }
{
    let first = blocks::open_each(b, front, at, v);
    let names = scope::names_of(b, ent, first);
    let mut c = first;
    let mut q = state::deeper(rc, names);
    let mut turn = turns::first_turn(s, tab, b, ent, v);
    let mut k: usize = 0;
    loop {
        let Some(now) = turn else {
            return state::pop_block(q, rc);
        };
        c = blocks::turn_scope(
            scope::with_count(c, q.count),
            now.item,
            now.key,
            k,
            now.object,
            now.last,
        );
        q = state::set_current_template_name(q, 0);
        q = render_elements(
            s, tab, b, index, ent, page, texts, indent, scopes, c, options, p, d, 0, q,
        );
        if q.bad.is_some() {
            return q;
        }
        k += 1;
        turn = turns::next_turn(s, tab, b, ent, v, k, turn);
    }
}

// A partial without a body of its own: its call at p, its own indent at the place `at`.
#[cycle(rendering)]
fn render_partial(
    s: &[u8],
    tab: &[u64],
    b: &[u8],
    index: &[u32],
    ent: &mut [u64],
    page: &mut [u8],
    texts: &mut [u8],
    indent: &mut [u8],
    scopes: [Scope; 32],
    front: Scope,
    options: Options,
    p: usize,
    at: Option<usize>,
    before: bool,
    d: usize,
    rc: RenderContext,
) -> RenderContext
    requires { Checked s.now tab.now b.now index.now
        × Ready s.now b.now (world (whole rc scopes) page.old texts.old indent.old ent.old)
        × (d < 16)
        × Holds (call_of (param d)) (bits b.now) p
        × MaybeHolds string (bits b.now) at
        × Front scopes rc front }
    ensures { Renders s.now b.now options
        (world (whole rc scopes) page.old texts.old indent.old ent.old)
        (world (whole result scopes) page.new texts.new indent.new ent.new)
        (partial_rule b.now d p None at before) }
{
    let begun = beginning::begin(
        s, tab, b, index, ent, page, texts, indent, scopes, front, options, p, None, at, before, d,
        rc,
    );
    let next = begun.next;
    let top = begun.top;
    let mut q = begun.rc;
    if let beginning::Next::Body(t, e, name) = next {
        q = render_elements(
            s, tab, b, index, ent, page, texts, indent, scopes, top, options, t, e, name, q,
        );
        q = texts::finish_partial(q, rc);
    }
    q
}

// The same with a body of its own. (A function of its own, so that `beginning::begin` is called from two places: what is called from one is made a part
// of its caller, and its locals would lie on the stack as often as partials are nested.)
#[cycle(rendering)]
fn render_partial_block(
    s: &[u8],
    tab: &[u64],
    b: &[u8],
    index: &[u32],
    ent: &mut [u64],
    page: &mut [u8],
    texts: &mut [u8],
    indent: &mut [u8],
    scopes: [Scope; 32],
    front: Scope,
    options: Options,
    p: usize,
    own: usize,
    at: Option<usize>,
    before: bool,
    d: usize,
    rc: RenderContext,
) -> RenderContext
    requires { Checked s.now tab.now b.now index.now
        × Ready s.now b.now (world (whole rc scopes) page.old texts.old indent.old ent.old)
        × (d < 16)
        × Holds (call_of (param d)) (bits b.now) p
        × Holds (body 16 d) (bits b.now) own
        × MaybeHolds string (bits b.now) at
        × Front scopes rc front }
    ensures { Renders s.now b.now options
        (world (whole rc scopes) page.old texts.old indent.old ent.old)
        (world (whole result scopes) page.new texts.new indent.new ent.new)
        (partial_rule b.now d p (Some own) at before) }
{
    let begun = beginning::begin(
        s,
        tab,
        b,
        index,
        ent,
        page,
        texts,
        indent,
        scopes,
        front,
        options,
        p,
        Some(own),
        at,
        before,
        d,
        rc,
    );
    let next = begun.next;
    let top = begun.top;
    let mut q = begun.rc;
    match next {
        beginning::Next::Done => {}
        beginning::Next::Fallback(t) => {
            q = render_elements(
                s, tab, b, index, ent, page, texts, indent, scopes, top, options, t, d, 0, q,
            );
            q = state::finish_named(q, rc.template, rc.writer);
        }
        beginning::Next::Body(t, e, name) => {
            q = render_elements(
                s, tab, b, index, ent, page, texts, indent, scopes, top, options, t, e, name, q,
            );
            q = texts::finish_partial(q, rc);
        }
        beginning::Next::Text(o, t, e, name) => {
            q = render_text(
                s, tab, b, index, ent, page, texts, indent, scopes, top, options, o, t, e, name,
                at, d, q, rc,
            );
        }
    }
    q
}

// The body of a partial's block text at o is drawn first, then its body at p; around is the context in front of the element.
#[cycle(rendering)]
fn render_text(
    s: &[u8],
    tab: &[u64],
    b: &[u8],
    index: &[u32],
    ent: &mut [u64],
    page: &mut [u8],
    texts: &mut [u8],
    indent: &mut [u8],
    scopes: [Scope; 32],
    top: Scope,
    options: Options,
    o: usize,
    p: usize,
    e: usize,
    name: usize,
    at: Option<usize>,
    d: usize,
    rc: RenderContext,
    around: RenderContext,
) -> RenderContext
    requires { Checked s.now tab.now b.now index.now
        × Ready s.now b.now (world (topped rc scopes top) page.old texts.old indent.old ent.old)
        × (d < 16)
        × TextReady s.now b.now options (world (topped rc scopes top) page.old texts.old indent.old ent.old) scopes around d o p e name at
        × (top.count ≡ rc.count) }
    ensures { TextDrawn s.now b.now options
        (world (topped rc scopes top) page.old texts.old indent.old ent.old)
        (world (whole result scopes) page.new texts.new indent.new ent.new)
        scopes around d o p e name at }
{
    let q = render_elements(
        s, tab, b, index, ent, page, texts, indent, scopes, top, options, o, d, 0, rc,
    );
    if q.bad.is_some() {
        return q;
    }
    let w = around.writer;
    let c = texts::with_text(scope::with_count(top, q.count), q.writer.low - w.low);
    let u = beginning::end_text(texts, indent, b, at, name, w.low, w.block_text, q);
    texts::finish_partial(
        render_elements(
            s, tab, b, index, ent, page, texts, indent, scopes, c, options, p, e, name, u,
        ),
        around,
    )
}

// A template of the bundle from the start: its name stands at the place name and its body at p.
pub fn render_template(
    s: &[u8],
    tab: &[u64],
    b: &[u8],
    index: &[u32],
    ent: &mut [u64],
    page: &mut [u8],
    texts: &mut [u8],
    indent: &mut [u8],
    options: Options,
    name: usize,
    p: usize,
) -> RenderContext
    requires { Checked s.now tab.now b.now index.now
        × (8192 ≤ length ent.old)
        × (16384 ≤ length texts.old)
        × (256 ≤ length indent.old)
        × Holds string (bits b.now) name
        × Holds (body 16 16) (bits b.now) p }
    ensures { Draws s.now b.now
        (world fresh page.old texts.old indent.old ent.old)
        (world (whole result (replicate 32 blank)) page.new texts.new indent.new ent.new)
        (rule.render_template
        (registry_of s.now b.now options (length page.old))
        32
        (some (text_at (bits b.now) name))
        (template_at 16 16 (bits b.now) p)
        (rules-fresh (paper_limits (length page.old)))) }
{
    let rc = state::set_current_template_name(state::new(), name + 1);
    let scopes = scope::begin();
    let first = scopes[0];
    render_elements(
        s,
        tab,
        b,
        index,
        ent,
        page,
        texts,
        indent,
        scopes,
        first,
        options,
        p,
        16,
        name + 1,
        rc,
    )
}
