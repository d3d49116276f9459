// render.rs: `Expression` and `HtmlExpression`. An expression draws no body, so these are leaves of the drawing.
// s is the plan with its places tab, b the bundle; ent holds the entries of open partials, indent the indent in force; d is the number of depths left
// for the call.
#![tactic(auto)]

ghost use Rattle.std.specs.Prelude.{List, ◌≡◌, ℕ, ◌≤◌, length};
ghost use Rattle.rules.specs.Bits.{bits};
ghost use Rattle.rules.specs.Bundle.{param, call_of};
ghost use Rattle.rules.specs.Render.{render_expression, render_html_expression};
ghost use Rattle.parts.specs.Holds.{Holds};
ghost use Rattle.calls.specs.Calls.{call_at};
ghost use Rattle.places.specs.Accepted.{Accepted};
ghost use Rattle.state.specs.World.{world, Ready};
ghost use Rattle.drawing.specs.Renders.{Renders};
ghost use Rattle.scope.specs.declared.Scope.{Scope};
ghost use Rattle.state.specs.Context.{whole, Current};
ghost use Rattle.expressions.specs.Bare.{bare_rule, Printable, BareDrawn};

use expand::Options;
use helpers::{Does, Shows};
use scope::Scope;
use state::RenderContext;

// What a helper without bodies was found to do.
fn draw_bare(
    s: &[u8],
    tab: &[u64],
    b: &[u8],
    page: &mut [u8],
    texts: &mut [u8],
    indent: &[u8],
    does: Does,
    rc: RenderContext,
) -> RenderContext
    requires { Accepted s.now tab.now × (length b.now ≤ 65536) × Printable s.now b.now does }
    ensures { (l : List Scope)
        → BareDrawn s.now b.now (whole rc l) (whole result l) page.old texts.old
        indent.now page.new texts.new does }
{
    match does {
        Does::Bad(n) => state::failed(rc, Some(n)),
        Does::Write(v) => writing::value(page, texts, indent, s, tab, b, v, rc),
        _ => rc,
    }
}

// The helper of the call at p, without bodies.
fn render_bare(
    s: &[u8],
    tab: &[u64],
    b: &[u8],
    ent: &[u64],
    page: &mut [u8],
    texts: &mut [u8],
    indent: &[u8],
    scopes: [Scope; 32],
    options: Options,
    p: usize,
    before: bool,
    d: usize,
    rc: RenderContext,
) -> RenderContext
    requires { Accepted s.now tab.now
        × (length b.now ≤ 65536)
        × Ready s.now b.now (world (whole rc scopes) page.old texts.old indent.now ent.now)
        × Holds (call_of (param d)) (bits b.now) p
        × Current scopes rc }
    ensures { Renders s.now b.now options
        (world (whole rc scopes) page.old texts.old indent.now ent.now)
        (world (whole result scopes) page.new texts.new indent.now ent.now)
        (bare_rule b.now d p before) }
{
    let none = None;
    let w = expand::try_from_template(s, tab, b, ent, scopes, rc.used, options, p, d);
    let does = helping::decide(s, tab, b, ent, rc.used, options, w, none, none);
    let q = helping::begin_helper(rc, before);
    let marks = rc.writer;
    let u = draw_bare(s, tab, b, page, texts, indent, does, q);
    state::finish(u, marks)
}

// `Expression`: the expression with the call at p.
pub fn render_expression(
    s: &[u8],
    tab: &[u64],
    b: &[u8],
    ent: &[u64],
    page: &mut [u8],
    texts: &mut [u8],
    indent: &[u8],
    scopes: [Scope; 32],
    options: Options,
    p: usize,
    before: bool,
    d: usize,
    rc: RenderContext,
) -> RenderContext
    requires { Accepted s.now tab.now
        × (length b.now ≤ 65536)
        × Ready s.now b.now (world (whole rc scopes) page.old texts.old indent.now ent.now)
        × Holds (call_of (param d)) (bits b.now) p
        × Current scopes rc }
    ensures { Renders s.now b.now options
        (world (whole rc scopes) page.old texts.old indent.now ent.now)
        (world (whole result scopes) page.new texts.new indent.now ent.now)
        (λ g R. render_expression g (call_at d (bits b.now) p) before) }
{
    let shows = helpers::expression(s, tab, b, ent, scopes, rc.used, options, p, d);
    match shows {
        Shows::Bad(n) => state::failed(rc, Some(n)),
        Shows::Helper => render_bare(
            s, tab, b, ent, page, texts, indent, scopes, options, p, before, d, rc,
        ),
        Shows::Value(v) => writing::value(page, texts, indent, s, tab, b, v, rc),
        Shows::Nothing => rc,
    }
}

// `HtmlExpression`: the same without escaping. The Rust sets `disable_escape` and clears it, whatever it was.
pub fn render_html_expression(
    s: &[u8],
    tab: &[u64],
    b: &[u8],
    ent: &[u64],
    page: &mut [u8],
    texts: &mut [u8],
    indent: &[u8],
    scopes: [Scope; 32],
    options: Options,
    p: usize,
    before: bool,
    d: usize,
    rc: RenderContext,
) -> RenderContext
    requires { Accepted s.now tab.now
        × (length b.now ≤ 65536)
        × Ready s.now b.now (world (whole rc scopes) page.old texts.old indent.now ent.now)
        × Holds (call_of (param d)) (bits b.now) p
        × Current scopes rc }
    ensures { Renders s.now b.now options
        (world (whole rc scopes) page.old texts.old indent.now ent.now)
        (world (whole result scopes) page.new texts.new indent.now ent.now)
        (λ g R. render_html_expression g (call_at d (bits b.now) p) before) }
{
    let q = state::set_disable_escape(rc, true);
    let u = render_expression(
        s, tab, b, ent, page, texts, indent, scopes, options, p, before, d, q,
    );
    if u.bad.is_some() {
        return u;
    }
    state::set_disable_escape(u, false)
}
