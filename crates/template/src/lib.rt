// Readers of the bodies and elements of an accepted bundle. Nothing is built and nothing is checked again: an answer holds places.
// A reader requires that what it reads stands at its place (`Holds`); specs/Bodies says what stands where, and what the answers say.
// w is the width of line and column, d the number of depths left for what stands in an element.
#![tactic(auto)]

ghost use Rattle.std.specs.Prelude.{◌≡◌, ◌≤◌, length};
ghost use Rattle.rules.specs.Bits.{bits};
ghost use Rattle.rules.specs.Layout.{◌then◌};
ghost use Rattle.rules.specs.Bundle.{flag, block_names, indent, param, call_of, maybe_body, element_of, body};
ghost use Rattle.parts.specs.Holds.{Holds, end};
ghost use Rattle.template.specs.Views.{flag_at, flagged_view, tail_view, bodied_view, block_view, content_of, content_view, in_body, element_view, body_view};

// Where the content of an element stands: its call, block names, bodies and indent, and the `indent_before_write` bit.
#[derive(Clone, Copy)]
pub enum Element {
    // the string
    RawString(usize),
    HtmlExpression(usize, bool),
    Expression(usize, bool),
    // call, block names, template, inverse
    HelperBlock(usize, usize, Option<usize>, Option<usize>, bool),
    // call, indent
    DecoratorExpression(usize, Option<usize>, bool),
    // call, body, indent
    DecoratorBlock(usize, usize, Option<usize>, bool),
    PartialExpression(usize, Option<usize>, bool),
    PartialBlock(usize, usize, Option<usize>, bool),
    // the string
    Comment(usize),
}

// An element with its line and column, and the place behind it.
#[derive(Clone, Copy)]
pub struct ElementAt {
    pub line: u64,
    pub column: u64,
    pub element: Element,
    pub next: usize,
}

// A body: how many elements, and the first.
#[derive(Clone, Copy)]
pub struct Body {
    pub count: u64,
    pub first: usize,
}

// An element without its line and column, and the place behind it.
#[derive(Clone, Copy)]
pub struct Content {
    pub element: Element,
    pub next: usize,
}

// Behind a call, or a call and bodies: the `indent_before_write` bit, and the place behind it.
#[derive(Clone, Copy)]
struct Flagged {
    before: bool,
    next: usize,
}

#[derive(Clone, Copy)]
struct Tail {
    indent: Option<usize>,
    before: bool,
    next: usize,
}

#[derive(Clone, Copy)]
struct Bodied {
    body: usize,
    indent: Option<usize>,
    before: bool,
    next: usize,
}

#[derive(Clone, Copy)]
struct Block {
    names: usize,
    template: Option<usize>,
    inverse: Option<usize>,
    before: bool,
    next: usize,
}

fn flag_at(b: &[u8], p: usize) -> bool
    ensures { result ≡ flag_at (bits b.now) p }
{
    bits::field(b, p, 1) == 1
}

// The place behind the call at p. Those of blocks are most often a name, which is a string, and a path.
fn skip_with_path(b: &[u8], p: usize, d: usize) -> usize
    requires { (length b.now ≤ 65536) × Holds (call_of (param d)) (bits b.now) p }
    ensures { result ≡ end (call_of (param d)) (bits b.now) p }
{
    // the name's kind, and the count of its string
    let x = bits::field(b, p, 18);
    if 65535 < x {
        return calls::skip_call(b, p, d);
    }
    let q = p + 18 + 8 * (x as usize);
    // the count of parameters, and the first one's kind: 1 and 1
    if bits::field(b, q, 6) == 5 {
        let e = parts::skip_path(b, q + 6);
        if bits::field(b, e, 4) == 0 {
            return e + 4;
        }
    }
    calls::skip_call(b, p, d)
}

// The same. Those of partials are most often a name alone, or a name and one pair.
fn skip_bare(b: &[u8], p: usize, d: usize) -> usize
    requires { (length b.now ≤ 65536) × Holds (call_of (param d)) (bits b.now) p }
    ensures { result ≡ end (call_of (param d)) (bits b.now) p }
{
    let x = bits::field(b, p, 18);
    if 65535 < x {
        return calls::skip_call(b, p, d);
    }
    let q = p + 18 + 8 * (x as usize);
    // the counts of parameters and of pairs
    let y = bits::field(b, q, 8);
    if y == 0 {
        return q + 8;
    }
    if y == 1 {
        return calls::skip_param(b, parts::skip_string(b, q + 8), d);
    }
    calls::skip_call(b, p, d)
}

// A call, and a bit.
fn flagged_at(b: &[u8], p: usize, d: usize) -> Flagged
    requires { (length b.now ≤ 65536) × Holds (call_of (param d) then flag) (bits b.now) p }
    ensures { result ≡ flagged_view d (bits b.now) p }
{
    let f = calls::skip_call(b, p, d);
    Flagged {
        before: flag_at(b, f),
        next: f + 1,
    }
}

// An indent, and a bit.
fn tail_at(b: &[u8], p: usize) -> Tail
    requires { (length b.now ≤ 65536) × Holds (indent then flag) (bits b.now) p }
    ensures { result ≡ tail_view (bits b.now) p }
{
    // whether there is an indent, and where there is none the last bit
    let y = bits::field(b, p, 2);
    if y < 2 {
        return Tail {
            indent: None,
            before: y == 1,
            next: p + 2,
        };
    }
    let f = parts::skip_string(b, p + 1);
    Tail {
        indent: Some(p + 1),
        before: flag_at(b, f),
        next: f + 1,
    }
}

// A call, an indent, and a bit.
fn bodiless_at(b: &[u8], p: usize, d: usize) -> Tail
    requires { (length b.now ≤ 65536) × Holds (call_of (param d) then indent then flag) (bits b.now) p }
    ensures { result ≡ tail_view (bits b.now) (end (call_of (param d)) (bits b.now) p) }
{
    tail_at(b, skip_bare(b, p, d))
}

// A call, a body, an indent, and a bit.
fn bodied_at(b: &[u8], p: usize, w: usize, d: usize) -> Bodied
    requires { (length b.now ≤ 65536) × Holds (call_of (param d) then body w d then indent then flag) (bits b.now) p }
    ensures { result ≡ bodied_view w d (bits b.now) p }
{
    let body = calls::skip_call(b, p, d);
    let t = tail_at(b, skip_body(b, body, w, d));
    let indent = t.indent;
    Bodied {
        body,
        indent,
        before: t.before,
        next: t.next,
    }
}

// A call, block names, two bodies that may be there, and a bit.
fn block_at(b: &[u8], p: usize, w: usize, d: usize) -> Block
    requires { (length b.now ≤ 65536) × Holds (call_of (param d) then block_names then maybe_body (body w d) then maybe_body (body w d) then flag) (bits b.now) p }
    ensures { result ≡ block_view w d (bits b.now) p }
{
    let names = skip_with_path(b, p, d);
    // most have no names, and a template
    if bits::field(b, names, 3) == 1 {
        let other = skip_body(b, names + 3, w, d);
        // whether there is an inverse, and where there is none the last bit
        let y = bits::field(b, other, 2);
        if y < 2 {
            return Block {
                names,
                template: Some(names + 3),
                inverse: None,
                before: y == 1,
                next: other + 2,
            };
        }
        let g = skip_body(b, other + 1, w, d);
        return Block {
            names,
            template: Some(names + 3),
            inverse: Some(other + 1),
            before: flag_at(b, g),
            next: g + 1,
        };
    }
    let template = parts::skip_block_names(b, names);
    let inverse = skip_maybe(b, template, w, d);
    let f = skip_maybe(b, inverse, w, d);
    Block {
        names,
        template: parts::maybe_at(b, template),
        inverse: parts::maybe_at(b, inverse),
        before: flag_at(b, f),
        next: f + 1,
    }
}

// The place behind the bit at p, and behind the body if it is 1.
#[cycle(skipping)]
fn skip_maybe(b: &[u8], p: usize, w: usize, d: usize) -> usize
    requires { (length b.now ≤ 65536) × Holds (maybe_body (body w d)) (bits b.now) p }
    ensures { result ≡ end (maybe_body (body w d)) (bits b.now) p }
{
    let k = bits::field(b, p, 1);
    let q = p + 1;
    if k == 0 {
        return q;
    }
    skip_body(b, q, w, d)
}

// The place behind the content whose kind stands at p.
#[cycle(skipping)]
fn skip_content(b: &[u8], p: usize, w: usize, d: usize) -> usize
    requires { (length b.now ≤ 65536) × Holds (element_of (call_of (param d)) (body w d)) (bits b.now) p }
    ensures { result ≡ end (element_of (call_of (param d)) (body w d)) (bits b.now) p }
{
    let k = bits::field(b, p, 4);
    let q = p + 4;
    // 0 and 8 hold a string, every other kind a call
    if k % 8 == 0 {
        return parts::skip_string(b, q);
    }
    let f = calls::skip_call(b, q, d);
    if k < 3 {
        return f + 1;
    }
    if k == 3 {
        let template = parts::skip_block_names(b, f);
        let inverse = skip_maybe(b, template, w, d);
        return skip_maybe(b, inverse, w, d) + 1;
    }
    // 4 and 6 have no body
    if k % 2 == 0 {
        return parts::skip_indent(b, f) + 1;
    }
    parts::skip_indent(b, skip_body(b, f, w, d)) + 1
}

// The element whose kind stands at p, behind its line and column.
pub fn content_at(b: &[u8], p: usize, w: usize, d: usize) -> Content
    requires { (length b.now ≤ 65536) × Holds (element_of (call_of (param d)) (body w d)) (bits b.now) p }
    ensures { result ≡ content_view w d (bits b.now) p }
{
    let k = bits::field(b, p, 4);
    let q = p + 4;
    match k {
        0 => found(Element::RawString(q), parts::skip_string(b, q)),
        1 => {
            let r = flagged_at(b, q, d);
            found(Element::HtmlExpression(q, r.before), r.next)
        }
        2 => {
            let r = flagged_at(b, q, d);
            found(Element::Expression(q, r.before), r.next)
        }
        3 => {
            let r = block_at(b, q, w, d);
            let template = r.template;
            let inverse = r.inverse;
            found(
                Element::HelperBlock(q, r.names, template, inverse, r.before),
                r.next,
            )
        }
        4 => {
            let r = bodiless_at(b, q, d);
            let indent = r.indent;
            found(Element::DecoratorExpression(q, indent, r.before), r.next)
        }
        5 => {
            let r = bodied_at(b, q, w, d);
            let indent = r.indent;
            found(Element::DecoratorBlock(q, r.body, indent, r.before), r.next)
        }
        6 => {
            // the most frequent of those with a tail: read here, for a tail that is handed back goes through memory
            let e = skip_bare(b, q, d);
            let y = bits::field(b, e, 2);
            if y < 2 {
                return found(Element::PartialExpression(q, None, y == 1), e + 2);
            }
            let f = parts::skip_string(b, e + 1);
            found(
                Element::PartialExpression(q, Some(e + 1), flag_at(b, f)),
                f + 1,
            )
        }
        7 => {
            let r = bodied_at(b, q, w, d);
            let indent = r.indent;
            found(Element::PartialBlock(q, r.body, indent, r.before), r.next)
        }
        _ => found(Element::Comment(q), parts::skip_string(b, q)),
    }
}

fn found(element: Element, next: usize) -> Content
    ensures { result ≡ content_of element next }
{
    Content { element, next }
}

// The place behind the body at p, whose own depth d counts.
#[cycle(skipping)]
pub fn skip_body(b: &[u8], p: usize, w: usize, d: usize) -> usize
    requires { (length b.now ≤ 65536) × Holds (body w d) (bits b.now) p }
    ensures { result ≡ end (body w d) (bits b.now) p }
{
    let n = bits::field(b, p, 12);
    let mut cur = p + 12;
    for _ in 0..n {
        cur = skip_content(b, cur + w + w, w, d - 1);
    }
    cur
}

// The element whose line stands at p.
pub fn element_at(b: &[u8], p: usize, w: usize, d: usize) -> ElementAt
    requires { (length b.now ≤ 65536) × (w ≤ 64) × Holds (in_body w d) (bits b.now) p }
    ensures { result ≡ element_view w d (bits b.now) p }
{
    let c = content_at(b, p + w + w, w, d);
    let element = c.element;
    ElementAt {
        line: bits::field(b, p, w),
        column: bits::field(b, p + w, w),
        element,
        next: c.next,
    }
}

pub fn body_at(b: &[u8], p: usize) -> Body
    requires { p ≤ 524288 }
    ensures { result ≡ body_view (bits b.now) p }
{
    Body {
        count: bits::field(b, p, 12),
        first: p + 12,
    }
}
