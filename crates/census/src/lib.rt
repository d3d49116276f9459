// A small client of the readers: how many elements of a kind a bundle has, in all bodies at every depth.
// It goes through the bundle as the renderer does, body by body, and is proved equal to the same count over the decoded templates.
#![tactic(auto)]

ghost use Rattle.std.specs.Prelude.{◌≡◌, ◌≤◌, ◌<◌, length};
ghost use Rattle.rules.specs.Bits.{bits};
ghost use Rattle.rules.specs.Bundle.{body, bundle};
ghost use Rattle.layout.specs.Verdict.{verdict};
ghost use Rattle.parts.specs.Holds.{Holds};
ghost use Rattle.parts.specs.Says.{MaybeHolds};
ghost use Rattle.template.specs.Views.{template_at, body_says, element_says, ElementHolds};
ghost use Rattle.census.specs.Count.{bump, count_body, count_maybe, count_element, count_bundle};

use template::Element;

// The count n, one more where an element of kind k is met. It stops at 65,535; a bundle has no room for so many.
fn bump(kind: u64, k: u64, n: u64) -> u64
    ensures { result ≡ bump kind k n }
{
    if k != kind {
        return n;
    }
    if 65535 <= n {
        return n;
    }
    n + 1
}

// The elements of the body at p, whose own depth d counts, on top of n.
#[cycle(counting)]
fn count_body(b: &[u8], p: usize, w: usize, d: usize, kind: u64, n: u64) -> u64
    requires { (length b.now ≤ 65536) × (w ≤ 64) × Holds (body w d) (bits b.now) p }
    ensures { result ≡ count_body kind (template_at w d (bits b.now) p) n }
{
    let v = template::body_at(b, p);
    let count = v.count;
    let mut sum = n;
    let mut cur = v.first;
    for _ in 0..count {
        let e = template::element_at(b, cur, w, d - 1);
        let element = e.element;
        sum = count_element(b, element, w, d - 1, kind, sum);
        cur = e.next;
    }
    sum
}

#[cycle(counting)]
fn count_maybe(b: &[u8], m: Option<usize>, w: usize, d: usize, kind: u64, n: u64) -> u64
    requires { (length b.now ≤ 65536) × (w ≤ 64) × MaybeHolds (body w d) (bits b.now) m }
    ensures { result ≡ count_maybe kind (body_says w d (bits b.now) m) n }
{
    let Some(p) = m else {
        return n;
    };
    count_body(b, p, w, d, kind, n)
}

// An element and what stands in it.
#[cycle(counting)]
fn count_element(b: &[u8], e: Element, w: usize, d: usize, kind: u64, n: u64) -> u64
    requires { (length b.now ≤ 65536) × (w ≤ 64) × ElementHolds w d (bits b.now) e }
    ensures { result ≡ count_element kind (element_says w d (bits b.now) e) n }
{
    match e {
        Element::RawString(_) => bump(kind, 0, n),
        Element::HtmlExpression(_, _) => bump(kind, 1, n),
        Element::Expression(_, _) => bump(kind, 2, n),
        Element::HelperBlock(_, _, template, inverse, _) => {
            let m = count_maybe(b, template, w, d, kind, bump(kind, 3, n));
            count_maybe(b, inverse, w, d, kind, m)
        }
        Element::DecoratorExpression(_, _, _) => bump(kind, 4, n),
        Element::DecoratorBlock(_, p, _, _) => count_body(b, p, w, d, kind, bump(kind, 5, n)),
        Element::PartialExpression(_, _, _) => bump(kind, 6, n),
        Element::PartialBlock(_, p, _, _) => count_body(b, p, w, d, kind, bump(kind, 7, n)),
        Element::Comment(_) => bump(kind, 8, n),
    }
}

// How many elements of a kind, 0 to 8, a bundle has that `layout::check_bundle` accepts.
pub fn count(b: &[u8], kind: u64) -> u64
    requires { verdict b.now ≡ Ok tt }
    ensures { result ≡ count_bundle kind (bundle b.now) }
{
    let n = registry::template_count(b);
    let mut sum: u64 = 0;
    let mut cur: usize = 16;
    for _ in 0..n {
        let p = parts::skip_string(b, cur);
        sum = count_body(b, p, 16, 16, kind, sum);
        cur = template::skip_body(b, p, 16, 16);
    }
    sum
}
