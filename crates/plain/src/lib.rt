// render.rs and helpers/helper_lookup.rs: of the elements of a body, the raw texts, the expressions that are a path alone, and those that are `lookup` over a path and a
// literal or another path. Most elements are such, and only the writer changes from one to the next: what one shows is told by numbers and by the front scope alone, and
// a text that is stored at once moves the writer on where it stands.
// s is the plan with its places tab, b the bundle; ent holds the entries of open partials; front is the newest scope, and the block names of all are in the set names;
// d is the number of depths left for what stands in an element.
#![tactic(auto)]

ghost use Rattle.std.specs.Prelude.{true, List, ◌≡◌, ℕ, ◌+◌, ◌-◌, ◌*◌, ◌^◌, ◌≤◌, ◌<◌, length};
ghost use Rattle.rules.specs.Bytes.{Bytes, pick};
ghost use Rattle.rules.specs.Bits.{bits};
ghost use Rattle.rules.specs.Layout.{field};
ghost use Rattle.rules.specs.Value.{render};
ghost use Rattle.rules.specs.Bundle.{path, literal, param, call_of, element_of, body};
ghost use Rattle.bits.specs.Packed.{bytes_at};
ghost use Rattle.output.specs.Outputs.{outputs};
ghost use Rattle.support.specs.Feed.{escaped, fed};
ghost use Rattle.direct.specs.Direct.{plain as is_calm, set_short};
ghost use Rattle.parts.specs.Holds.{Holds, end};
ghost use Rattle.places.specs.Accepted.{Accepted};
ghost use Rattle.value.specs.Numbers.{decoded};
ghost use Rattle.meaning.specs.Forms.{Known};
ghost use Rattle.meaning.specs.Means.{Means};
ghost use Rattle.context.specs.Start.{NearFront};
ghost use Rattle.state.specs.Context.{whole, Front};
ghost use Rattle.state.specs.World.{world, Ready};
ghost use Rattle.plain.specs.Plain.{PlainIs, ShownIs, LookupAt, OneDrawn};
ghost use Rattle.plain.specs.Looked.{second_view, lookup_view, SecondHolds, Led, KeyedPaths, KeyedLiteral, found_view, LookupShown};
ghost use Rattle.plain.specs.Put.{Put, PutPlain, PutNumber};
ghost use Rattle.plain.specs.Drawn.{HelperWrote};

use calls::Parameter;
use error::RenderErrorReason;
use expand::{HelperDef, Options};
use output::Writer;
use scope::Scope;
use state::RenderContext;

// What an element is, as far as few reads tell.
#[derive(Clone, Copy)]
enum Plain {
    // a raw text of so many bytes
    Text(usize),
    // an expression that is a path alone: whether it is not escaped, the path, and the place behind the element
    Path(bool, usize, usize),
    // any other expression: whether it is not escaped
    Call(bool),
    Other,
}

// The place behind the path at p. (Where a function passes its slice to a call, the compiler stores the slice on the stack when the function begins. This one
// stands between, so that only the few paths that come here pay for that.)
fn far_end(b: &[u8], p: usize) -> usize
    requires { (length b.now ≤ 65536) × Holds path (bits b.now) p }
    ensures { result ≡ end path (bits b.now) p }
{
    parts::skip_path(b, p)
}

// The same, where its raw string is known to have m bytes.
fn path_end(b: &[u8], p: usize, m: usize) -> usize
    requires { (length b.now ≤ 65536) × Holds path (bits b.now) p × (m ≡ field (bits b.now) 16 p) }
    ensures { result ≡ end path (bits b.now) p }
{
    let q = p + 16 + 8 * m;
    // the local bit, the count or the level, and behind them a first segment's kind and count, or the count of a local value's name
    let y = bits::field(b, q, 27);
    // one segment, which is a name
    if y / 65536 == 4 {
        return q + 27 + 8 * ((y % 65536) as usize);
    }
    // a local value
    if 67108864 <= y {
        return q + 25 + 8 * ((y / 4 % 65536) as usize);
    }
    far_end(b, p)
}

// The element whose kind stands at p.
fn plain_at(b: &[u8], p: usize, d: usize) -> Plain
    requires { (length b.now ≤ 65536)
        × Holds (element_of (call_of (param d)) (body 16 d)) (bits b.now) p }
    ensures { PlainIs d (bits b.now) p result }
{
    // the kind, and behind it the count of a raw text, or a name's kind and the count of the string that a path begins with
    let x = bits::field(b, p, 22);
    let kind = x / 262144;
    if kind == 0 {
        return Plain::Text((x / 4) as usize);
    }
    // 1 and 2 are expressions, without escaping and with it
    if 2 < kind {
        return Plain::Other;
    }
    // a path
    if x / 65536 % 4 == 1 {
        let v = p + 6;
        let e = path_end(b, v, (x % 65536) as usize);
        // the counts of parameters and pairs, and the bit behind the call
        if bits::field(b, e, 9) <= 1 {
            return Plain::Path(kind == 1, v, e + 9);
        }
    }
    Plain::Call(kind == 1)
}

// What an element shows, if that is told at once.
#[derive(Clone, Copy)]
pub enum Shown {
    // a raw text of so many bytes
    Text(usize),
    // an expression: the number of its value, whether that is not escaped, and the place behind the element
    Value(u32, bool, usize),
    // a lookup: the number of the value that was found, whether that is not escaped, the `indent_before_write` bit, and the place behind the element
    Lookup(u32, bool, bool, usize),
    // an expression that writes nothing, and the place behind it
    Nothing(usize),
    // why it is refused
    Bad(RenderErrorReason),
    Other,
}

// A call of `lookup` over two parameters, with no hash: where the parameters stand, the bit behind the call, and the place behind that.
#[derive(Clone, Copy)]
enum Lookup {
    // two paths
    Paths(usize, usize, bool, usize),
    // a path and a literal
    Literal(usize, usize, bool, usize),
    Other,
}

// The path at v is followed by one parameter more.
fn second_at(b: &[u8], v: usize, d: usize) -> Lookup
    requires { (length b.now ≤ 65536) × SecondHolds d (bits b.now) v }
    ensures { result ≡ second_view (bits b.now) v }
{
    let e = parts::skip_path(b, v);
    let second = calls::param_at(b, e);
    match second {
        Parameter::Path(k) => {
            let f = parts::skip_path(b, k);
            // no pairs, and the last bit
            let z = bits::field(b, f, 5);
            if 1 < z {
                return Lookup::Other;
            }
            Lookup::Paths(v, k, z == 1, f + 5)
        }
        Parameter::Literal(k) => {
            let f = parts::skip_literal(b, k);
            let z = bits::field(b, f, 5);
            if 1 < z {
                return Lookup::Other;
            }
            Lookup::Literal(v, k, z == 1, f + 5)
        }
        Parameter::Name(_) => Lookup::Other,
        Parameter::Subexpression(_) => Lookup::Other,
    }
}

// The call at p.
fn lookup_at(b: &[u8], p: usize, d: usize) -> Lookup
    requires { (length b.now ≤ 65536) × Holds (call_of (param d)) (bits b.now) p }
    ensures { result ≡ lookup_view (bits b.now) p }
{
    let Parameter::Name(n) = calls::param_at(b, p) else {
        return Lookup::Other;
    };
    let HelperDef::Lookup = expand::helper_at(b, n) else {
        return Lookup::Other;
    };
    // behind the name comes the count of parameters
    let q = parts::skip_string(b, n);
    if bits::field(b, q, 4) != 2 {
        return Lookup::Other;
    }
    let Parameter::Path(v) = calls::param_at(b, q + 4) else {
        return Lookup::Other;
    };
    second_at(b, v, d)
}

// What the path at v leads to: one more than the value's number. 0 where the path is refused, or the front does not tell.
fn led(
    s: &[u8],
    tab: &[u64],
    b: &[u8],
    ent: &[u64],
    front: Scope,
    names: u64,
    options: Options,
    v: usize,
) -> u64
    requires { Accepted s.now tab.now
        × (length b.now ≤ 65536)
        × NearFront s.now b.now ent.now front names
        × Holds path (bits b.now) v }
    ensures { Led s.now b.now ent.now front names options v result }
{
    let r = context::evaluate_near(s, tab, b, ent, front, names, options.recursive_lookup, v);
    if r == context::FAR {
        return 0;
    }
    r
}

// What the value that the path at v leads to has under that of the path at k: 0 where it is not told, 1 for nothing, else two more than a value's number.
fn keyed_paths(
    s: &[u8],
    tab: &[u64],
    b: &[u8],
    ent: &[u64],
    front: Scope,
    names: u64,
    options: Options,
    v: usize,
    k: usize,
) -> u64
    requires { Accepted s.now tab.now
        × (length b.now ≤ 65536)
        × NearFront s.now b.now ent.now front names
        × Holds path (bits b.now) v
        × Holds path (bits b.now) k }
    ensures { KeyedPaths s.now b.now ent.now front names options v k result }
{
    let found = led(s, tab, b, ent, front, names, options, v);
    if found == 0 {
        return 0;
    }
    let key = led(s, tab, b, ent, front, names, options, k);
    if key == 0 {
        return 0;
    }
    let of = value::decode((found - 1) as u32);
    let under = value::decode((key - 1) as u32);
    match lookup::looked_up(s, tab, b, ent, of, under) {
        Some(w) => 2 + (value::encode(w) as u64),
        None => 1,
    }
}

// The same under the literal at k.
fn keyed_literal(
    s: &[u8],
    tab: &[u64],
    b: &[u8],
    ent: &[u64],
    front: Scope,
    names: u64,
    options: Options,
    v: usize,
    k: usize,
) -> u64
    requires { Accepted s.now tab.now
        × (length b.now ≤ 65536)
        × NearFront s.now b.now ent.now front names
        × Holds path (bits b.now) v
        × Holds literal (bits b.now) k }
    ensures { KeyedLiteral s.now b.now ent.now front names options v k result }
{
    let found = led(s, tab, b, ent, front, names, options, v);
    if found == 0 {
        return 0;
    }
    lookup::keyed_number(s, tab, b, ent, value::decode((found - 1) as u32), k)
}

// What such a number says of a lookup.
fn found(n: u64, html: bool, before: bool, next: usize) -> Shown
    requires { n < 4294967298 }
    ensures { result ≡ found_view n html before next }
{
    if n < 2 {
        return Shown::Other;
    }
    Shown::Lookup((n - 2) as u32, html, before, next)
}

// What the expression with the call at p shows, if it is such a lookup; html says whether it is not escaped.
fn lookup_shown(
    s: &[u8],
    tab: &[u64],
    b: &[u8],
    ent: &[u64],
    front: Scope,
    names: u64,
    options: Options,
    html: bool,
    p: usize,
    d: usize,
) -> Shown
    requires { Accepted s.now tab.now
        × (length b.now ≤ 65536)
        × NearFront s.now b.now ent.now front names
        × Holds (call_of (param d)) (bits b.now) p }
    ensures { LookupShown s.now b.now ent.now front names options html p result }
{
    match lookup_at(b, p, d) {
        Lookup::Paths(v, k, before, next) => {
            let n = keyed_paths(s, tab, b, ent, front, names, options, v, k);
            found(n, html, before, next)
        }
        Lookup::Literal(v, k, before, next) => {
            let n = keyed_literal(s, tab, b, ent, front, names, options, v, k);
            found(n, html, before, next)
        }
        Lookup::Other => Shown::Other,
    }
}

// What the element shows whose kind stands at p. One without escaping is left where escaping is disabled already: behind it, it is not.
pub fn shown_at(
    s: &[u8],
    tab: &[u64],
    b: &[u8],
    ent: &[u64],
    front: Scope,
    names: u64,
    options: Options,
    disable_escape: bool,
    p: usize,
    d: usize,
) -> Shown
    requires { Accepted s.now tab.now
        × (length b.now ≤ 65536)
        × NearFront s.now b.now ent.now front names
        × Holds (element_of (call_of (param d)) (body 16 d)) (bits b.now) p }
    ensures { ShownIs s.now b.now ent.now front names disable_escape
        options d p result }
{
    match plain_at(b, p, d) {
        Plain::Text(n) => Shown::Text(n),
        Plain::Path(html, v, next) => {
            if html & disable_escape {
                return Shown::Other;
            }
            let r = helpers::bare_number(s, tab, b, ent, front, names, options, v);
            if r == helpers::HELPER {
                return Shown::Other;
            }
            if r == helpers::FAR {
                return Shown::Other;
            }
            if r == helpers::MISSING {
                return Shown::Bad(RenderErrorReason::MissingVariable);
            }
            if r < helpers::NOTHING {
                return Shown::Bad(RenderErrorReason::InvalidJsonIndex);
            }
            if r == helpers::NOTHING {
                return Shown::Nothing(next);
            }
            Shown::Value((r - helpers::VALUE) as u32, html, next)
        }
        Plain::Call(html) => {
            if html & disable_escape {
                return Shown::Other;
            }
            lookup_shown(s, tab, b, ent, front, names, options, html, p + 4, d)
        }
        Plain::Other => Shown::Other,
    }
}

// A text that is stored at once moves the writer on by its count and its last byte alone, so the loop keeps its writer in place: one that a call returns is copied
// whole, field by field. What is told is then 0 where the text has to be written by such a call.

// The n bytes of a packed string: one more than the last of them. Most have up to seven, which are one word and stored from it.
pub fn put_text(page: &mut [u8], texts: &mut [u8], w: Writer, b: &[u8], p: usize, n: usize) -> usize
    requires { p + 8 * n < 2 ^ 64 }
    ensures put { Put (bytes_at (bits b.now) p n) w
        page.old texts.old page.new texts.new result n (result - 1) }
    ensures value { result ≡ set_short w (pick w.block_text (length texts.old) (length page.old)) n
        (field (bits b.now) 56 p) }
{
    let x = bits::field(b, p, 56);
    if w.block_text {
        return direct::set_short(texts, w, n, x);
    }
    direct::set_short(page, w, n, x)
}

// Lent bytes that go out as they are: 256 times their count, and the last of them.
fn put_bytes(page: &mut [u8], texts: &mut [u8], w: Writer, v: &[u8]) -> usize
    requires { (length v.now ≤ 65536) × (is_calm w.has_indent true v.now ≡ true) }
    ensures { PutPlain v.now w
        page.old texts.old page.new texts.new result }
{
    if w.block_text {
        return direct::set_bytes(texts, w, v);
    }
    direct::set_bytes(page, w, v)
}

// What a value prints that stands in the plan so and needs no escaping, where no indent is due: n is the value's number.
pub fn put_number(
    page: &mut [u8],
    texts: &mut [u8],
    w: Writer,
    s: &[u8],
    tab: &[u64],
    n: u32,
) -> usize
    requires { Accepted s.now tab.now × ((b : Bytes) × Known s.now b (decoded n)) }
    ensures { PutNumber s.now n w
        page.old texts.old page.new texts.new result }
{
    if w.has_indent & w.indent_before_write {
        return 0;
    }
    let p = print::calm_value(s, tab, n);
    let at = p.start;
    let e = p.end;
    if at < e {
        return put_bytes(page, texts, w, &s[at..e]);
    }
    0
}

// What a value prints, stored at once where that can be: n is the value's number.
fn write_number(
    page: &mut [u8],
    texts: &mut [u8],
    indent: &[u8],
    w: Writer,
    s: &[u8],
    tab: &[u64],
    b: &[u8],
    n: u32,
    escape: bool,
) -> Writer
    requires { Accepted s.now tab.now × (length b.now ≤ 65536) × Known s.now b.now (decoded n) }
    ensures { Means s.now b.now (decoded n) (λ j.
        outputs result page.new texts.new
        ≡ fed indent.now (escaped escape (render j)) (outputs w page.old texts.old)) }
{
    let put = put_number(page, texts, w, s, tab, n);
    if put == 0 {
        let v = value::decode(n);
        return writing::write_value(page, texts, indent, w, s, tab, b, v, escape);
    }
    direct::behind(w, put / 256, (put % 256) as u8)
}

// A lookup that found the value with the number v: it writes as a helper does, with the marks in front of it and behind. The element is drawn of which `shown_at` told
// this, whichever it is.
pub fn draw_lookup(
    page: &mut [u8],
    texts: &mut [u8],
    indent: &[u8],
    s: &[u8],
    tab: &[u64],
    b: &[u8],
    v: u32,
    html: bool,
    before: bool,
    rc: RenderContext,
) -> RenderContext
    requires { Accepted s.now tab.now × (length b.now ≤ 65536) × Known s.now b.now (decoded v) }
    ensures helper_wrote { HelperWrote s.now b.now (decoded v) html before rc result
        page.old texts.old indent.now page.new texts.new }
    ensures one_drawn { (l : List Scope) (ent : List ℕ) (front : Scope) (o : Options) (d p next : ℕ)
        → Front l rc front
        → Ready s.now b.now
        (world (whole rc l) page.old texts.old indent.now ent)
        → LookupAt s.now b.now ent front rc.names rc.disable_escape o d (p + 16 + 16)
        v html before next
        → OneDrawn s.now b.now o d p
        (world (whole rc l) page.old texts.old indent.now ent)
        (world (whole result l) page.new texts.new indent.now ent) next }
{
    let marks = rc.writer;
    let escape = !(html | rc.disable_escape);
    let q = helping::begin_helper(rc, before);
    let w = write_number(page, texts, indent, q.writer, s, tab, b, v, escape);
    state::finish(state::wrote(q, w), marks)
}
