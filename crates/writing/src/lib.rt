// render.rs and partial.rs: the leaves that write. Each writes into the output in force, page or block texts, and leaves what
// the rules draw: where it does not fit, 24 or 25. s is the plan, b the bundle; indent is the buffer of which the indent in
// force is a prefix.
#![tactic(auto)]

ghost use Rattle.std.specs.Prelude.{not, true, false, List, ◌≡◌, ℕ, ◌+◌, ◌*◌, ◌^◌, ◌≤◌, ◌<◌, length, take, drop};
ghost use Rattle.rules.specs.Bytes.{Bytes};
ghost use Rattle.rules.specs.Bits.{bits};
ghost use Rattle.rules.specs.Bundle.{string};
ghost use Rattle.rules.specs.Output.{write, do_escape, indent_aware_write};
ghost use Rattle.rules.specs.Json.{jpos};
ghost use Rattle.rules.specs.Value.{render};
ghost use Rattle.bits.specs.Packed.{bytes_at};
ghost use Rattle.output.specs.Writer.{all_put};
ghost use Rattle.output.specs.Outputs.{outputs, on};
ghost use Rattle.support.specs.Feed.{escaped, fed};
ghost use Rattle.support.specs.Runs.{calm};
ghost use Rattle.direct.specs.Direct.{takes};
ghost use Rattle.layout.specs.Text.{text_at};
ghost use Rattle.parts.specs.Holds.{Holds};
ghost use Rattle.places.specs.Accepted.{Accepted};
ghost use Rattle.meaning.specs.Meaning.{json_of};
ghost use Rattle.meaning.specs.Standing.{Stands};
ghost use Rattle.meaning.specs.Forms.{Known};
ghost use Rattle.meaning.specs.Means.{Means};
ghost use Rattle.print.specs.Printed.{printed};
ghost use Rattle.scope.specs.declared.Scope.{Scope};
ghost use Rattle.state.specs.Context.{whole};
ghost use Rattle.state.specs.World.{world};
ghost use Rattle.writing.specs.Writes.{Wrote, Writes};

use output::Writer;
use state::RenderContext;
use value::Value;

// The n bytes of a packed string as a text.
pub fn write_packed(
    page: &mut [u8],
    texts: &mut [u8],
    indent: &[u8],
    w: Writer,
    b: &[u8],
    p: usize,
    n: usize,
) -> Writer
    requires { p + 8 * n < 2 ^ 64 }
    ensures { outputs result page.new texts.new
        ≡ fed indent.now (bytes_at (bits b.now) p n)
        (outputs w page.old texts.old) }
{
    if w.block_text {
        return direct::write_packed(texts, indent, w, b, p, n);
    }
    direct::write_packed(page, indent, w, b, p, n)
}

// `RawString`: its text, the string at p, as it is.
pub fn raw_string(
    page: &mut [u8],
    texts: &mut [u8],
    indent: &[u8],
    b: &[u8],
    p: usize,
    rc: RenderContext,
) -> RenderContext
    requires { (length b.now ≤ 65536) × Holds string (bits b.now) p }
    ensures wrote { (l : List Scope)
        → Wrote (whole rc l) (whole result l) page.new texts.new
        (fed indent.now (text_at (bits b.now) p)
        (outputs rc.writer page.old texts.old)) }
    ensures writes { (l : List Scope) (s : Bytes) (ent : List ℕ)
        → Writes s b.now
        (world (whole rc l) page.old texts.old indent.now ent)
        (world (whole result l) page.new texts.new indent.now ent)
        (indent_aware_write (text_at (bits b.now) p)) }
{
    let t = parts::text_at(b, p);
    state::wrote(
        rc,
        write_packed(page, texts, indent, rc.writer, b, t.first, t.count),
    )
}

// What a value prints, into the output in force.
fn feed_value(
    page: &mut [u8],
    texts: &mut [u8],
    indent: &[u8],
    w: Writer,
    s: &[u8],
    tab: &[u64],
    b: &[u8],
    v: Value,
    escape: bool,
) -> Writer
    requires { Accepted s.now tab.now × (length b.now ≤ 65536) × Known s.now b.now v }
    ensures { Means s.now b.now v
        (λ j. outputs result page.new texts.new
        ≡ on (printed indent.now escape (render j))
        (outputs w page.old texts.old)) }
{
    if w.block_text {
        return print::write_value(texts, indent, w, s, tab, b, v, escape);
    }
    print::write_value(page, indent, w, s, tab, b, v, escape)
}

// Whether lent bytes go to the page at once.
fn is_plain(w: Writer, len: usize, v: &[u8], escape: bool) -> bool
    ensures { result ≡ true → (w.block_text ≡ false) × (takes w len (length v.now) ≡ true)
        × (calm w.has_indent v.now ≡ true) × (escaped escape v.now ≡ v.now) }
{
    if w.block_text {
        return false;
    }
    if direct::takes(w, len, v.len()) {
        return direct::is_plain(v, w.has_indent, escape);
    }
    false
}

// Lent bytes as a text.
fn any_bytes(
    page: &mut [u8],
    texts: &mut [u8],
    indent: &[u8],
    w: Writer,
    v: &[u8],
    escape: bool,
) -> Writer
    ensures { outputs result page.new texts.new
        ≡ fed indent.now (escaped escape v.now)
        (outputs w page.old texts.old) }
{
    if w.block_text {
        return direct::write_bytes(texts, indent, w, v, escape);
    }
    direct::write_bytes(page, indent, w, v, escape)
}

// The same, where most go to the page at once.
fn write_bytes(
    page: &mut [u8],
    texts: &mut [u8],
    indent: &[u8],
    w: Writer,
    v: &[u8],
    escape: bool,
) -> Writer
    ensures { outputs result page.new texts.new
        ≡ fed indent.now (escaped escape v.now)
        (outputs w page.old texts.old) }
{
    if is_plain(w, page.len(), v, escape) {
        return direct::put_bytes(page, w, v);
    }
    any_bytes(page, texts, indent, w, v, escape)
}

// The digits of a number, as a text: those of every u64 fit the buffer.
fn write_number(
    page: &mut [u8],
    texts: &mut [u8],
    indent: &[u8],
    w: Writer,
    n: u64,
    escape: bool,
) -> Writer
    ensures { outputs result page.new texts.new
        ≡ fed indent.now (escaped escape (render (jpos n)))
        (outputs w page.old texts.old) }
{
    let mut buf = [0u8; 20];
    let e = decimal::write_digits(&mut buf, 0, n);
    any_bytes(page, texts, indent, w, &buf[..e], escape)
}

// What a value prints, as a text, where it does not stand in the plan so.
fn other_value(
    page: &mut [u8],
    texts: &mut [u8],
    indent: &[u8],
    w: Writer,
    s: &[u8],
    tab: &[u64],
    b: &[u8],
    v: Value,
    escape: bool,
) -> Writer
    requires { Accepted s.now tab.now × (length b.now ≤ 65536) × Known s.now b.now v }
    ensures { Means s.now b.now v
        (λ j. outputs result page.new texts.new
        ≡ fed indent.now (escaped escape (render j))
        (outputs w page.old texts.old)) }
{
    if let Value::Index(n) = v {
        return write_number(page, texts, indent, w, n as u64, escape);
    }
    let q = support::begin(w);
    support::finish(feed_value(page, texts, indent, q, s, tab, b, v, escape))
}

// What a value prints, as a text. Most values of a plan stand there as they are printed.
pub fn write_value(
    page: &mut [u8],
    texts: &mut [u8],
    indent: &[u8],
    w: Writer,
    s: &[u8],
    tab: &[u64],
    b: &[u8],
    v: Value,
    escape: bool,
) -> Writer
    requires { Accepted s.now tab.now × (length b.now ≤ 65536) × Known s.now b.now v }
    ensures { Means s.now b.now v
        (λ j. outputs result page.new texts.new
        ≡ fed indent.now (escaped escape (render j))
        (outputs w page.old texts.old)) }
{
    let p = print::value_span(s, tab, v);
    let at = p.start;
    let e = p.end;
    if at < e {
        return write_bytes(page, texts, indent, w, &s[at..e], escape);
    }
    other_value(page, texts, indent, w, s, tab, b, v, escape)
}

// `Expression` and `HtmlExpression`: what a value prints, escaped unless that is disabled.
pub fn value(
    page: &mut [u8],
    texts: &mut [u8],
    indent: &[u8],
    s: &[u8],
    tab: &[u64],
    b: &[u8],
    v: Value,
    rc: RenderContext,
) -> RenderContext
    requires { Accepted s.now tab.now × (length b.now ≤ 65536) × Known s.now b.now v }
    ensures means { Means s.now b.now v (λ j. (l : List Scope)
        → Wrote (whole rc l) (whole result l) page.new texts.new
        (fed indent.now (escaped (not rc.disable_escape) (render j))
        (outputs rc.writer page.old texts.old))) }
    ensures writes { (l : List Scope) (ent : List ℕ) (t : ℕ) → Stands s.now b.now ent t v
        → Writes s.now b.now
        (world (whole rc l) page.old texts.old indent.now ent)
        (world (whole result l) page.new texts.new indent.now ent)
        (λ x. indent_aware_write (do_escape x (render (json_of s.now b.now ent v))) x) }
{
    let escape = !rc.disable_escape;
    state::wrote(
        rc,
        write_value(page, texts, indent, rc.writer, s, tab, b, v, escape),
    )
}

// `@partial-block`: the finished block text of n bytes at the place from is written out again, plainly.
pub fn partial_block_text(
    page: &mut [u8],
    texts: &mut [u8],
    rc: RenderContext,
    from: usize,
    n: usize,
) -> RenderContext
    requires { (rc.writer.high ≤ from) × (from + n ≤ length texts.old) }
    ensures wrote { (l : List Scope)
        → Wrote (whole rc l) (whole result l) page.new texts.new
        (on (all_put (take n (drop from texts.old)))
        (outputs rc.writer page.old texts.old)) }
    ensures writes { (l : List Scope) (s b indent : Bytes) (ent : List ℕ)
        → Writes s b (world (whole rc l) page.old texts.old indent ent)
        (world (whole result l) page.new texts.new indent ent)
        (write (take n (drop from texts.old))) }
{
    let w = rc.writer;
    let q = output::write_text(page, texts, w, from, n);
    state::wrote(rc, q)
}
