// decorators/mod.rs and decorators/inline.rs: what a decorator element is about to do.
// s is the plan, b the bundle, ent holds the entries of open partials.
#![tactic(auto)]

ghost use Rattle.std.specs.Prelude.{◌≡◌, ℕ, ◌+◌, ◌*◌, ◌≤◌, ◌<◌, length};
ghost use Rattle.std.proofs.Math.Option.{none, some};
ghost use Rattle.std.proofs.lemmas.List.Edits.{sets};
ghost use Rattle.rules.specs.Bytes.{Bytes, pick, same};
ghost use Rattle.rules.specs.Bits.{bits};
ghost use Rattle.rules.specs.Bundle.{string};
ghost use Rattle.rules.specs.Value.{render};
ghost use Rattle.rules.specs.Registry.{Registry, is_inline};
ghost use Rattle.rules.specs.Render.{join_indent, indent_fits};
ghost use Rattle.rules.specs.State.{text_size};
ghost use Rattle.layout.specs.Text.{text_at};
ghost use Rattle.parts.specs.Holds.{Holds};
ghost use Rattle.text.specs.Rest as text;
ghost use Rattle.text.specs.Rest.{rest};
ghost use Rattle.places.specs.Accepted.{Accepted};
ghost use Rattle.meaning.specs.Standing.{Stands};
ghost use Rattle.meaning.specs.Forms.{Known};
ghost use Rattle.meaning.specs.Means.{Means};
ghost use Rattle.scope.specs.Scopes.{inline_name};
ghost use Rattle.scope.specs.Standing.{InlineStands, ScopeStands};
ghost use Rattle.entries.specs.Stored.{stored};
ghost use Rattle.expand.specs.Answers.{name_of, ExpandedHeld};
ghost use Rattle.decorators.specs.Indents.{own, OwnStands, bytes_of};
ghost use Rattle.decorators.specs.Inlined.{is_string, LocalIs, Inlines};

use error::RenderErrorReason;
use expand::Expanded;
use meaning::Form;
use scope::Scope;
use text::Text;
use value::Value;

// The indent

// How many bytes the element's own indent has.
fn own_length(b: &[u8], at: Option<usize>) -> usize
    requires { (length b.now ≤ 65536) × OwnStands (bits b.now) at }
    ensures { (result ≡ text_size (own (bits b.now) at)) × (result ≤ 65536) }
{
    let Some(p) = at else {
        return 0;
    };
    let t = parts::text_at(b, p);
    t.count
}

// Limit 21: whether the indent in force, of so many bytes where there is one, and the element's own fit together.
pub fn indent_fits(b: &[u8], has: bool, len: usize, at: Option<usize>) -> bool
    requires { (length b.now ≤ 65536) × OwnStands (bits b.now) at }
    ensures { (g : Registry) (v : Bytes) → g.limits.indent ≡ 256 → length v ≡ len
        → result ≡ indent_fits g (join_indent (pick has (some v) none) (own (bits b.now) at)) }
{
    let n = own_length(b, at);
    if !has {
        return n <= 256;
    }
    if len <= 256 {
        return n <= 256 - len;
    }
    false
}

// The element's own indent behind the first len bytes; gives their length together.
pub fn append_indent(indent: &mut [u8], b: &[u8], len: usize, at: Option<usize>) -> usize
    requires { (length b.now ≤ 65536) × OwnStands (bits b.now) at
        × (len + text_size (own (bits b.now) at) ≤ length indent.old) }
    ensures { (result ≡ len + text_size (own (bits b.now) at))
        × (indent.new ≡ sets indent.old len (bytes_of (own (bits b.now) at))) }
{
    let Some(p) = at else {
        return len;
    };
    let t = parts::text_at(b, p);
    output::copy_packed(indent, len, b, t.first, t.count);
    len + t.count
}

// Inline partials

#[derive(Clone, Copy)]
pub enum Inlined {
    // why it is refused
    Bad(RenderErrorReason),
    // the scope has no inline partial of the name that the value says
    New(Value),
    // it has one: its entry
    Again(usize, Value),
}

// Whether a value prints the name of the only decorator.
pub fn is_inline(s: &[u8], tab: &[u64], b: &[u8], v: Value) -> bool
    requires { Accepted s.now tab.now × (length b.now ≤ 65536) × Known s.now b.now v }
    ensures { Means s.now b.now v (λ j. result ≡ is_inline (render j)) }
{
    print::text_is(s, tab, b, v, b"inline")
}

fn is_string(s: &[u8], tab: &[u64], b: &[u8], v: Value) -> bool
    requires { Accepted s.now tab.now × (length b.now ≤ 65536) × Known s.now b.now v }
    ensures { Means s.now b.now v (λ j. result ≡ is_string j) }
{
    match meaning::form_of(s, tab, b, v) {
        Form::Null => false,
        Form::Boolean(t) => false,
        Form::Unsigned(n) => false,
        Form::Negative(n) => false,
        Form::String(t) => true,
        Form::List(i) => false,
        Form::Object(i) => false,
        Form::Merged(h, n) => false,
    }
}

// The name of the inline partial that the entry e holds.
fn inline_name(s: &[u8], tab: &[u64], b: &[u8], ent: &[u64], e: usize) -> Text
    requires { Accepted s.now tab.now × (length b.now ≤ 65536) × (2 * e < length ent.now)
        × InlineStands s.now b.now ent.now e }
    ensures { (rest s.now b.now result
        ≡ inline_name s.now b.now ent.now e)
        × text.Stands s.now b.now result }
{
    let f = meaning::form_of(s, tab, b, value::decode(entries::low(ent, e)));
    let Form::String(t) = f else {
        return Text::Packed(0, 0);
    };
    t
}

// Whether the inline partial that the entry e holds has the name of the string at the bit q. Most names are literals, which are strings behind three
// bits, or strings of the bundle: the number of the value tells them by its last four bits, so that they are compared where they stand.
fn has_name(s: &[u8], tab: &[u64], b: &[u8], ent: &[u64], e: usize, q: usize) -> bool
    requires { Accepted s.now tab.now × (length b.now ≤ 65536) × (2 * e < length ent.now)
        × InlineStands s.now b.now ent.now e × Holds string (bits b.now) q }
    ensures { result
        ≡ same (inline_name s.now b.now ent.now e)
        (text_at (bits b.now) q) }
{
    let n = entries::low(ent, e);
    let p = (n / 16) as usize;
    if n % 16 == 7 {
        return layout::same_text(b, p + 3, q);
    }
    if n % 16 == 11 {
        return layout::same_text(b, p, q);
    }
    text::same(
        s,
        b,
        inline_name(s, tab, b, ent, e),
        lookup::text_of(s, b, q),
    )
}

// Of the n inline partials from e on, the one that has the name of the string at the bit q.
fn get_named_partial(
    s: &[u8],
    tab: &[u64],
    b: &[u8],
    ent: &[u64],
    e: usize,
    n: usize,
    q: usize,
) -> Option<usize>
    requires { Accepted s.now tab.now × (length b.now ≤ 65536) × Holds string (bits b.now) q
        × (2 * (e + n) ≤ length ent.now) × ((i : ℕ) → i < n → InlineStands s.now b.now ent.now (e + i)) }
    ensures { LocalIs s.now b.now ent.now e n
        (text_at (bits b.now) q) result }
{
    for i in 0..n {
        if has_name(s, tab, b, ent, e + i, q) {
            return Some(e + i);
        }
    }
    None
}

// The one whose name v prints, whatever v is.
fn get_printed_partial(
    s: &[u8],
    tab: &[u64],
    b: &[u8],
    ent: &[u64],
    e: usize,
    n: usize,
    v: Value,
) -> Option<usize>
    requires { Accepted s.now tab.now × (length b.now ≤ 65536) × Known s.now b.now v
        × (2 * (e + n) ≤ length ent.now) × ((i : ℕ) → i < n → InlineStands s.now b.now ent.now (e + i)) }
    ensures { (t : ℕ) → Stands s.now b.now ent.now t v
        → LocalIs s.now b.now ent.now e n
        (name_of s.now b.now ent.now v) result }
{
    for i in 0..n {
        let name = inline_name(s, tab, b, ent, e + i);
        if print::text_same(s, tab, b, v, name) {
            return Some(e + i);
        }
    }
    None
}

// The one whose name v prints: mostly v is a string of the bundle.
pub fn get_local_partial(
    s: &[u8],
    tab: &[u64],
    b: &[u8],
    ent: &[u64],
    e: usize,
    n: usize,
    v: Value,
) -> Option<usize>
    requires { Accepted s.now tab.now × (length b.now ≤ 65536) × Known s.now b.now v
        × (2 * (e + n) ≤ length ent.now) × ((i : ℕ) → i < n → InlineStands s.now b.now ent.now (e + i)) }
    ensures { (t : ℕ) → Stands s.now b.now ent.now t v
        → LocalIs s.now b.now ent.now e n
        (name_of s.now b.now ent.now v) result }
{
    if let Value::Text(q) = v {
        return get_named_partial(s, tab, b, ent, e, n, q);
    }
    get_printed_partial(s, tab, b, ent, e, n, v)
}

// What `inline` does with a body, where there is one. c is the newest scope, and so many entries are taken.
pub fn inline(
    s: &[u8],
    tab: &[u64],
    b: &[u8],
    ent: &[u64],
    c: Scope,
    total: usize,
    w: Expanded,
    has_body: bool,
) -> Inlined
    requires { Accepted s.now tab.now × (length b.now ≤ 65536)
        × ScopeStands s.now b.now ent.now c × (2 * (c.inline + c.count) ≤ length ent.now)
        × ExpandedHeld s.now b.now ent.now w }
    ensures { Inlines s.now b.now ent.now c total w has_body result }
{
    let v = w.first;
    if w.count == 0 {
        return Inlined::Bad(RenderErrorReason::ParamNotFoundForIndex);
    }
    if !is_string(s, tab, b, v) {
        return Inlined::Bad(RenderErrorReason::InvalidParamType);
    }
    if !has_body {
        return Inlined::Bad(RenderErrorReason::BlockContentRequired);
    }
    let found = get_local_partial(s, tab, b, ent, c.inline as usize, c.count as usize, v);
    if let Some(k) = found {
        return Inlined::Again(k, v);
    }
    if total < 4096 {
        return Inlined::New(v);
    }
    Inlined::Bad(RenderErrorReason::EntriesLimit)
}

// Keeps an inline partial in the entry k: its name as a number, the depths that its body has left, and the place of its body.
pub fn set_local_partial(ent: &mut [u64], k: usize, name: u32, depth: usize, place: usize)
    requires { (2 * k + 1 < length ent.old) × (depth ≤ 16) }
    ensures { ent.new ≡ stored ent.old k name depth place }
{
    entries::store(ent, k, name, depth as u32, place);
}
