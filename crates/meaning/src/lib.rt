// json/value.rs: what a value is, and whether it is true.
#![tactic(auto)]

ghost use Rattle.std.specs.Prelude.{◌≡◌, ◌≤◌, ◌<◌, length};
ghost use Rattle.rules.specs.Bits.{bits};
ghost use Rattle.rules.specs.Bundle.{string, literal};
ghost use Rattle.parts.specs.Holds.{Holds};
ghost use Rattle.places.specs.Accepted.{Accepted};
ghost use Rattle.places.specs.Places.{places};
ghost use Rattle.rules.specs.Value.{is_truthy, guide_truthy};
ghost use Rattle.text.specs.Rest.{rest, Stands};
ghost use Rattle.meaning.specs.Means.{Means};
ghost use Rattle.meaning.specs.Truth.{has_bytes, truthy, bool_of};
ghost use Rattle.meaning.specs.Forms.{Known, PlaceFormed, LiteralFormed, TextFormed, Formed};

use parts::Literal;
use places::Kind;
use text::Text;
use value::Value;

#[derive(Clone, Copy)]
pub enum Form {
    Null,
    Boolean(bool),
    Unsigned(u64),
    // without its sign
    Negative(u64),
    String(Text),
    // a place of the plan
    List(usize),
    Object(usize),
    // as `Value::Merged`
    Merged(usize, usize),
}

// What stands at a place of the plan.
fn place_form(s: &[u8], tab: &[u64], b: &[u8], i: usize) -> Form
    requires { Accepted s.now tab.now × (i < places s.now) }
    ensures { PlaceFormed s.now b.now i result }
{
    let k = places::kind_of(s, tab, i);
    match k {
        Kind::Null => Form::Null,
        Kind::False => Form::Boolean(false),
        Kind::True => Form::Boolean(true),
        Kind::Unsigned => Form::Unsigned(places::number(s, tab, i)),
        Kind::Negative => Form::Negative(places::number(s, tab, i)),
        Kind::Text => Form::String(Text::Said(places::start(s, tab, i) + 1, 0)),
        Kind::List => Form::List(i),
        Kind::Object => Form::Object(i),
    }
}

// The string at the bit place p of the bundle.
fn text_form(s: &[u8], b: &[u8], p: usize) -> Form
    requires { (length b.now ≤ 65536) × Holds string (bits b.now) p }
    ensures { TextFormed s.now b.now p result }
{
    let t = parts::text_at(b, p);
    Form::String(Text::Packed(t.first, t.count))
}

// The literal at the bit place p of the bundle.
fn literal_form(s: &[u8], b: &[u8], p: usize) -> Form
    requires { (length b.now ≤ 65536) × Holds literal (bits b.now) p }
    ensures { LiteralFormed s.now b.now p result }
{
    let l = parts::literal_at(b, p);
    match l {
        Literal::Null => Form::Null,
        Literal::Boolean(t) => Form::Boolean(t),
        Literal::Unsigned(n) => Form::Unsigned(n),
        Literal::Negative(n) => Form::Negative(n),
        Literal::String(q) => text_form(s, b, q),
    }
}

pub fn form_of(s: &[u8], tab: &[u64], b: &[u8], v: Value) -> Form
    requires { Accepted s.now tab.now × (length b.now ≤ 65536) × Known s.now b.now v }
    ensures { Formed s.now b.now v result }
{
    match v {
        Value::Missing => Form::Null,
        Value::Null => Form::Null,
        Value::False => Form::Boolean(false),
        Value::True => Form::Boolean(true),
        Value::Empty => Form::String(Text::Packed(0, 0)),
        Value::Context(i) => place_form(s, tab, b, i),
        Value::Place(i) => place_form(s, tab, b, i),
        Value::Literal(p) => literal_form(s, b, p),
        Value::Index(n) => Form::Unsigned(n as u64),
        Value::IndexText(n) => Form::String(Text::Digits(n as u64, 0)),
        Value::Name(o) => Form::String(Text::Said(o + 1, 0)),
        Value::Text(p) => text_form(s, b, p),
        Value::SaidChar(o, n) => Form::String(Text::Part(o, 0, n)),
        Value::PackedChar(p, n) => Form::String(Text::Packed(p, n)),
        Value::Merged(h, n) => Form::Merged(h, n),
    }
}

fn has_bytes(s: &[u8], b: &[u8], t: Text) -> bool
    requires { (length s.now ≤ 65536) × Stands s.now b.now t }
    ensures { result ≡ has_bytes (rest s.now b.now t) }
{
    match text::next(s, b, t) {
        Some((c, u)) => true,
        None => false,
    }
}

// Whether a value is true; `zero` and `objects` say that every number is, and every object.
fn truth(s: &[u8], tab: &[u64], b: &[u8], v: Value, zero: bool, objects: bool) -> bool
    requires { Accepted s.now tab.now × (length b.now ≤ 65536) × Known s.now b.now v }
    ensures { Means s.now b.now v (λ j. result ≡ truthy zero objects j) }
{
    match form_of(s, tab, b, v) {
        Form::Null => false,
        Form::Boolean(t) => t,
        Form::Unsigned(n) => zero | (n != 0),
        Form::Negative(n) => true,
        Form::String(t) => has_bytes(s, b, t),
        Form::List(i) => !places::empty(s, tab, i),
        Form::Object(i) => objects | !places::empty(s, tab, i),
        Form::Merged(h, n) => true,
    }
}

pub fn is_truthy(s: &[u8], tab: &[u64], b: &[u8], v: Value, include_zero: bool) -> bool
    requires { Accepted s.now tab.now × (length b.now ≤ 65536) × Known s.now b.now v }
    ensures { Means s.now b.now v (λ j. result ≡ is_truthy include_zero j) }
{
    truth(s, tab, b, v, include_zero, false)
}

// Guide truth (added): an empty object is true, and zero never.
pub fn guide_truthy(s: &[u8], tab: &[u64], b: &[u8], v: Value) -> bool
    requires { Accepted s.now tab.now × (length b.now ≤ 65536) × Known s.now b.now v }
    ensures { Means s.now b.now v (λ j. result ≡ guide_truthy j) }
{
    truth(s, tab, b, v, false, true)
}

// What a value says that is a boolean; false for any other.
pub fn as_bool(s: &[u8], tab: &[u64], b: &[u8], v: Value) -> bool
    requires { Accepted s.now tab.now × (length b.now ≤ 65536) × Known s.now b.now v }
    ensures { Means s.now b.now v (λ j. result ≡ bool_of j) }
{
    match form_of(s, tab, b, v) {
        Form::Null => false,
        Form::Boolean(t) => t,
        Form::Unsigned(n) => false,
        Form::Negative(n) => false,
        Form::String(t) => false,
        Form::List(i) => false,
        Form::Object(i) => false,
        Form::Merged(h, n) => false,
    }
}
