// context.rs and helpers/helper_lookup.rs: what a value has under a name or an index.
#![tactic(auto)]

ghost use Rattle.std.specs.Prelude.{◌≡◌, ◌+◌, ◌*◌, ◌≤◌, ◌<◌, length};
ghost use Rattle.std.proofs.Math.Option.{none, some};
ghost use Rattle.std.proofs.Math.ListN.{get_elem?};
ghost use Rattle.rules.specs.Bytes.{Bytes, pick, maybe, same};
ghost use Rattle.rules.specs.Json.{jstr, as_str, as_u64, get_member};
ghost use Rattle.rules.specs.Bits.{bits};
ghost use Rattle.rules.specs.Layout.{field};
ghost use Rattle.rules.specs.Bundle.{string, literal};
ghost use Rattle.rules.specs.Template.{literal_json};
ghost use Rattle.rules.specs.Context.{parse_usize, base_map};
ghost use Rattle.rules.specs.HelperLookup.{looked_up};
ghost use Rattle.decimal.specs.Parsing.{parsed};
ghost use Rattle.merging.specs.Lookup.{canonical, find_last};
ghost use Rattle.layout.specs.Text.{text_at};
ghost use Rattle.parts.specs.Holds.{Holds};
ghost use Rattle.parts.specs.Says.{literal_at};
ghost use Rattle.chars.specs.Spelled.{Spelled};
ghost use Rattle.places.specs.Accepted.{Accepted};
ghost use Rattle.places.specs.Places.{places, json_at, name_at, children, member};
ghost use Rattle.places.specs.Kinds.{found};
ghost use Rattle.saying.specs.Said.{remaining, Inside};
ghost use Rattle.text.specs.Rest.{rest, Stands};
ghost use Rattle.value.specs.Numbers.{decoded};
ghost use Rattle.value.specs.declared.Value.TheVariants.{Merged};
ghost use Rattle.meaning.specs.Entries.{place};
ghost use Rattle.meaning.specs.Meaning.{plain_json, pairs, context_place, json_of};
ghost use Rattle.meaning.specs.Standing.{KeysStand};
ghost use Rattle.meaning.specs.Forms.{Known};
ghost use Rattle.lookup.specs.Answers.{Held, PlainHeld, Spells, pathless, Finds, PlainFinds, DataGot};
ghost use Rattle.lookup.specs.Keys.{KeyFound};
ghost use Rattle.lookup.specs.Numbers.{MemberNumber, placed_number, NumberGot, pair_at, Inner, Asked};
ghost use Rattle.lookup.specs.Keyed.{KeyNumber, MergedNumber, LookedNumber};
ghost use Rattle.lookup.specs.Places.{placed, placed_at, reached_at, list_reached, Reaches, with_path, without_path, from_member};

use meaning::Form;
use parts::Literal;
use places::Kind;
use saying::Name;
use text::Text;
use value::Value;

// How many bytes a plan may have
const BYTES: usize = 65536;

// A string of the bundle starts with its count.
const COUNT: usize = 16;

// A literal starts with its kind, and where that says a string, its count follows.
const LITERAL: usize = 3;

const LITERAL_AND_COUNT: usize = LITERAL + COUNT;

const COUNTS: u64 = 1 << COUNT;

const STRING: u64 = 5 * COUNTS;

// A value's number: the kind in its last bits, the place in front of them.
const KINDS: u32 = 16;

const CONTEXT: u32 = 5;

const PLACE: u32 = 6;

const CONTEXT_TO_PLACE: u32 = PLACE - CONTEXT;

const MERGED: u32 = 14;

// The same for a number of 64 bits
const WIDE_KINDS: u64 = KINDS as u64;

const WIDE_CONTEXT: u64 = CONTEXT as u64;

const WIDE_PLACE: u64 = PLACE as u64;

// What a search by numbers answers: that it does not tell, that there is nothing, or the number of a value with this added
const NOT_TOLD: u64 = 0;

const NOTHING: u64 = 1;

const VALUE: u64 = 2;

// A member's place is told by one more than it; what is below says `NOT_TOLD` or `NOTHING`.
const MEMBER: usize = 2;

// For a value that is no string
const NO_TEXT: Text = Text::Packed(0, 0);

// Added to the number of a value that a merged object's own pair has
const PAIR: u64 = 1 << 32;

const PAIR_TO_VALUE: u64 = PAIR - VALUE;

#[derive(Clone, Copy)]
pub enum Got {
    Is(Value),
    Nothing,
    BadIndex,
}

#[derive(Clone, Copy)]
enum Reached {
    At(usize),
    Nothing,
    BadIndex,
}

// Texts

// `parse::<usize>` of a text.
fn index_of(s: &[u8], b: &[u8], t: Text) -> Option<u64>
    requires { (length s.now ≤ 65536) × Stands s.now b.now t }
    ensures { result ≡ parsed (parse_usize (rest s.now b.now t)) }
{
    let mut p = decimal::start();
    let mut u = t;
    while let Some((c, v)) = text::next(s, b, u) {
        p = decimal::feed(p, c);
        u = v;
    }
    decimal::finish(p)
}

// The number whose digits a text is.
fn canonical(s: &[u8], b: &[u8], t: Text) -> Option<u64>
    requires { (length s.now ≤ 65536) × Stands s.now b.now t }
    ensures { result ≡ parsed (canonical (rest s.now b.now t)) }
{
    let n = index_of(s, b, t)?;
    if text::same(s, b, Text::Digits(n, 0), t) {
        return Some(n);
    }
    None
}

// The string at the bit place p of the bundle.
pub fn text_of(s: &[u8], b: &[u8], p: usize) -> Text
    requires { (length b.now ≤ 65536) × Holds string (bits b.now) p }
    ensures { (rest s.now b.now result ≡ text_at (bits b.now) p)
        × Stands s.now b.now result
        × Spelled s.now b.now result }
{
    let t = parts::text_at(b, p);
    Text::Packed(t.first, t.count)
}

// Places of the plan

// The place c where its name is t, or else the best one so far.
fn latest(s: &[u8], tab: &[u64], b: &[u8], t: Text, c: usize, best: Option<usize>) -> Option<usize>
    requires { Accepted s.now tab.now × (c < places s.now) × Stands s.now b.now t }
    ensures { found result
        ≡ pick (same (name_at s.now c) (rest s.now b.now t)) (some c) (found best) }
{
    let n = places::name(s, tab, c);
    if text::same(s, b, Text::Said(n + 1, 0), t) {
        return Some(c);
    }
    best
}

// The member of that name of the object at i, whatever text the name is: of equal names the last one.
fn any_member(s: &[u8], tab: &[u64], b: &[u8], i: usize, t: Text) -> Option<usize>
    requires { Accepted s.now tab.now × (i < places s.now) × Stands s.now b.now t }
    ensures { found result ≡ member s.now i (rest s.now b.now t) }
{
    let mut best = None;
    let mut at = places::first(s, tab, i);
    while let Some(c) = at {
        best = latest(s, tab, b, t, c, best);
        at = places::next(s, tab, i, c);
    }
    best
}

// The same for what a string of the plan says from the place `at` and the byte k on. Most often that is all of it, and then two strings are compared where they stand.
fn said_member(s: &[u8], tab: &[u64], b: &[u8], i: usize, at: usize, k: usize) -> Option<usize>
    requires { Accepted s.now tab.now × (i < places s.now) × Inside s.now at k }
    ensures { found result ≡ member s.now i (remaining s.now at k) }
{
    if (k == 0) & ((0 < at) & (at <= BYTES)) {
        let q = at - 1;
        return places::member(s, tab, i, b, Name::Quoted(q));
    }
    any_member(s, tab, b, i, Text::Said(at, k))
}

// The member of that name of the object at i.
fn object_member(s: &[u8], tab: &[u64], b: &[u8], i: usize, t: Text) -> Option<usize>
    requires { Accepted s.now tab.now × (i < places s.now) × Stands s.now b.now t }
    ensures { found result ≡ member s.now i (rest s.now b.now t) }
{
    match t {
        Text::Packed(p, n) => places::member_packed(s, tab, i, b, p, n),
        Text::Said(at, k) => said_member(s, tab, b, i, at, k),
        u => any_member(s, tab, b, i, u),
    }
}

// The item of the list at i that stands under t where the list is taken as an object.
fn list_member(s: &[u8], tab: &[u64], b: &[u8], i: usize, t: Text) -> Option<usize>
    requires { Accepted s.now tab.now × (i < places s.now) × Stands s.now b.now t }
    ensures { found result
        ≡ maybe (canonical (rest s.now b.now t)) none (get_elem? (children s.now i)) }
{
    let n = canonical(s, b, t)?;
    places::nth(s, tab, i, n as usize)
}

// Values

// The same value without its path.
fn pathless(v: Value) -> Value
    ensures { result ≡ pathless v }
{
    let Value::Context(i) = v else {
        return v;
    };
    Value::Place(i)
}

// A place that was found, without its path.
fn placed(at: Option<usize>) -> Option<Value>
    ensures { result ≡ placed at }
{
    match at {
        Some(c) => Some(Value::Place(c)),
        None => None,
    }
}

// The text of a value that is a string.

fn place_text(s: &[u8], tab: &[u64], b: &[u8], i: usize) -> Text
    requires { Accepted s.now tab.now × (i < places s.now) }
    ensures { Spells s.now b.now (json_at s.now i) result }
{
    let o = places::start(s, tab, i);
    Text::Said(o + 1, 0)
}

fn literal_text(s: &[u8], b: &[u8], p: usize) -> Text
    requires { (length b.now ≤ 65536) × Holds literal (bits b.now) p }
    ensures { Spells s.now b.now (literal_json (literal_at (bits b.now) p))
        result }
{
    let l = parts::literal_at(b, p);
    match l {
        Literal::Null => NO_TEXT,
        Literal::Boolean(_) => NO_TEXT,
        Literal::Unsigned(_) => NO_TEXT,
        Literal::Negative(_) => NO_TEXT,
        Literal::String(q) => text_of(s, b, q),
    }
}

pub fn string_text(s: &[u8], tab: &[u64], b: &[u8], v: Value) -> Text
    requires { Accepted s.now tab.now × (length b.now ≤ 65536) × PlainHeld s.now b.now v }
    ensures { Spells s.now b.now (plain_json s.now b.now v) result }
{
    match v {
        Value::Missing => NO_TEXT,
        Value::Null => NO_TEXT,
        Value::False => NO_TEXT,
        Value::True => NO_TEXT,
        Value::Empty => NO_TEXT,
        Value::Context(i) => place_text(s, tab, b, i),
        Value::Place(i) => place_text(s, tab, b, i),
        Value::Literal(p) => literal_text(s, b, p),
        Value::Index(_) => NO_TEXT,
        Value::IndexText(n) => Text::Digits(n as u64, 0),
        Value::Name(o) => Text::Said(o + 1, 0),
        Value::Text(p) => text_of(s, b, p),
        Value::SaidChar(o, n) => Text::Part(o, 0, n),
        Value::PackedChar(p, n) => Text::Packed(p, n),
        Value::Merged(_, _) => NO_TEXT,
    }
}

// The character of a string that stands under t where the string is taken as an object.
fn string_member(s: &[u8], b: &[u8], x: Text, t: Text) -> Option<Value>
    requires { (length s.now ≤ 65536)
        × (length b.now ≤ 65536)
        × Spelled s.now b.now x
        × Stands s.now b.now t }
    ensures { PlainFinds s.now b.now
        (get_member (base_map (jstr (rest s.now b.now x)))
        (rest s.now b.now t)) result }
{
    let n = canonical(s, b, t)?;
    let w = chars::nth_char(s, b, x, n as usize)?;
    Some(pathless(w))
}

// What stands under t in a value that is not merged, taken as an object: by its form.
fn form_member(s: &[u8], tab: &[u64], b: &[u8], v: Value, t: Text) -> Option<Value>
    requires { Accepted s.now tab.now
        × (length b.now ≤ 65536)
        × PlainHeld s.now b.now v
        × Stands s.now b.now t }
    ensures { PlainFinds s.now b.now
        (get_member (base_map (plain_json s.now b.now v))
        (rest s.now b.now t)) result }
{
    let f = meaning::form_of(s, tab, b, v);
    match f {
        Form::Null => None,
        Form::Boolean(_) => None,
        Form::Unsigned(_) => None,
        Form::Negative(_) => None,
        Form::String(_) => string_member(s, b, string_text(s, tab, b, v), t),
        Form::List(i) => placed(list_member(s, tab, b, i, t)),
        Form::Object(i) => placed(object_member(s, tab, b, i, t)),
        Form::Merged(_, _) => None,
    }
}

// The same. Most often an object of the plan stands there, which is told without the form.
fn plain_member(s: &[u8], tab: &[u64], b: &[u8], v: Value, t: Text) -> Option<Value>
    requires { Accepted s.now tab.now
        × (length b.now ≤ 65536)
        × PlainHeld s.now b.now v
        × Stands s.now b.now t }
    ensures { PlainFinds s.now b.now
        (get_member (base_map (plain_json s.now b.now v))
        (rest s.now b.now t)) result }
{
    let Value::Place(i) = pathless(v) else {
        return form_member(s, tab, b, v, t);
    };
    if places::is_object(s, tab, i) {
        return placed(object_member(s, tab, b, i, t));
    }
    form_member(s, tab, b, v, t)
}

// The last of the n entries from h on whose key is t.
fn last_key(s: &[u8], b: &[u8], ent: &[u64], h: usize, n: usize, t: Text) -> Option<usize>
    requires { (length s.now ≤ 65536)
        × (length b.now ≤ 65536)
        × (2 * (h + n) ≤ length ent.now)
        × KeysStand b.now ent.now h n
        × Stands s.now b.now t }
    ensures { KeyFound s.now b.now ent.now h n
        (find_last
        (pairs b.now ent.now (json_of s.now b.now ent.now) h n)
        (rest s.now b.now t)) result }
{
    for k in (0..n).rev() {
        let key = text_of(s, b, entries::place(ent, h + k));
        if text::same(s, b, key, t) {
            return Some(h + k);
        }
    }
    None
}

// What stands under t in a value taken as an object: of a merged one the last hash pair of that name, and where there is none what its base has.
pub fn get_member(s: &[u8], tab: &[u64], b: &[u8], ent: &[u64], v: Value, t: Text) -> Option<Value>
    requires { Accepted s.now tab.now
        × (length b.now ≤ 65536)
        × Held s.now b.now ent.now v
        × Stands s.now b.now t }
    ensures { Finds s.now b.now ent.now v
        (get_member (base_map (json_of s.now b.now ent.now v))
        (rest s.now b.now t)) result }
{
    let mut u = v;
    while let Value::Merged(h, n) = u {
        if let Some(e) = last_key(s, b, ent, h, n, t) {
            return Some(pathless(value::decode(entries::low(ent, e))));
        }
        u = value::decode(entries::high(ent, h));
    }
    plain_member(s, tab, b, u, t)
}

// Paths

fn from_place(at: Option<usize>) -> Reached
    ensures { result ≡ reached_at (found at) }
{
    match at {
        Some(c) => Reached::At(c),
        None => Reached::Nothing,
    }
}

fn list_data(s: &[u8], tab: &[u64], b: &[u8], i: usize, t: Text) -> Reached
    requires { Accepted s.now tab.now × (i < places s.now) × Stands s.now b.now t }
    ensures { result ≡ list_reached (children s.now i)
        (parse_usize (rest s.now b.now t)) }
{
    let Some(n) = index_of(s, b, t) else {
        return Reached::BadIndex;
    };
    from_place(places::nth(s, tab, i, n as usize))
}

// One segment of a path, t, from the place i of the plan.
fn place_data(s: &[u8], tab: &[u64], b: &[u8], i: usize, t: Text) -> Reached
    requires { Accepted s.now tab.now × (i < places s.now) × Stands s.now b.now t }
    ensures { Reaches s.now i (rest s.now b.now t) result }
{
    let k = places::kind_of(s, tab, i);
    match k {
        Kind::Null => Reached::Nothing,
        Kind::False => Reached::Nothing,
        Kind::True => Reached::Nothing,
        Kind::Unsigned => Reached::Nothing,
        Kind::Negative => Reached::Nothing,
        Kind::Text => Reached::Nothing,
        Kind::List => list_data(s, tab, b, i, t),
        Kind::Object => from_place(object_member(s, tab, b, i, t)),
    }
}

fn with_path(at: Reached) -> Got
    ensures { result ≡ with_path at }
{
    match at {
        Reached::At(c) => Got::Is(Value::Context(c)),
        Reached::Nothing => Got::Nothing,
        Reached::BadIndex => Got::BadIndex,
    }
}

fn without_path(at: Reached) -> Got
    ensures { result ≡ without_path at }
{
    match at {
        Reached::At(c) => Got::Is(Value::Place(c)),
        Reached::Nothing => Got::Nothing,
        Reached::BadIndex => Got::BadIndex,
    }
}

fn from_member(found: Option<Value>) -> Got
    ensures { result ≡ from_member found }
{
    match found {
        Some(w) => Got::Is(w),
        None => Got::Nothing,
    }
}

// One segment of a path, t, from a value whose own path is not known.
fn derived_data(s: &[u8], tab: &[u64], b: &[u8], ent: &[u64], v: Value, t: Text) -> Got
    requires { Accepted s.now tab.now
        × (length b.now ≤ 65536)
        × Held s.now b.now ent.now v
        × (context_place v ≡ none)
        × Stands s.now b.now t }
    ensures { DataGot s.now b.now ent.now v
        (rest s.now b.now t) result }
{
    let f = meaning::form_of(s, tab, b, v);
    match f {
        Form::Null => Got::Nothing,
        Form::Boolean(_) => Got::Nothing,
        Form::Unsigned(_) => Got::Nothing,
        Form::Negative(_) => Got::Nothing,
        Form::String(_) => Got::Nothing,
        Form::List(i) => without_path(place_data(s, tab, b, i, t)),
        Form::Object(i) => without_path(place_data(s, tab, b, i, t)),
        Form::Merged(_, _) => from_member(get_member(s, tab, b, ent, v, t)),
    }
}

// One segment of a path, the string at the bit place q of the bundle, from the place i of the plan. Most often an object stands there.
fn segment_data(s: &[u8], tab: &[u64], b: &[u8], i: usize, q: usize) -> Reached
    requires { Accepted s.now tab.now
        × (length b.now ≤ 65536)
        × (i < places s.now)
        × Holds string (bits b.now) q }
    ensures { Reaches s.now i (text_at (bits b.now) q) result }
{
    if places::is_object(s, tab, i) {
        let n = bits::field(b, q, COUNT) as usize;
        return from_place(places::member_packed(s, tab, i, b, q + COUNT, n));
    }
    place_data(s, tab, b, i, text_of(s, b, q))
}

// The same from the value v.
pub fn get_data(s: &[u8], tab: &[u64], b: &[u8], ent: &[u64], v: Value, q: usize) -> Got
    requires { Accepted s.now tab.now
        × (length b.now ≤ 65536)
        × Held s.now b.now ent.now v
        × Holds string (bits b.now) q }
    ensures { DataGot s.now b.now ent.now v
        (text_at (bits b.now) q) result }
{
    let Value::Place(i) = pathless(v) else {
        return derived_data(s, tab, b, ent, v, text_of(s, b, q));
    };
    let at = segment_data(s, tab, b, i, q);
    let Value::Context(_) = v else {
        return without_path(at);
    };
    with_path(at)
}

// The same for a value and an answer that are numbers, as `value::encode` makes them: an enum would go through memory. The answer is
// `NOT_TOLD`, `NOTHING`, or the number of what there is with `VALUE` added.

// From the place i of the plan along the string at q of m bytes: 0 where no object stands there, else one more than the member's place or 0.
fn place_number(s: &[u8], tab: &[u64], b: &[u8], i: usize, q: usize, m: usize) -> usize
    requires { Accepted s.now tab.now
        × (length b.now ≤ 65536)
        × (i < places s.now)
        × Holds string (bits b.now) q
        × (m ≡ field (bits b.now) 16 q) }
    ensures { MemberNumber s.now i (text_at (bits b.now) q) result }
{
    if places::is_object(s, tab, i) {
        let c = places::member_number(s, tab, i, b, q + COUNT, m);
        return c + 1;
    }
    0
}

// A member's place as the number of a value of that kind.
fn placed_number(r: usize, tag: u64) -> u64
    requires { (r ≤ 4096) × (tag < 16) }
    ensures { result ≡ placed_number r tag }
{
    if r < MEMBER {
        return r as u64;
    }
    VALUE + tag + WIDE_KINDS * ((r - 1) as u64)
}

// Whether the string at p is the one at q of m bytes: most keys differ in their counts.
fn is_key(b: &[u8], p: usize, q: usize, m: usize) -> bool
    requires { (p ≤ 524288) × (q ≤ 524288) × (m ≡ field (bits b.now) 16 q) }
    ensures { result ≡ same (text_at (bits b.now) p) (text_at (bits b.now) q) }
{
    let n = bits::field(b, p, COUNT) as usize;
    if n != m {
        return false;
    }
    layout::same_text(b, p, q)
}

// The last of the n entries from h on whose key is the string at q of m bytes: one more than its number among them, or 0.
fn last_pair(b: &[u8], ent: &[u64], h: usize, n: usize, q: usize, m: usize) -> usize
    requires { (length b.now ≤ 65536)
        × (2 * (h + n) ≤ length ent.now)
        × KeysStand b.now ent.now h n
        × (q ≤ 524288)
        × (m ≡ field (bits b.now) 16 q) }
    ensures { (s : Bytes)
        → KeyFound s b.now ent.now h n
        (find_last (pairs b.now ent.now (json_of s b.now ent.now) h n)
        (text_at (bits b.now) q)) (pair_at h result) }
{
    for i in (0..n).rev() {
        let p = entries::place(ent, h + i);
        if is_key(b, p, q, m) {
            return i + 1;
        }
    }
    0
}

fn pathless_number(n: u32) -> u32
    ensures { decoded result ≡ pathless (decoded n) }
{
    if n % KINDS == CONTEXT {
        return n + CONTEXT_TO_PLACE;
    }
    n
}

// Where a name is to be looked for in a merged object: its own pairs come before its base. The number of what a pair has, with `PAIR` added, or that of the base,
// which is not merged.
fn inner_number(s: &[u8], b: &[u8], ent: &[u64], v: u32, q: usize, m: usize) -> u64
    requires { (length b.now ≤ 65536)
        × Held s.now b.now ent.now (decoded v)
        × Holds string (bits b.now) q
        × (m ≡ field (bits b.now) 16 q) }
    ensures { Inner s.now b.now ent.now (decoded v)
        (text_at (bits b.now) q) result }
{
    let mut u = v;
    while let Value::Merged(h, n) = value::decode(u) {
        let k = last_pair(b, ent, h, n, q, m);
        if k != 0 {
            let low = entries::low(ent, h + (k - 1));
            return PAIR + (pathless_number(low) as u64);
        }
        u = entries::high(ent, h);
    }
    pathless_number(u) as u64
}

// The same for any value: what is not merged keeps its path.
fn asked_number(s: &[u8], b: &[u8], ent: &[u64], v: u32, q: usize, m: usize) -> u64
    requires { (length b.now ≤ 65536)
        × Held s.now b.now ent.now (decoded v)
        × Holds string (bits b.now) q
        × (m ≡ field (bits b.now) 16 q) }
    ensures { Asked s.now b.now ent.now (decoded v)
        (text_at (bits b.now) q) result }
{
    if MERGED <= v % KINDS {
        return inner_number(s, b, ent, v, q, m);
    }
    v as u64
}

// From the value v along the string at q of m bytes. There is one call only that follows a name from a place, so that the compiler puts it here.
pub fn get_number(s: &[u8], tab: &[u64], b: &[u8], ent: &[u64], v: u32, q: usize, m: usize) -> u64
    requires { Accepted s.now tab.now
        × (length b.now ≤ 65536)
        × Held s.now b.now ent.now (decoded v)
        × Holds string (bits b.now) q
        × (m ≡ field (bits b.now) 16 q) }
    ensures { NumberGot s.now b.now ent.now (decoded v)
        (text_at (bits b.now) q) result }
{
    let u = asked_number(s, b, ent, v, q, m);
    if PAIR <= u {
        return u - PAIR_TO_VALUE;
    }
    let tag = u % WIDE_KINDS;
    if (tag == WIDE_CONTEXT) | (tag == WIDE_PLACE) {
        let r = place_number(s, tab, b, (u / WIDE_KINDS) as usize, q, m);
        return placed_number(r, tag);
    }
    NOT_TOLD
}

// The helper `lookup`

fn item_at(s: &[u8], tab: &[u64], b: &[u8], i: usize, n: Value) -> Option<Value>
    requires { Accepted s.now tab.now
        × (length b.now ≤ 65536)
        × Known s.now b.now n
        × (i < places s.now) }
    ensures { result ≡ placed_at
        (maybe (as_u64 (plain_json s.now b.now n)) none
        (get_elem? (children s.now i))) }
{
    let f = meaning::form_of(s, tab, b, n);
    match f {
        Form::Null => None,
        Form::Boolean(_) => None,
        Form::Unsigned(k) => placed(places::nth(s, tab, i, k as usize)),
        Form::Negative(_) => None,
        Form::String(_) => None,
        Form::List(_) => None,
        Form::Object(_) => None,
        Form::Merged(_, _) => None,
    }
}

fn member_at(s: &[u8], tab: &[u64], b: &[u8], ent: &[u64], v: Value, k: Value) -> Option<Value>
    requires { Accepted s.now tab.now
        × (length b.now ≤ 65536)
        × Held s.now b.now ent.now v
        × Held s.now b.now ent.now k }
    ensures { Finds s.now b.now ent.now v
        (maybe (as_str (json_of s.now b.now ent.now k)) none
        (get_member (base_map (json_of s.now b.now ent.now v)))) result }
{
    let f = meaning::form_of(s, tab, b, k);
    match f {
        Form::Null => None,
        Form::Boolean(_) => None,
        Form::Unsigned(_) => None,
        Form::Negative(_) => None,
        Form::String(t) => get_member(s, tab, b, ent, v, t),
        Form::List(_) => None,
        Form::Object(_) => None,
        Form::Merged(_, _) => None,
    }
}

fn looked_any(s: &[u8], tab: &[u64], b: &[u8], ent: &[u64], v: Value, i: Value) -> Option<Value>
    requires { Accepted s.now tab.now
        × (length b.now ≤ 65536)
        × Held s.now b.now ent.now v
        × Held s.now b.now ent.now i }
    ensures { Finds s.now b.now ent.now v
        (looked_up (json_of s.now b.now ent.now v)
        (json_of s.now b.now ent.now i)) result }
{
    let f = meaning::form_of(s, tab, b, v);
    match f {
        Form::Null => None,
        Form::Boolean(_) => None,
        Form::Unsigned(_) => None,
        Form::Negative(_) => None,
        Form::String(_) => None,
        Form::List(p) => item_at(s, tab, b, p, i),
        Form::Object(_) => member_at(s, tab, b, ent, v, i),
        Form::Merged(_, _) => member_at(s, tab, b, ent, v, i),
    }
}

// By numbers where the second parameter is a string of the bundle and the first an object, as most are.

// What the object at i has under the string at q of m bytes.
fn object_key(s: &[u8], tab: &[u64], b: &[u8], i: usize, q: usize, m: usize) -> u64
    requires { Accepted s.now tab.now
        × (length b.now ≤ 65536)
        × (i < places s.now)
        × Holds string (bits b.now) q
        × (m ≡ field (bits b.now) 16 q) }
    ensures { KeyNumber s.now b.now i (text_at (bits b.now) q) result }
{
    placed_number(place_number(s, tab, b, i, q, m), WIDE_PLACE)
}

// The same of the merged object with n pairs from h on. Its base most often is an object of the plan.
fn merged_key(
    s: &[u8],
    tab: &[u64],
    b: &[u8],
    ent: &[u64],
    h: usize,
    n: usize,
    q: usize,
    m: usize,
) -> u64
    requires { Accepted s.now tab.now
        × (length b.now ≤ 65536)
        × Held s.now b.now ent.now (Merged h n)
        × Holds string (bits b.now) q
        × (m ≡ field (bits b.now) 16 q) }
    ensures { MergedNumber s.now b.now ent.now (Merged h n)
        (text_at (bits b.now) q) result }
{
    let k = last_pair(b, ent, h, n, q, m);
    if k != 0 {
        let low = entries::low(ent, h + (k - 1));
        return VALUE + (pathless_number(low) as u64);
    }
    let u = entries::high(ent, h);
    let tag = u % KINDS;
    if (tag == CONTEXT) | (tag == PLACE) {
        return object_key(s, tab, b, (u / KINDS) as usize, q, m);
    }
    NOT_TOLD
}

// What the value v has under the literal at l.
pub fn keyed_number(s: &[u8], tab: &[u64], b: &[u8], ent: &[u64], v: Value, l: usize) -> u64
    requires { Accepted s.now tab.now
        × (length b.now ≤ 65536)
        × Held s.now b.now ent.now v
        × Holds literal (bits b.now) l }
    ensures { LookedNumber s.now b.now ent.now v l result }
{
    let x = bits::field(b, l, LITERAL_AND_COUNT);
    if x < STRING {
        return NOT_TOLD;
    }
    let m = (x % COUNTS) as usize;
    match v {
        Value::Context(i) => object_key(s, tab, b, i, l + LITERAL, m),
        Value::Place(i) => object_key(s, tab, b, i, l + LITERAL, m),
        Value::Merged(h, n) => merged_key(s, tab, b, ent, h, n, l + LITERAL, m),
        _ => NOT_TOLD,
    }
}

pub fn looked_up(s: &[u8], tab: &[u64], b: &[u8], ent: &[u64], v: Value, i: Value) -> Option<Value>
    requires { Accepted s.now tab.now
        × (length b.now ≤ 65536)
        × Held s.now b.now ent.now v
        × Held s.now b.now ent.now i }
    ensures { Finds s.now b.now ent.now v
        (looked_up (json_of s.now b.now ent.now v)
        (json_of s.now b.now ent.now i)) result }
{
    let Value::Literal(l) = i else {
        return looked_any(s, tab, b, ent, v, i);
    };
    let r = keyed_number(s, tab, b, ent, v, l);
    if r == NOT_TOLD {
        return looked_any(s, tab, b, ent, v, i);
    }
    if r == NOTHING {
        return None;
    }
    Some(value::decode((r - VALUE) as u32))
}
