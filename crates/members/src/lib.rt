// The members of a value that is taken as an object: how many there are, and one by one by ascending name.
#![tactic(auto)]

ghost use Rattle.std.specs.Prelude.{◌≡◌, ◌+◌, ◌*◌, ◌≤◌, ◌<◌, length};
ghost use Rattle.rules.specs.Bytes.{before};
ghost use Rattle.rules.specs.Bits.{bits};
ghost use Rattle.rules.specs.Bundle.{string};
ghost use Rattle.rules.specs.Json.{jstr, jarr, jobj, get_member, count};
ghost use Rattle.rules.specs.Context.{base_map};
ghost use Rattle.layout.specs.Text.{text_at};
ghost use Rattle.merging.specs.Counting.{one_if_new, lacking};
ghost use Rattle.merging.specs.Order.{is_above, above, first_of, least};
ghost use Rattle.chars.specs.Spelled.{Spelled};
ghost use Rattle.parts.specs.Holds.{Holds};
ghost use Rattle.places.specs.Accepted.{Accepted};
ghost use Rattle.places.specs.Places.{places, json_at};
ghost use Rattle.places.specs.Kinds.{items_of, members_of};
ghost use Rattle.text.specs.Rest.{rest};
ghost use Rattle.value.specs.declared.Value.TheVariants.{Merged};
ghost use Rattle.meaning.specs.Entries.{place};
ghost use Rattle.meaning.specs.Meaning.{plain_json, pairs, json_of};
ghost use Rattle.meaning.specs.Standing.{KeysStand};
ghost use Rattle.lookup.specs.Answers.{Held, PlainHeld};
ghost use Rattle.members.specs.Parts.{Parts};
ghost use Rattle.members.specs.Next.{by_value, key_name, KeyHeld, after_name, Keyed, shown, PlainNext, PairItem, MemberHas, MemberHeld, combined, nearer_of};

use meaning::Form;
use text::Text;
use value::Value;

// How many members a value has that is not merged.
fn plain_count(s: &[u8], tab: &[u64], b: &[u8], v: Value) -> usize
    requires { Accepted s.now tab.now × (length b.now ≤ 65536) × PlainHeld s.now b.now v }
    ensures { (result ≡ count (base_map (plain_json s.now b.now v))) × (result ≤ 65536) }
{
    let f = meaning::form_of(s, tab, b, v);
    match f {
        Form::Null => 0,
        Form::Boolean(_) => 0,
        Form::Unsigned(_) => 0,
        Form::Negative(_) => 0,
        Form::String(_) => chars::char_count(s, b, lookup::string_text(s, tab, b, v)),
        Form::List(i) => places::len(s, tab, i),
        Form::Object(i) => places::members(s, tab, i),
        Form::Merged(_, _) => 0,
    }
}

// 1 where the base has no member under the key of the entry e.
fn is_new(s: &[u8], tab: &[u64], b: &[u8], ent: &[u64], base: Value, e: usize) -> usize
    requires { Accepted s.now tab.now × (length b.now ≤ 65536) × Held s.now b.now ent.now base × (2 * e + 1 < length ent.now) × Holds string (bits b.now) (place ent.now e) }
    ensures { (result ≡ one_if_new (get_member (base_map (json_of s.now b.now ent.now base)) (text_at (bits b.now) (place ent.now e)))) × (result ≤ 1) }
{
    let key = lookup::text_of(s, b, entries::place(ent, e));
    match lookup::get_member(s, tab, b, ent, base, key) {
        Some(_) => 0,
        None => 1,
    }
}

// How many of the n hash pairs from h on have a name that the base does not have.
fn lacking(s: &[u8], tab: &[u64], b: &[u8], ent: &[u64], base: Value, h: usize, n: usize) -> usize
    requires { Accepted s.now tab.now × (length b.now ≤ 65536) × Held s.now b.now ent.now base × (2 * (h + n) ≤ length ent.now) × KeysStand b.now ent.now h n }
    ensures { (result ≡ lacking (pairs b.now ent.now (json_of s.now b.now ent.now) h n) (base_map (json_of s.now b.now ent.now base))) × (result ≤ n) }
{
    let mut r = 0;
    for k in 0..n {
        r += is_new(s, tab, b, ent, base, h + k);
    }
    r
}

// How many members a value has where it is taken as an object.
pub fn member_count(s: &[u8], tab: &[u64], b: &[u8], ent: &[u64], v: Value) -> usize
    requires { Accepted s.now tab.now × (length b.now ≤ 65536) × Held s.now b.now ent.now v }
    ensures { (result ≡ count (base_map (json_of s.now b.now ent.now v))) × (result ≤ 65536) }
{
    let mut u = v;
    let mut n = 0;
    while let Value::Merged(h, m) = u {
        u = value::decode(entries::high(ent, h));
        n += lacking(s, tab, b, ent, u, h, m);
    }
    n + plain_count(s, tab, b, u)
}

// The same where the base is the object at i of the plan, as most are: by numbers, since values would go through memory.

// 1 where it has no member under the string at q.
fn new_in(s: &[u8], tab: &[u64], b: &[u8], i: usize, q: usize) -> usize
    requires { Accepted s.now tab.now × (length b.now ≤ 65536) × (i < places s.now) × (json_at s.now i ≡ jobj (members_of (json_at s.now i))) × Holds string (bits b.now) q }
    ensures { (result ≡ one_if_new (get_member (base_map (json_at s.now i)) (text_at (bits b.now) q))) × (result ≤ 1) }
{
    let m = bits::field(b, q, 16) as usize;
    if places::member_number(s, tab, i, b, q + 16, m) == 0 {
        return 1;
    }
    0
}

fn object_lacking(
    s: &[u8],
    tab: &[u64],
    b: &[u8],
    ent: &[u64],
    i: usize,
    h: usize,
    n: usize,
) -> usize
    requires { Accepted s.now tab.now × (length b.now ≤ 65536) × (i < places s.now) × (json_at s.now i ≡ jobj (members_of (json_at s.now i))) × (2 * (h + n) ≤ length ent.now) × KeysStand b.now ent.now h n }
    ensures { (result ≡ lacking (pairs b.now ent.now (json_of s.now b.now ent.now) h n) (base_map (json_at s.now i))) × (result ≤ n) }
{
    let mut r = 0;
    for k in 0..n {
        r += new_in(s, tab, b, i, entries::place(ent, h + k));
    }
    r
}

// How many members the merged object with n hash pairs from h on has. Limit 22 goes by this number, so only its parts are known to stand.

fn any_count(s: &[u8], tab: &[u64], b: &[u8], ent: &[u64], h: usize, n: usize) -> usize
    requires { Accepted s.now tab.now × (length b.now ≤ 65536) × Parts s.now b.now ent.now h n }
    ensures { result ≡ count (base_map (json_of s.now b.now ent.now (Merged h n))) }
{
    let base = value::decode(entries::high(ent, h));
    let new = lacking(s, tab, b, ent, base, h, n);
    new + member_count(s, tab, b, ent, base)
}

pub fn merged_count(s: &[u8], tab: &[u64], b: &[u8], ent: &[u64], h: usize, n: usize) -> usize
    requires { Accepted s.now tab.now × (length b.now ≤ 65536) × Parts s.now b.now ent.now h n }
    ensures { result ≡ count (base_map (json_of s.now b.now ent.now (Merged h n))) }
{
    // places are told by the last four bits
    let u = entries::high(ent, h);
    let tag = u % 16;
    if (tag == 5) | (tag == 6) {
        let i = (u / 16) as usize;
        if places::is_object(s, tab, i) {
            let new = object_lacking(s, tab, b, ent, i, h, n);
            return new + places::members(s, tab, i);
        }
    }
    any_count(s, tab, b, ent, h, n)
}

// Members by ascending name

// The same as the rules hold it by value.
fn by_value(v: Value) -> Value
    ensures { result ≡ by_value v }
{
    match v {
        Value::Missing => Value::Null,
        Value::Context(i) => Value::Place(i),
        _ => v,
    }
}

// Whether the name k is before the name l.
fn is_before(s: &[u8], tab: &[u64], b: &[u8], k: Value, l: Value) -> bool
    requires { Accepted s.now tab.now × (length b.now ≤ 65536) × KeyHeld s.now b.now k × KeyHeld s.now b.now l }
    ensures { result ≡ before (key_name s.now b.now k) (key_name s.now b.now l) }
{
    let t = lookup::string_text(s, tab, b, k);
    let u = lookup::string_text(s, tab, b, l);
    text::compare(s, b, t, u).is_lt()
}

// Whether the name k stands behind the one of `after`, where there is one.
fn is_above(s: &[u8], tab: &[u64], b: &[u8], after: Option<(Value, Value)>, k: Value) -> bool
    requires { Accepted s.now tab.now × (length b.now ≤ 65536) × Keyed s.now b.now after × KeyHeld s.now b.now k }
    ensures { result ≡ is_above (after_name s.now b.now after) (key_name s.now b.now k) }
{
    let Some((l, _)) = after else {
        return true;
    };
    is_before(s, tab, b, l, k)
}

// The one of the lesser name: of equal names the outer one.
fn combine(
    s: &[u8],
    tab: &[u64],
    b: &[u8],
    outer: Option<(Value, Value)>,
    inner: Option<(Value, Value)>,
) -> Option<(Value, Value)>
    requires { Accepted s.now tab.now × (length b.now ≤ 65536) × Keyed s.now b.now outer × Keyed s.now b.now inner }
    ensures { result ≡ combined s.now b.now outer inner }
{
    let Some((k, _)) = outer else {
        return inner;
    };
    let Some((l, _)) = inner else {
        return outer;
    };
    if is_before(s, tab, b, l, k) {
        return inner;
    }
    outer
}

// The member of that name and value where it is nearer to `after` than the best one so far, or replaces it.
fn nearer(
    s: &[u8],
    tab: &[u64],
    b: &[u8],
    after: Option<(Value, Value)>,
    k: Value,
    v: Value,
    best: Option<(Value, Value)>,
) -> Option<(Value, Value)>
    requires { Accepted s.now tab.now × (length b.now ≤ 65536) × Keyed s.now b.now after × KeyHeld s.now b.now k × Keyed s.now b.now best }
    ensures { result ≡ nearer_of s.now b.now (after_name s.now b.now after) k v best }
{
    if is_above(s, tab, b, after, k) {
        return combine(s, tab, b, Some((k, v)), best);
    }
    best
}

// Of the n hash pairs from h on that with the least name behind `after`.
fn least_pair(
    s: &[u8],
    tab: &[u64],
    b: &[u8],
    ent: &[u64],
    h: usize,
    n: usize,
    after: Option<(Value, Value)>,
) -> Option<(Value, Value)>
    requires { Accepted s.now tab.now × (length b.now ≤ 65536) × (2 * (h + n) ≤ length ent.now) × KeysStand b.now ent.now h n × Keyed s.now b.now after }
    ensures { (shown s.now b.now (json_of s.now b.now ent.now) result ≡ least (after_name s.now b.now after) (pairs b.now ent.now (json_of s.now b.now ent.now) h n)) × MemberHas s.now b.now (PairItem ent.now h n) result }
{
    let mut best = None;
    for k in 0..n {
        let key = Value::Text(entries::place(ent, h + k));
        let item = by_value(value::decode(entries::low(ent, h + k)));
        best = nearer(s, tab, b, after, key, item, best);
    }
    best
}

// The item of the list at i with the least decimal name behind `after`.
fn least_item(
    s: &[u8],
    tab: &[u64],
    b: &[u8],
    i: usize,
    after: Option<(Value, Value)>,
) -> Option<(Value, Value)>
    requires { Accepted s.now tab.now × (length b.now ≤ 65536) × (i < places s.now) × (json_at s.now i ≡ jarr (items_of (json_at s.now i))) × Keyed s.now b.now after }
    ensures { PlainNext s.now b.now (json_at s.now i) (after_name s.now b.now after) result }
{
    let mut n = 0;
    let mut best = None;
    let mut at = places::first(s, tab, i);
    while let Some(c) = at {
        best = nearer(s, tab, b, after, Value::IndexText(n), Value::Place(c), best);
        at = places::next(s, tab, i, c);
        n += 1;
    }
    best
}

// The member of the object at i with the least name behind `after`: of equal names the last one.
fn least_member(
    s: &[u8],
    tab: &[u64],
    b: &[u8],
    i: usize,
    after: Option<(Value, Value)>,
) -> Option<(Value, Value)>
    requires { Accepted s.now tab.now × (length b.now ≤ 65536) × (i < places s.now) × (json_at s.now i ≡ jobj (members_of (json_at s.now i))) × Keyed s.now b.now after }
    ensures { PlainNext s.now b.now (json_at s.now i) (after_name s.now b.now after) result }
{
    let mut best = None;
    let mut at = places::first(s, tab, i);
    while let Some(c) = at {
        let key = Value::Name(places::name(s, tab, c));
        best = nearer(s, tab, b, after, key, Value::Place(c), best);
        at = places::next(s, tab, i, c);
    }
    best
}

// The character of the text t with the least decimal name behind `after`.
fn least_char(
    s: &[u8],
    tab: &[u64],
    b: &[u8],
    t: Text,
    after: Option<(Value, Value)>,
) -> Option<(Value, Value)>
    requires { Accepted s.now tab.now × (length b.now ≤ 65536) × Spelled s.now b.now t × Keyed s.now b.now after }
    ensures { PlainNext s.now b.now (jstr (rest s.now b.now t)) (after_name s.now b.now after) result }
{
    let mut n = 0;
    let mut best = None;
    let mut u = t;
    while let Some((v, w)) = chars::next_char(s, b, u) {
        best = nearer(s, tab, b, after, Value::IndexText(n), by_value(v), best);
        u = w;
        n += 1;
    }
    best
}

// The next member behind `after` of a value that is not merged.
fn plain_next(
    s: &[u8],
    tab: &[u64],
    b: &[u8],
    v: Value,
    after: Option<(Value, Value)>,
) -> Option<(Value, Value)>
    requires { Accepted s.now tab.now × (length b.now ≤ 65536) × PlainHeld s.now b.now v × Keyed s.now b.now after }
    ensures { PlainNext s.now b.now (plain_json s.now b.now v) (after_name s.now b.now after) result }
{
    let f = meaning::form_of(s, tab, b, v);
    match f {
        Form::Null => None,
        Form::Boolean(_) => None,
        Form::Unsigned(_) => None,
        Form::Negative(_) => None,
        Form::String(_) => least_char(s, tab, b, lookup::string_text(s, tab, b, v), after),
        Form::List(i) => least_item(s, tab, b, i, after),
        Form::Object(i) => least_member(s, tab, b, i, after),
        Form::Merged(_, _) => None,
    }
}

// The member of a value taken as an object with the least name behind that of `after`, by its name and its value, which has no path;
// the least of all where there is none. In a merged object a hash pair stands before a member of the same name of its base.
// (A scan, so that walking n members takes n * n comparisons.)
pub fn next_member(
    s: &[u8],
    tab: &[u64],
    b: &[u8],
    ent: &[u64],
    v: Value,
    after: Option<(Value, Value)>,
) -> Option<(Value, Value)>
    requires { Accepted s.now tab.now × (length b.now ≤ 65536) × Held s.now b.now ent.now v × Keyed s.now b.now after }
    ensures { (shown s.now b.now (json_of s.now b.now ent.now) result ≡ first_of (above (after_name s.now b.now after) (base_map (json_of s.now b.now ent.now v)))) × MemberHeld s.now b.now ent.now v result }
{
    let mut u = v;
    let mut best = None;
    while let Value::Merged(h, n) = u {
        best = combine(s, tab, b, best, least_pair(s, tab, b, ent, h, n, after));
        u = value::decode(entries::high(ent, h));
    }
    combine(s, tab, b, best, plain_next(s, tab, b, u, after))
}
