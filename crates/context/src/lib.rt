// context.rs: where a path leads, from the open scopes on. Nothing is copied: a path is followed segment by segment in the bundle.
#![tactic(auto)]

ghost use Rattle.std.specs.Prelude.{true, false, ◌≡◌, List, ◌++◌, ℕ, ◌-◌, ◌/◌, ◌≤◌, ◌<◌, eqb, length};
ghost use Rattle.rules.specs.Path.{merge_json_path};
ghost use Rattle.rules.specs.Bits.{bits};
ghost use Rattle.rules.specs.Bundle.{string, seg, path};
ghost use Rattle.rules.specs.Error.{got};
ghost use Rattle.rules.specs.Context.{absolute_path, is_lone_name, follow, navigate};
ghost use Rattle.rules.specs.Expand.{evaluate2};
ghost use Rattle.layout.specs.Text.{text_at};
ghost use Rattle.parts.specs.Holds.{Holds, row};
ghost use Rattle.parts.specs.Says.{segments_at, path_at};
ghost use Rattle.places.specs.Accepted.{Accepted};
ghost use Rattle.places.specs.Places.{places, json_at, live_at, path_at as place-path};
ghost use Rattle.value.specs.Numbers.{decoded};
ghost use Rattle.meaning.specs.Meaning.{scoped_of};
ghost use Rattle.meaning.specs.Standing.{Stands};
ghost use Rattle.scope.specs.Scopes.{blocks_of};
ghost use Rattle.scope.specs.Standing.{ScopesStand};
ghost use Rattle.scope.specs.declared.Scope.{Scope};
ghost use Rattle.scope.specs.Names.{Readable, AllReadable};
ghost use Rattle.scope.specs.NameBits.{AllCovered};
ghost use Rattle.lookup.specs.Answers.{Held};
ghost use Rattle.context.specs.Recursive.{looked};
ghost use Rattle.context.specs.Evaluated.{Evaluates, Walked, Quick, found_of, evaluated_of, EvaluatedFits, present, NamedStep, Stepped, stopped};
ghost use Rattle.context.specs.Near.{Near, NearScopes};
ghost use Rattle.context.specs.Start.{FirstIs, Based, NameStarts, Starts, started, Newest, Began, NearFront, name_needs_all, segments_need_all, needs_all, Found, ParamFits, said};

use lookup::Got;
use parts::{Path, Segment};
use scope::Scope;
use value::Value;

// What a path leads to. A value that it leads to is not missing.
#[derive(Clone, Copy)]
pub enum Evaluated {
    Is(Value),
    Nothing,
    BadIndex,
}

// One segment on: the value there, and the next segment.
#[derive(Clone, Copy)]
enum Step {
    On(Value, usize),
    Nothing,
    BadIndex,
}

// A value that is found is not missing: a hash pair whose value is missing stands for null.
fn present(v: Value) -> Value
    ensures { result ≡ present v }
{
    match v {
        Value::Missing => Value::Null,
        w => w,
    }
}

fn named(s: &[u8], tab: &[u64], b: &[u8], ent: &[u64], v: Value, q: usize, next: usize) -> Step
    requires { Accepted s.now tab.now
        × (length b.now ≤ 65536)
        × Held s.now b.now ent.now v
        × Holds string (bits b.now) q }
    ensures { NamedStep s.now b.now ent.now v
        (text_at (bits b.now) q) next result }
{
    let found = lookup::get_data(s, tab, b, ent, v, q);
    match found {
        Got::Is(w) => Step::On(present(w), next),
        Got::Nothing => Step::Nothing,
        Got::BadIndex => Step::BadIndex,
    }
}

// From v along the segment at p; root and up are passed over.
fn along(s: &[u8], tab: &[u64], b: &[u8], ent: &[u64], v: Value, p: usize) -> Step
    requires { Accepted s.now tab.now
        × (length b.now ≤ 65536)
        × Held s.now b.now ent.now v
        × Holds seg (bits b.now) p }
    ensures { Stepped s.now b.now ent.now v p result }
{
    let segment = parts::segment_at(b, p);
    match segment {
        Segment::Named(q, next) => named(s, tab, b, ent, v, q, next),
        Segment::Root(next) => Step::On(v, next),
        Segment::Up(next) => Step::On(v, next),
    }
}

fn stopped(r: Step) -> Evaluated
    ensures { result ≡ stopped r }
{
    match r {
        Step::On(v, _) => Evaluated::Is(v),
        Step::Nothing => Evaluated::Nothing,
        Step::BadIndex => Evaluated::BadIndex,
    }
}

// From v along the names among the n segments at p.
fn walk(s: &[u8], tab: &[u64], b: &[u8], ent: &[u64], v: Value, p: usize, n: usize) -> Evaluated
    requires { Accepted s.now tab.now
        × (length b.now ≤ 65536)
        × Held s.now b.now ent.now v
        × Holds (row seg n) (bits b.now) p }
    ensures { Walked s.now b.now ent.now v p n result }
{
    let mut cur = v;
    let mut at = p;
    for _ in 0..n {
        match along(s, tab, b, ent, cur, at) {
            Step::On(w, next) => {
                cur = w;
                at = next;
            }
            r => return stopped(r),
        }
    }
    Evaluated::Is(cur)
}

// Where a path starts: a value as `value::encode` makes it, and the segments to follow from it, so many. far: where only the front is known, and that does not tell.
#[derive(Clone, Copy)]
struct Start {
    value: u32,
    place: usize,
    left: usize,
    far: bool,
}

fn start_at(value: u32, place: usize, left: usize) -> Start
    ensures { result ≡ started value place left }
{
    Start {
        value,
        place,
        left,
        far: false,
    }
}

fn far_start() -> Start
    ensures { result.far ≡ true }
{
    Start {
        value: 0,
        place: 0,
        left: 0,
        far: true,
    }
}

// By the front alone: the first of the n segments at p is the name at q, and `next` is the place behind it.
fn name_near(
    b: &[u8],
    ent: &[u64],
    front: Scope,
    names: u64,
    p: usize,
    n: usize,
    q: usize,
    next: usize,
) -> Start
    requires { (length b.now ≤ 65536) × Readable b.now ent.now front × FirstIs (bits b.now) p n q next }
    ensures { (result.far ≡ false → (l : List Scope) (used : ℕ)
        → Newest b.now ent.now front names l used
        → NameStarts b.now ent.now l used p n 0 result)
        × (result.far ≡ name_needs_all b.now ent.now front names (text_at (bits b.now) q)) }
{
    if names & scope::name_bit(b, q) == 0 {
        return start_at(front.base, p, n);
    }
    let x = bits::field(b, q, 56);
    let found = scope::own_number(b, ent, front, q, x, scope::spare(x));
    if found != 0 {
        return start_at((found - 1) as u32, next, n - 1);
    }
    far_start()
}

// By the front alone: no ups.
fn begin_near(b: &[u8], ent: &[u64], front: Scope, names: u64, p: usize, n: usize) -> Start
    requires { (length b.now ≤ 65536) × Readable b.now ent.now front × Holds (row seg n) (bits b.now) p }
    ensures { (result.far ≡ false → (l : List Scope) (used : ℕ)
        → Newest b.now ent.now front names l used
        → Starts b.now ent.now l used p n result)
        × (result.far ≡ segments_need_all b.now ent.now front names
        (segments_at n (bits b.now) p)) }
{
    if n == 0 {
        return start_at(front.base, p, 0);
    }
    let segment = parts::segment_at(b, p);
    match segment {
        Segment::Named(q, next) => name_near(b, ent, front, names, p, n, q, next),
        Segment::Root(next) => start_at(5, next, n - 1),
        Segment::Up(_) => far_start(),
    }
}

// By all scopes. Without a block name: from the root, or from the scope that the ups lead to.
fn without_block_param(scopes: [Scope; 32], used: usize, ups: usize, root: bool) -> u32
    requires { (0 < used) × (used ≤ 32) }
    ensures { Based scopes used ups root (decoded result) }
{
    if (ups == 0) & root {
        // the whole plan
        return 5;
    }
    if ups < used {
        let c = scopes[used - 1 - ups];
        return c.base;
    }
    let d = scopes[used - 1];
    d.base
}

// The first of the n segments at p, which stand behind the ups, is the name at q, and `next` is the place behind it.
fn from_name(
    b: &[u8],
    ent: &[u64],
    scopes: [Scope; 32],
    names: u64,
    used: usize,
    p: usize,
    n: usize,
    ups: usize,
    q: usize,
    next: usize,
) -> Start
    requires { (length b.now ≤ 65536)
        × (0 < used)
        × (used ≤ 32)
        × AllReadable b.now ent.now scopes used
        × FirstIs (bits b.now) p n q next
        × AllCovered names b.now ent.now scopes used }
    ensures { NameStarts b.now ent.now scopes used p n ups result }
{
    if names & scope::name_bit(b, q) == 0 {
        return start_at(without_block_param(scopes, used, ups, false), p, n);
    }
    let found = scope::param_number(b, ent, scopes, used, q);
    if found == 0 {
        return start_at(without_block_param(scopes, used, ups, false), p, n);
    }
    start_at((found - 1) as u32, next, n - 1)
}

// The ups in front are counted until a name, the root or the end comes: they lead to a scope, and are not followed.
fn begin_far(
    b: &[u8],
    ent: &[u64],
    scopes: [Scope; 32],
    names: u64,
    used: usize,
    p: usize,
    n: usize,
) -> Start
    requires { (length b.now ≤ 65536)
        × (0 < used)
        × (used ≤ 32)
        × AllReadable b.now ent.now scopes used
        × Holds (row seg n) (bits b.now) p
        × AllCovered names b.now ent.now scopes used }
    ensures { Starts b.now ent.now scopes used p n result }
{
    let mut at = p;
    for ups in 0..n {
        let segment = parts::segment_at(b, at);
        match segment {
            Segment::Named(q, next) => {
                return from_name(b, ent, scopes, names, used, at, n - ups, ups, q, next);
            }
            Segment::Root(next) => {
                return start_at(
                    without_block_param(scopes, used, ups, true),
                    next,
                    n - ups - 1,
                );
            }
            Segment::Up(next) => {
                at = next;
            }
        }
    }
    start_at(without_block_param(scopes, used, n, false), at, 0)
}

// The same as `walk`, with the value as `value::encode` makes it: what most paths meet needs no enum, which would go through memory.

fn slowly(s: &[u8], tab: &[u64], b: &[u8], ent: &[u64], v: u32, p: usize, n: usize) -> Evaluated
    requires { Accepted s.now tab.now
        × (length b.now ≤ 65536)
        × Held s.now b.now ent.now (decoded v)
        × Holds (row seg n) (bits b.now) p }
    ensures { Walked s.now b.now ent.now (decoded v) p n result }
{
    walk(s, tab, b, ent, value::decode(v), p, n)
}

// A value that is found is not missing.
fn present_number(n: u32) -> u32
    ensures { decoded result ≡ present (decoded n) }
{
    if n % 16 == 0 {
        return 1;
    }
    n
}

// 0 where it is not told here, 1 where the path leads nowhere, else two more than the number of what it leads to.
fn quickly(s: &[u8], tab: &[u64], b: &[u8], ent: &[u64], v: u32, p: usize, n: usize) -> u64
    requires { Accepted s.now tab.now
        × (length b.now ≤ 65536)
        × Held s.now b.now ent.now (decoded v)
        × Holds (row seg n) (bits b.now) p }
    ensures { Quick s.now b.now ent.now (decoded v) p n result }
{
    let mut cur = v;
    let mut at = p;
    for _ in 0..n {
        // the kind, and the count of the string that a name is
        let x = bits::field(b, at, 18);
        if 65536 <= x {
            return 0;
        }
        let r = lookup::get_number(s, tab, b, ent, cur, at + 2, x as usize);
        if r <= 1 {
            return r;
        }
        cur = present_number((r - 2) as u32);
        at += 18 + 8 * (x as usize);
    }
    2 + (cur as u64)
}

// Recursive lookup

// A lone name from the place i, else from the places around it; a wrong index is no error there.
fn climb(s: &[u8], tab: &[u64], b: &[u8], ent: &[u64], i: usize, q: usize) -> Value
    requires { Accepted s.now tab.now
        × (length b.now ≤ 65536)
        × (i < places s.now)
        × (live_at s.now i ≡ true)
        × Holds string (bits b.now) q }
    ensures { (looked s.now i (text_at (bits b.now) q) ≡ scoped_of s.now
        b.now ent.now result)
        × ((t : ℕ) → Stands s.now b.now ent.now t result) }
{
    let mut at = i;
    loop {
        let found = lookup::get_data(s, tab, b, ent, Value::Context(at), q);
        if let Got::Is(w) = found {
            return w;
        }
        if at == 0 {
            return Value::Missing;
        }
        at = places::parent(s, tab, at);
    }
}

// From the place i along a lone name, or along none: that is a lone block name, which leads nowhere from the root.
fn alone(s: &[u8], tab: &[u64], b: &[u8], ent: &[u64], i: usize, p: usize, n: usize) -> Value
    requires { Accepted s.now tab.now
        × (length b.now ≤ 65536)
        × (i < places s.now)
        × (live_at s.now i ≡ true)
        × Holds (row seg n) (bits b.now) p
        × (0 < n → is_lone_name (segments_at n (bits b.now) p) ≡ true) }
    ensures { (follow (json_at s.now 0) true
        (absolute_path (place-path s.now i ++ merge_json_path (segments_at n (bits b.now) p)))
        ≡ got (scoped_of s.now b.now ent.now result))
        × ((t : ℕ) → Stands s.now b.now ent.now t result) }
{
    if 0 < n {
        let segment = parts::segment_at(b, p);
        let Segment::Named(q, _) = segment else {
            return Value::Missing;
        };
        return climb(s, tab, b, ent, i, q);
    }
    if i == 0 {
        return Value::Missing;
    }
    Value::Context(i)
}

// Whether the n segments at p are one name.
fn is_lone_name(b: &[u8], p: usize, n: usize) -> bool
    requires { (length b.now ≤ 65536) × Holds (row seg n) (bits b.now) p }
    ensures { result ≡ is_lone_name (segments_at n (bits b.now) p) }
{
    if n != 1 {
        return false;
    }
    let segment = parts::segment_at(b, p);
    match segment {
        Segment::Named(_, _) => true,
        Segment::Root(_) => false,
        Segment::Up(_) => false,
    }
}

// What a path leads to as one number: one more than the value's, or one of these. An enum would go through memory.
const BAD_INDEX: u64 = 0;

const NOTHING: u64 = 1;

fn number_of(x: Evaluated) -> u64
    requires { EvaluatedFits x }
    ensures { (result ≤ 4294967296) × (evaluated_of result ≡ x) }
{
    match x {
        Evaluated::Is(v) => 1 + (value::encode(v) as u64),
        Evaluated::Nothing => NOTHING,
        Evaluated::BadIndex => BAD_INDEX,
    }
}

fn slow_number(s: &[u8], tab: &[u64], b: &[u8], ent: &[u64], v: u32, p: usize, n: usize) -> u64
    requires { Accepted s.now tab.now
        × (length b.now ≤ 65536)
        × Held s.now b.now ent.now (decoded v)
        × Holds (row seg n) (bits b.now) p
        × Near s.now b.now ent.now (decoded v) }
    ensures { (result ≤ 4294967296)
        × Walked s.now b.now ent.now (decoded v) p n (evaluated_of result) }
{
    number_of(slowly(s, tab, b, ent, v, p, n))
}

fn alone_number(s: &[u8], tab: &[u64], b: &[u8], ent: &[u64], v: u32, p: usize, n: usize) -> u64
    requires { Accepted s.now tab.now
        × (length b.now ≤ 65536)
        × (v / 16 < places s.now)
        × (live_at s.now (v / 16) ≡ true)
        × Holds (row seg n) (bits b.now) p
        × (0 < n → is_lone_name (segments_at n (bits b.now) p) ≡ true) }
    ensures { (result ≤ 4294967296)
        × ((t : ℕ)
        → Evaluates s.now b.now ent.now t
        (follow (json_at s.now 0) true
        (absolute_path
        (place-path s.now (v / 16) ++ merge_json_path
        (segments_at n (bits b.now) p)))) (evaluated_of result)) }
{
    1 + (value::encode(alone(s, tab, b, ent, (v / 16) as usize, p, n)) as u64)
}

// Where the segments lead, so many as are left from the place on, which are those of the n at p that are to be followed from the value. Recursive lookup is for a lone
// name from a place of the plan.
fn navigate(
    s: &[u8],
    tab: &[u64],
    b: &[u8],
    ent: &[u64],
    value: u32,
    place: usize,
    left: usize,
    p: usize,
    n: usize,
    recursive: bool,
) -> u64
    requires { Accepted s.now tab.now
        × (length b.now ≤ 65536)
        × Began s.now b.now ent.now p n (started value place left)
        × Holds (row seg n) (bits b.now) p }
    ensures { (result ≤ 4294967296)
        × ((l : List Scope) (used t : ℕ)
        → Starts b.now ent.now l used p n (started value place left)
        → ScopesStand s.now b.now ent.now l used t
        → Evaluates s.now b.now ent.now t
        (navigate (json_at s.now 0) (segments_at n (bits b.now) p)
        (blocks_of s.now b.now ent.now l used) recursive)
        (evaluated_of result)) }
{
    if recursive {
        if is_lone_name(b, p, n) {
            // a place of the plan
            if value % 16 == 5 {
                return alone_number(s, tab, b, ent, value, place, left);
            }
        }
    }
    let r = quickly(s, tab, b, ent, value, place, left);
    if r == 0 {
        return slow_number(s, tab, b, ent, value, place, left);
    }
    if r == 1 {
        return NOTHING;
    }
    r - 1
}

fn local_number(x: Option<Value>) -> u64
    requires { ParamFits x }
    ensures { (result ≤ 4294967296) × (evaluated_of result ≡ said x) }
{
    match x {
        Some(w) => 1 + (value::encode(w) as u64),
        None => NOTHING,
    }
}

// Where the front alone does not tell what a path leads to.
pub const FAR: u64 = 4294967297;

// What the path at the bit place p leads to, as one number, by the front alone. That does not tell for a local variable of another scope, for a path that starts with
// an up, and for a first name that may be a block name (it is in the set) and is none of the front.
pub fn evaluate_near(
    s: &[u8],
    tab: &[u64],
    b: &[u8],
    ent: &[u64],
    front: Scope,
    names: u64,
    recursive: bool,
    p: usize,
) -> u64
    requires { Accepted s.now tab.now
        × (length b.now ≤ 65536)
        × NearFront s.now b.now ent.now front names
        × Holds path (bits b.now) p }
    ensures { (result ≤ 4294967297)
        × ((result ≡ 4294967297 → ⊥) → (l : List Scope) (used : ℕ)
        → Newest b.now ent.now front names l used
        → Found s.now b.now ent.now l used recursive p (evaluated_of result))
        × (eqb result 4294967297 ≡ needs_all b.now ent.now front names (path_at (bits b.now) p)) }
{
    let path = parts::path_at(b, p);
    match path {
        Path::Relative(n, q) => {
            let from = begin_near(b, ent, front, names, q, n as usize);
            if from.far {
                return FAR;
            }
            navigate(
                s, tab, b, ent, from.value, from.place, from.left, q, n as usize, recursive,
            )
        }
        Path::Local(level, q) => {
            if level != 0 {
                return FAR;
            }
            local_number(scope::local_variable(b, front, q))
        }
    }
}

// The same by all scopes.
pub fn evaluate_far(
    s: &[u8],
    tab: &[u64],
    b: &[u8],
    ent: &[u64],
    scopes: [Scope; 32],
    names: u64,
    used: usize,
    recursive: bool,
    p: usize,
) -> u64
    requires { Accepted s.now tab.now
        × (length b.now ≤ 65536)
        × (0 < used)
        × (used ≤ 32)
        × NearScopes s.now b.now ent.now scopes used
        × Holds path (bits b.now) p
        × AllCovered names b.now ent.now scopes used }
    ensures { (result ≤ 4294967296)
        × Found s.now b.now ent.now scopes used recursive p (evaluated_of result) }
{
    let path = parts::path_at(b, p);
    match path {
        Path::Relative(n, q) => {
            let from = begin_far(b, ent, scopes, names, used, q, n as usize);
            navigate(
                s, tab, b, ent, from.value, from.place, from.left, q, n as usize, recursive,
            )
        }
        Path::Local(level, q) => {
            let k = level as usize;
            if used <= k {
                return NOTHING;
            }
            let c = scopes[used - 1 - k];
            local_number(scope::local_variable(b, c, q))
        }
    }
}

// Missing is what a path leads to that leads nowhere.
fn found_of(v: Value) -> Evaluated
    ensures { result ≡ found_of v }
{
    match v {
        Value::Missing => Evaluated::Nothing,
        w => Evaluated::Is(w),
    }
}

pub fn answer_of(r: u64) -> Evaluated
    requires { r ≤ 4294967296 }
    ensures { result ≡ evaluated_of r }
{
    if r == BAD_INDEX {
        return Evaluated::BadIndex;
    }
    found_of(value::decode((r - 1) as u32))
}

// A set in which each name is
const ALL_NAMES: u64 = 18446744073709551615;

// The same as an enum, without a set of names.
pub fn evaluate2(
    s: &[u8],
    tab: &[u64],
    b: &[u8],
    ent: &[u64],
    scopes: [Scope; 32],
    used: usize,
    recursive: bool,
    p: usize,
) -> Evaluated
    requires { Accepted s.now tab.now
        × (length b.now ≤ 65536)
        × (0 < used)
        × (used ≤ 32)
        × NearScopes s.now b.now ent.now scopes used
        × Holds path (bits b.now) p }
    ensures { Found s.now b.now ent.now scopes used recursive p result }
{
    answer_of(evaluate_far(s, tab, b, ent, scopes, ALL_NAMES, used, recursive, p))
}
