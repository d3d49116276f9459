// render.rs: `Parameter`, `Helper::try_from_template` and `call_helper_for_value`. What a parameter stands for is worked out in the bundle, as it is called.
// d is the number of depths left, a parameter's own included; s is the plan, ent holds the entries of open partials.
#![tactic(auto)]

ghost use Rattle.std.specs.Prelude.{true, false, ◌≡◌, List, ℕ, ◌+◌, ◌≤◌, ◌<◌, eqb, length};
ghost use Rattle.rules.specs.Bytes.{pick, same};
ghost use Rattle.rules.specs.Bits.{bits};
ghost use Rattle.rules.specs.Layout.{field, ◌then◌};
ghost use Rattle.rules.specs.Bundle.{string, path, param, call_of};
ghost use Rattle.rules.specs.Value.{render};
ghost use Rattle.rules.specs.State.{RenderContext};
ghost use Rattle.rules.specs.Registry.{Registry, get_helper, HelperDef.with, HelperDef.lookup};
ghost use Rattle.rules.specs.Expand as rules;
ghost use Rattle.layout.specs.Text.{text_at};
ghost use Rattle.parts.specs.Holds.{Holds, row};
ghost use Rattle.parts.specs.Says.{path_at};
ghost use Rattle.calls.specs.Calls.{param_at, call_at, params_at, hash_at};
ghost use Rattle.places.specs.Accepted.{Accepted};
ghost use Rattle.text.specs.Rest.{rest, Stands};
ghost use Rattle.meaning.specs.Forms.{Known};
ghost use Rattle.meaning.specs.Means.{Means};
ghost use Rattle.context.specs.Evaluated.{present};
ghost use Rattle.expand.specs.Answers.{Setting, Expands, Names, ExpandsAll, ExpandsHash, IsTemplate, ExpandedHeld, helper_of, may_name, written, in_scope, unless_strict, Calls, Finishes, joined, gathered, bare, with_one, zero_or, GotKnown, Paired, packed};
ghost use Rattle.expand.specs.WithoutHash.{without_hash};
ghost use Rattle.context.specs.Near.{NearScopes};

use calls::{Parameter, Short};
use context::Evaluated;
use error::RenderErrorReason;
use meaning::Form;
use scope::Scope;
use text::Text;
use value::Value;

#[derive(Clone, Copy)]
pub struct Options {
    pub strict: bool,
    pub recursive_lookup: bool,
    // guide truth (added)
    pub guide_truth: bool,
}

// What `Helper::try_from_template` works out.
#[derive(Clone, Copy)]
pub struct Expanded {
    // the name is what this prints
    pub name: Value,
    // how many parameters, and the first two
    pub count: usize,
    pub first: Value,
    pub second: Value,
    // whether the hash value includeZero is the boolean true
    pub zero: bool,
    // why it is refused, if it is
    pub bad: Option<RenderErrorReason>,
}

#[derive(Clone, Copy)]
struct Params {
    first: Value,
    second: Value,
    bad: Option<RenderErrorReason>,
}

#[derive(Clone, Copy)]
struct Hash {
    zero: bool,
    bad: Option<RenderErrorReason>,
}

// Helpers, called for their value

#[derive(Clone, Copy)]
pub enum HelperDef {
    Each,
    With,
    If,
    Unless,
    Lookup,
    Unknown,
}

// A helper, where a text is its name.
fn if_named(s: &[u8], b: &[u8], t: Text, name: &[u8], helper: HelperDef) -> HelperDef
    requires { (length s.now ≤ 65536) × Stands s.now b.now t }
    ensures { result ≡ pick (same (rest s.now b.now t) name.now) helper
        HelperDef.Unknown }
{
    if text::is(s, b, t, name) {
        return helper;
    }
    HelperDef::Unknown
}

// The helper whose name a text is. No two names start with the same byte.
fn named_helper(s: &[u8], b: &[u8], t: Text) -> HelperDef
    requires { (length s.now ≤ 65536) × Stands s.now b.now t }
    ensures { result ≡ helper_of (get_helper (rest s.now b.now t)) }
{
    let Some((c, u)) = text::next(s, b, t) else {
        return HelperDef::Unknown;
    };
    if c == b'e' {
        return if_named(s, b, t, b"each", HelperDef::Each);
    }
    if c == b'w' {
        return if_named(s, b, t, b"with", HelperDef::With);
    }
    if c == b'i' {
        return if_named(s, b, t, b"if", HelperDef::If);
    }
    if c == b'u' {
        return if_named(s, b, t, b"unless", HelperDef::Unless);
    }
    if c == b'l' {
        return if_named(s, b, t, b"lookup", HelperDef::Lookup);
    }
    HelperDef::Unknown
}

// The bytes of a name as one number, the first the most significant. (The compiler works it out where the name is fixed.)
pub fn packed(t: &[u8]) -> u64
    requires { length t.now ≤ 6 }
    ensures { result ≡ packed t.now }
{
    let mut x: u64 = 0;
    for &c in t {
        x = x * 256 + c as u64;
    }
    x
}

// A helper, where the w bits of the string at p, behind its count, are x: those of its name.
fn if_bits(b: &[u8], p: usize, w: usize, x: u64, helper: HelperDef) -> HelperDef
    requires { (p ≤ 524288) × (w ≤ 64) }
    ensures { result ≡ pick (eqb (field (bits b.now) w (p + 16)) x) helper HelperDef.Unknown }
{
    if bits::field(b, p + 16, w) == x {
        return helper;
    }
    HelperDef::Unknown
}

// The helper whose name the string at p is. Its first 24 bits are its count and first byte, and few strings have those of a name.
pub fn helper_at(b: &[u8], p: usize) -> HelperDef
    requires { p ≤ 524288 }
    ensures { result ≡ helper_of (get_helper (text_at (bits b.now) p)) }
{
    let x = bits::field(b, p, 24);
    if x == names::head(b"each") {
        return if_bits(b, p, 32, packed(b"each"), HelperDef::Each);
    }
    if x == names::head(b"with") {
        return if_bits(b, p, 32, packed(b"with"), HelperDef::With);
    }
    if x == names::head(b"if") {
        return if_bits(b, p, 16, packed(b"if"), HelperDef::If);
    }
    if x == names::head(b"unless") {
        return if_bits(b, p, 48, packed(b"unless"), HelperDef::Unless);
    }
    if x == names::head(b"lookup") {
        return if_bits(b, p, 48, packed(b"lookup"), HelperDef::Lookup);
    }
    HelperDef::Unknown
}

// Whether the string at p may be the name of a helper: whether its count and first byte are those of one.
// Where few are, to ask this before `helper_at` costs less than to ask that alone.
pub fn may_name(b: &[u8], p: usize) -> bool
    ensures { result ≡ may_name (field (bits b.now) 24 p) }
{
    let x = bits::field(b, p, 24);
    (x == names::head(b"each"))
        | (x == names::head(b"with"))
        | (x == names::head(b"if"))
        | (x == names::head(b"unless"))
        | (x == names::head(b"lookup"))
}

// The helper whose name a value prints. Only a string prints one.
pub fn get_helper(s: &[u8], tab: &[u64], b: &[u8], v: Value) -> HelperDef
    requires { Accepted s.now tab.now × (length b.now ≤ 65536) × Known s.now b.now v }
    ensures { Means s.now b.now v (λ j. result ≡ helper_of (get_helper (render j))) }
{
    if let Value::Text(p) = v {
        return helper_at(b, p);
    }
    let Form::String(t) = meaning::form_of(s, tab, b, v) else {
        return HelperDef::Unknown;
    };
    named_helper(s, b, t)
}

// each, if and unless write nothing, for they have no bodies here.
fn written(count: usize) -> Result<Value, RenderErrorReason>
    ensures { result ≡ written count }
{
    if count == 0 {
        return Err(RenderErrorReason::ParamNotFoundForIndex);
    }
    Ok(Value::Empty)
}

fn unless_strict(strict: bool, v: Value) -> Result<Value, RenderErrorReason>
    ensures { result ≡ unless_strict strict v }
{
    if strict {
        return Err(RenderErrorReason::MissingVariable);
    }
    Ok(v)
}

// What is found is not missing.
fn present(v: Value) -> Value
    ensures { result ≡ present v }
{
    match v {
        Value::Missing => Value::Null,
        w => w,
    }
}

// Under one more scope, if there may be one.
fn in_scope(used: usize) -> Result<Value, RenderErrorReason>
    ensures { result ≡ in_scope used }
{
    if used < 32 {
        return Ok(Value::Empty);
    }
    Err(RenderErrorReason::ScopesLimit)
}

fn with_value(
    s: &[u8],
    tab: &[u64],
    b: &[u8],
    used: usize,
    options: Options,
    w: Expanded,
) -> Result<Value, RenderErrorReason>
    requires { Accepted s.now tab.now × (length b.now ≤ 65536) × Known s.now b.now w.first }
    ensures { (ent : List ℕ) → Calls s.now b.now ent used options w
        (λ g st e. rules.call_helper_for_value g st with e) result }
{
    if w.count == 0 {
        return Err(RenderErrorReason::ParamNotFoundForIndex);
    }
    let v = w.first;
    if meaning::is_truthy(s, tab, b, v, false) {
        return in_scope(used);
    }
    unless_strict(options.strict, Value::Empty)
}

fn lookup_value(
    s: &[u8],
    tab: &[u64],
    b: &[u8],
    ent: &[u64],
    used: usize,
    options: Options,
    w: Expanded,
) -> Result<Value, RenderErrorReason>
    requires { Accepted s.now tab.now × (length b.now ≤ 65536) × ExpandedHeld s.now b.now ent.now w }
    ensures { Calls s.now b.now ent.now used options w
        (λ g st e. rules.call_helper_for_value g st lookup e) result }
{
    if w.count < 2 {
        return Err(RenderErrorReason::ParamNotFoundForIndex);
    }
    let v = w.first;
    let i = w.second;
    let found = lookup::looked_up(s, tab, b, ent, v, i);
    match found {
        Some(x) => Ok(present(x)),
        None => unless_strict(options.strict, Value::Null),
    }
}

// The value of the helper that w names.
pub fn called(
    s: &[u8],
    tab: &[u64],
    b: &[u8],
    ent: &[u64],
    used: usize,
    options: Options,
    w: Expanded,
) -> Result<Value, RenderErrorReason>
    requires { Accepted s.now tab.now × (length b.now ≤ 65536) × ExpandedHeld s.now b.now ent.now w }
    ensures { Calls s.now b.now ent.now used options w
        (λ g st e. rules.called g st e) result }
{
    let n = w.name;
    let h = get_helper(s, tab, b, n);
    match h {
        HelperDef::Each => written(w.count),
        HelperDef::With => with_value(s, tab, b, used, options, w),
        HelperDef::If => written(w.count),
        HelperDef::Unless => written(w.count),
        HelperDef::Lookup => lookup_value(s, tab, b, ent, used, options, w),
        HelperDef::Unknown => Err(RenderErrorReason::HelperNotFound),
    }
}

// The same where working it out may have been refused.
fn finished(
    s: &[u8],
    tab: &[u64],
    b: &[u8],
    ent: &[u64],
    used: usize,
    options: Options,
    w: Expanded,
) -> Result<Value, RenderErrorReason>
    requires { Accepted s.now tab.now × (length b.now ≤ 65536)
        × (w.bad ≡ None → ExpandedHeld s.now b.now ent.now w) }
    ensures { Finishes s.now b.now ent.now used options w result }
{
    match w.bad {
        None => called(s, tab, b, ent, used, options, w),
        Some(e) => Err(e),
    }
}

// Parts of a call

pub fn path_value(
    s: &[u8],
    tab: &[u64],
    b: &[u8],
    ent: &[u64],
    scopes: [Scope; 32],
    used: usize,
    options: Options,
    p: usize,
) -> Result<Value, RenderErrorReason>
    requires { Accepted s.now tab.now × (length b.now ≤ 65536) × (0 < used) × (used ≤ 32)
        × NearScopes s.now b.now ent.now scopes used × Holds path (bits b.now) p }
    ensures { (g : Registry) (st : RenderContext) (t : ℕ)
        → Setting s.now b.now ent.now scopes used options g st t
        → Expands s.now b.now ent.now t
        (rules.evaluate2 g st (path_at (bits b.now) p)) result }
{
    let found = context::evaluate2(s, tab, b, ent, scopes, used, options.recursive_lookup, p);
    if let Evaluated::BadIndex = found {
        return Err(RenderErrorReason::InvalidJsonIndex);
    }
    // a path that leads nowhere
    let Evaluated::Is(v) = found else {
        return Ok(Value::Missing);
    };
    Ok(v)
}

// A parameter's value in front of those behind it.
fn joined(r: Result<Value, RenderErrorReason>, rest: Params) -> Params
    ensures { result ≡ joined r rest }
{
    match r {
        Ok(v) => {
            let w = rest.first;
            Params {
                first: v,
                second: w,
                bad: rest.bad,
            }
        }
        Err(e) => Params {
            first: Value::Missing,
            second: Value::Missing,
            bad: Some(e),
        },
    }
}

// Whether includeZero is true: by the pair whose key stands at p and whose value is v, or else by the pairs behind it.
fn zero_or(s: &[u8], tab: &[u64], b: &[u8], p: usize, v: Value, later: bool) -> bool
    requires { Accepted s.now tab.now × (length b.now ≤ 65536) × (p ≤ 524288) × Known s.now b.now v }
    ensures { Means s.now b.now v
        (λ j. result ≡ zero_or (text_at (bits b.now) p) later j) }
{
    if parts::text_is(b, p, b"includeZero") {
        return meaning::as_bool(s, tab, b, v);
    }
    later
}

// A pair in front of those behind it.
fn paired(
    s: &[u8],
    tab: &[u64],
    b: &[u8],
    p: usize,
    r: Result<Value, RenderErrorReason>,
    rest: Hash,
) -> Hash
    requires { Accepted s.now tab.now × (length b.now ≤ 65536) × (p ≤ 524288) × GotKnown s.now b.now r }
    ensures { Paired s.now b.now p r rest result }
{
    match r {
        Ok(v) => Hash {
            zero: zero_or(s, tab, b, p, v, rest.zero),
            bad: rest.bad,
        },
        Err(e) => Hash {
            zero: false,
            bad: Some(e),
        },
    }
}

// A name, the first of n parameters, and the hash.
fn gathered(name: Result<Value, RenderErrorReason>, n: u64, ps: Params, hs: Hash) -> Expanded
    ensures { result ≡ gathered name n ps hs }
{
    match name {
        Ok(v) => {
            let first = ps.first;
            let second = ps.second;
            Expanded {
                name: v,
                count: n as usize,
                first: first,
                second: second,
                zero: hs.zero,
                bad: ps.bad.or(hs.bad),
            }
        }
        Err(e) => Expanded {
            name: Value::Missing,
            count: 0,
            first: Value::Missing,
            second: Value::Missing,
            zero: false,
            bad: Some(e),
        },
    }
}

// The same of a name alone, the string at q.
fn bare(q: usize) -> Expanded
    ensures { result ≡ bare q }
{
    Expanded {
        name: Value::Text(q),
        count: 0,
        first: Value::Missing,
        second: Value::Missing,
        zero: false,
        bad: None,
    }
}

// The same of the string at q as the name, and one parameter.
fn with_one(q: usize, r: Result<Value, RenderErrorReason>) -> Expanded
    ensures { result ≡ with_one q r }
{
    match r {
        Ok(v) => Expanded {
            name: Value::Text(q),
            count: 1,
            first: v,
            second: Value::Missing,
            zero: false,
            bad: None,
        },
        Err(e) => Expanded {
            name: Value::Text(q),
            count: 1,
            first: Value::Missing,
            second: Value::Missing,
            zero: false,
            bad: Some(e),
        },
    }
}

// The cycle

#[cycle(expansion)]
fn expand_all(
    s: &[u8],
    tab: &[u64],
    b: &[u8],
    ent: &[u64],
    scopes: [Scope; 32],
    used: usize,
    options: Options,
    p: usize,
    n: u64,
    d: usize,
) -> Params
    requires { Accepted s.now tab.now × (length b.now ≤ 65536) × (0 < used) × (used ≤ 32)
        × NearScopes s.now b.now ent.now scopes used × (n < 16) × Holds (row (param d) n) (bits b.now) p }
    ensures { (g : Registry) (st : RenderContext) (t : ℕ)
        → Setting s.now b.now ent.now scopes used options g st t
        → ExpandsAll s.now b.now ent.now t n
        (rules.expand_all g st (params_at d n (bits b.now) p)) result }
{
    let none = Params {
        first: Value::Missing,
        second: Value::Missing,
        bad: None,
    };
    if n == 0 {
        return none;
    }
    let r = expand(s, tab, b, ent, scopes, used, options, p, d);
    // behind the last there are none: its end is not looked for
    if n == 1 {
        return joined(r, none);
    }
    let next = calls::skip_param(b, p, d);
    let rest = expand_all(s, tab, b, ent, scopes, used, options, next, n - 1, d);
    joined(r, rest)
}

#[cycle(expansion)]
fn expand_hash(
    s: &[u8],
    tab: &[u64],
    b: &[u8],
    ent: &[u64],
    scopes: [Scope; 32],
    used: usize,
    options: Options,
    p: usize,
    n: u64,
    d: usize,
) -> Hash
    requires { Accepted s.now tab.now × (length b.now ≤ 65536) × (0 < used) × (used ≤ 32)
        × NearScopes s.now b.now ent.now scopes used × (n < 16)
        × Holds (row (string then param d) n) (bits b.now) p }
    ensures { (g : Registry) (st : RenderContext) (t : ℕ)
        → Setting s.now b.now ent.now scopes used options g st t
        → ExpandsHash (rules.expand_hash g st (hash_at d n (bits b.now) p)) result }
{
    let none = Hash {
        zero: false,
        bad: None,
    };
    if n == 0 {
        return none;
    }
    let q = parts::skip_string(b, p);
    let r = expand(s, tab, b, ent, scopes, used, options, q, d);
    if n == 1 {
        return paired(s, tab, b, p, r, none);
    }
    let next = calls::skip_param(b, q, d);
    let rest = expand_hash(s, tab, b, ent, scopes, used, options, next, n - 1, d);
    paired(s, tab, b, p, r, rest)
}

// What the call at p works out, part by part.
#[cycle(expansion)]
fn from_template(
    s: &[u8],
    tab: &[u64],
    b: &[u8],
    ent: &[u64],
    scopes: [Scope; 32],
    used: usize,
    options: Options,
    p: usize,
    d: usize,
) -> Expanded
    requires { Accepted s.now tab.now × (length b.now ≤ 65536) × (0 < used) × (used ≤ 32)
        × NearScopes s.now b.now ent.now scopes used × Holds (call_of (param d)) (bits b.now) p }
    ensures { (g : Registry) (st : RenderContext) (t : ℕ)
        → Setting s.now b.now ent.now scopes used options g st t
        → IsTemplate s.now b.now ent.now t
        (rules.try_from_template g st (call_at d (bits b.now) p)) result }
{
    let c = calls::call_at(b, p, d);
    let name = expand_as_name(s, tab, b, ent, scopes, used, options, p, d);
    let ps = expand_all(s, tab, b, ent, scopes, used, options, c.param, c.params, d);
    let hs = expand_hash(s, tab, b, ent, scopes, used, options, c.pair, c.pairs, d);
    gathered(name, c.params, ps, hs)
}

// The value of the parameter at p.
#[cycle(expansion)]
pub fn expand(
    s: &[u8],
    tab: &[u64],
    b: &[u8],
    ent: &[u64],
    scopes: [Scope; 32],
    used: usize,
    options: Options,
    p: usize,
    d: usize,
) -> Result<Value, RenderErrorReason>
    requires { Accepted s.now tab.now × (length b.now ≤ 65536) × (0 < used) × (used ≤ 32)
        × NearScopes s.now b.now ent.now scopes used × Holds (param d) (bits b.now) p }
    ensures { (g : Registry) (st : RenderContext) (t : ℕ)
        → Setting s.now b.now ent.now scopes used options g st t
        → Expands s.now b.now ent.now t
        (rules.expand g st (param_at d (bits b.now) p)) result }
{
    let x = calls::param_at(b, p);
    match x {
        Parameter::Name(_) => Ok(Value::Missing),
        Parameter::Path(q) => path_value(s, tab, b, ent, scopes, used, options, q),
        Parameter::Literal(q) => Ok(Value::Literal(q)),
        Parameter::Subexpression(q) => {
            let w = from_template(s, tab, b, ent, scopes, used, options, q, d - 1);
            finished(s, tab, b, ent, used, options, w)
        }
    }
}

// The name that the parameter at p is: what the value prints.
#[cycle(expansion)]
pub fn expand_as_name(
    s: &[u8],
    tab: &[u64],
    b: &[u8],
    ent: &[u64],
    scopes: [Scope; 32],
    used: usize,
    options: Options,
    p: usize,
    d: usize,
) -> Result<Value, RenderErrorReason>
    requires { Accepted s.now tab.now × (length b.now ≤ 65536) × (0 < used) × (used ≤ 32)
        × NearScopes s.now b.now ent.now scopes used × Holds (param d) (bits b.now) p }
    ensures { (g : Registry) (st : RenderContext) (t : ℕ)
        → Setting s.now b.now ent.now scopes used options g st t
        → Names s.now b.now ent.now t
        (rules.expand_as_name g st (param_at d (bits b.now) p)) result }
{
    let x = calls::param_at(b, p);
    match x {
        Parameter::Name(q) => Ok(Value::Text(q)),
        Parameter::Path(q) => Ok(Value::Text(q)),
        Parameter::Literal(q) => Ok(Value::Literal(q)),
        Parameter::Subexpression(q) => {
            let w = from_template(s, tab, b, ent, scopes, used, options, q, d - 1);
            finished(s, tab, b, ent, used, options, w)
        }
    }
}

// What the call at p works out. Most calls are short: a name alone, or a name and a path. Nearly all others have a name that is a string too.
pub fn try_from_template(
    s: &[u8],
    tab: &[u64],
    b: &[u8],
    ent: &[u64],
    scopes: [Scope; 32],
    used: usize,
    options: Options,
    p: usize,
    d: usize,
) -> Expanded
    requires { Accepted s.now tab.now × (length b.now ≤ 65536) × (0 < used) × (used ≤ 32)
        × NearScopes s.now b.now ent.now scopes used × Holds (call_of (param d)) (bits b.now) p }
    ensures { (g : Registry) (st : RenderContext) (t : ℕ)
        → Setting s.now b.now ent.now scopes used options g st t
        → IsTemplate s.now b.now ent.now t
        (rules.try_from_template g st (call_at d (bits b.now) p)) result }
{
    let x = calls::short_at(b, p, d);
    match x {
        Short::Bare(q) => bare(q),
        Short::One(q, v) => with_one(q, path_value(s, tab, b, ent, scopes, used, options, v)),
        Short::Named(q, c) => {
            let ps = expand_all(s, tab, b, ent, scopes, used, options, c.param, c.params, d);
            let hs = expand_hash(s, tab, b, ent, scopes, used, options, c.pair, c.pairs, d);
            gathered(Ok(Value::Text(q)), c.params, ps, hs)
        }
        Short::Other => from_template(s, tab, b, ent, scopes, used, options, p, d),
    }
}

// The name and the parameters of the call at p, without its hash, which partials work out on their own.
// bad is the refusal of the name, or of the first parameter that is refused.
pub fn name_and_params(
    s: &[u8],
    tab: &[u64],
    b: &[u8],
    ent: &[u64],
    scopes: [Scope; 32],
    used: usize,
    options: Options,
    p: usize,
    d: usize,
) -> Expanded
    requires { Accepted s.now tab.now × (length b.now ≤ 65536) × (0 < used) × (used ≤ 32)
        × NearScopes s.now b.now ent.now scopes used × Holds (call_of (param d)) (bits b.now) p }
    ensures template { (g : Registry) (st : RenderContext) (t : ℕ)
        → Setting s.now b.now ent.now scopes used options g st t
        → IsTemplate s.now b.now ent.now t
        (rules.try_from_template g st (without_hash (call_at d (bits b.now) p))) result }
    ensures zero_value { result.zero ≡ false }
{
    let none = Hash {
        zero: false,
        bad: None,
    };
    let x = calls::short_at(b, p, d);
    match x {
        Short::Bare(q) => bare(q),
        Short::One(q, v) => with_one(q, path_value(s, tab, b, ent, scopes, used, options, v)),
        Short::Named(q, c) => {
            // most have a hash only
            if c.params == 0 {
                return bare(q);
            }
            let ps = expand_all(s, tab, b, ent, scopes, used, options, c.param, c.params, d);
            gathered(Ok(Value::Text(q)), c.params, ps, none)
        }
        Short::Other => {
            let c = calls::call_at(b, p, d);
            let name = expand_as_name(s, tab, b, ent, scopes, used, options, p, d);
            let ps = expand_all(s, tab, b, ent, scopes, used, options, c.param, c.params, d);
            gathered(name, c.params, ps, none)
        }
    }
}
