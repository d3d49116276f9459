// helpers/*.rs, and render.rs for an expression: what is about to be drawn, worked out before anything is.
// s is the plan, b the bundle, ent holds the entries of open partials, and used scopes are open.
#![tactic(auto)]

ghost use Rattle.std.specs.Prelude.{false, ◌≡◌, List, ℕ, ◌≤◌, ◌<◌, eqb, length};
ghost use Rattle.std.proofs.Math.Option.{none, some};
ghost use Rattle.rules.specs.Bytes.{pick};
ghost use Rattle.rules.specs.Bits.{bits};
ghost use Rattle.rules.specs.Bundle.{path, param, call_of};
ghost use Rattle.rules.specs.Template.{name_only};
ghost use Rattle.rules.specs.Value.{render};
ghost use Rattle.rules.specs.Registry.{get_helper};
ghost use Rattle.rules.specs.HelperEach.{each_helper};
ghost use Rattle.rules.specs.HelperWith.{with_helper};
ghost use Rattle.rules.specs.HelperIf.{if_helper};
ghost use Rattle.rules.specs.Helpers.{lookup_helper};
ghost use Rattle.layout.specs.Text.{text_at};
ghost use Rattle.parts.specs.Holds.{Holds};
ghost use Rattle.parts.specs.Says.{path_at};
ghost use Rattle.calls.specs.Calls.{param_at, call_at};
ghost use Rattle.places.specs.Accepted.{Accepted};
ghost use Rattle.meaning.specs.Forms.{Known};
ghost use Rattle.meaning.specs.Means.{Means};
ghost use Rattle.lookup.specs.Answers.{Held};
ghost use Rattle.expand.specs.Answers.{ExpandedHeld};
ghost use Rattle.context.specs.Near.{NearScopes};
ghost use Rattle.context.specs.Start.{Newest, NearFront, needs_all};
ghost use Rattle.helpers.specs.Does.{has, is_known, HelpingFirst, HelpingTruth, HelpingBoth, Decides};
ghost use Rattle.helpers.specs.Does.{DecidesOne, DecidesTwo, unless_strict, inverse, in_scope, branch, truth};
ghost use Rattle.helpers.specs.Does.{is_collection, shown, rendered, shows_of};
ghost use Rattle.helpers.specs.Does.{ExpressingCall, ExpressingPath, ExpressingBare};

use calls::Parameter;
use error::RenderErrorReason;
use expand::{Expanded, HelperDef, Options};
use meaning::Form;
use scope::Scope;
use value::Value;

// What a helper does.
#[derive(Clone, Copy)]
pub enum Does {
    // why it is refused
    Bad(RenderErrorReason),
    Nothing,
    // draws its template or its inverse, if there is one
    Template,
    Inverse,
    // draws its template in a scope of that value
    Within(Value),
    // draws its template for each turn over that value, in one scope
    Turns(Value),
    // writes that value
    Write(Value),
}

// Parts

fn unless_strict(strict: bool, d: Does) -> Does
    ensures { result ≡ unless_strict strict d }
{
    if strict {
        return Does::Bad(RenderErrorReason::MissingVariable);
    }
    d
}

// The inverse; without it nothing, or an error under strict.
fn inverse(strict: bool, has_inverse: bool) -> Does
    ensures { result ≡ inverse strict has_inverse }
{
    if has_inverse {
        return Does::Inverse;
    }
    unless_strict(strict, Does::Nothing)
}

// Under one more scope, if there may be one.
fn in_scope(used: usize, d: Does) -> Does
    ensures { result ≡ in_scope used d }
{
    if used < 32 {
        return d;
    }
    Does::Bad(RenderErrorReason::ScopesLimit)
}

fn branch(template: bool) -> Does
    ensures { result ≡ branch template }
{
    if template {
        return Does::Template;
    }
    Does::Inverse
}

// Guide truth (added) does not heed includeZero. Most values are told without their form: local variables are true or false.
fn truth(s: &[u8], tab: &[u64], b: &[u8], v: Value, guide: bool, zero: bool) -> bool
    requires { Accepted s.now tab.now × (length b.now ≤ 65536) × Known s.now b.now v }
    ensures { Means s.now b.now v (λ j. result ≡ truth guide zero j) }
{
    if let Value::True = v {
        return true;
    }
    if let Value::False = v {
        return false;
    }
    if guide {
        return meaning::guide_truthy(s, tab, b, v);
    }
    meaning::is_truthy(s, tab, b, v, zero)
}

// Whether a value is a list or an object.
fn is_collection(s: &[u8], tab: &[u64], b: &[u8], v: Value) -> bool
    requires { Accepted s.now tab.now × (length b.now ≤ 65536) × Known s.now b.now v }
    ensures { Means s.now b.now v (λ j. result ≡ is_collection j) }
{
    match meaning::form_of(s, tab, b, v) {
        Form::Null => false,
        Form::Boolean(t) => false,
        Form::Unsigned(n) => false,
        Form::Negative(n) => false,
        Form::String(t) => false,
        Form::List(i) => true,
        Form::Object(i) => true,
        Form::Merged(h, n) => true,
    }
}

// The helpers, by how many parameters there are and the first of them. (They take these one by one: a call's parts in one struct would go through memory.)

fn each_helper(
    s: &[u8],
    tab: &[u64],
    b: &[u8],
    used: usize,
    options: Options,
    count: usize,
    v: Value,
    has_template: bool,
    has_inverse: bool,
) -> Does
    requires { Accepted s.now tab.now × (length b.now ≤ 65536) × Known s.now b.now v }
    ensures { HelpingFirst s.now b.now used options count v has_template has_inverse
        (λ g e ns T I st. each_helper g e.params ns T I st) result }
{
    if count == 0 {
        return Does::Bad(RenderErrorReason::ParamNotFoundForIndex);
    }
    if !has_template {
        return Does::Nothing;
    }
    if !is_collection(s, tab, b, v) {
        return inverse(options.strict, has_inverse);
    }
    // of lists and objects, those that are not empty
    if meaning::is_truthy(s, tab, b, v, false) {
        return in_scope(used, Does::Turns(v));
    }
    if has_inverse {
        return Does::Inverse;
    }
    // its scope is opened and closed again
    in_scope(used, Does::Nothing)
}

fn with_helper(
    s: &[u8],
    tab: &[u64],
    b: &[u8],
    used: usize,
    options: Options,
    count: usize,
    v: Value,
    has_template: bool,
    has_inverse: bool,
) -> Does
    requires { Accepted s.now tab.now × (length b.now ≤ 65536) × Known s.now b.now v }
    ensures { HelpingFirst s.now b.now used options count v has_template has_inverse
        (λ g e ns T I st. with_helper g e.params ns T I st) result }
{
    if count == 0 {
        return Does::Bad(RenderErrorReason::ParamNotFoundForIndex);
    }
    if meaning::is_truthy(s, tab, b, v, false) {
        return in_scope(used, Does::Within(v));
    }
    inverse(options.strict, has_inverse)
}

// if, or where it is not positive unless.
fn if_helper(
    s: &[u8],
    tab: &[u64],
    b: &[u8],
    options: Options,
    count: usize,
    v: Value,
    zero: bool,
    positive: bool,
) -> Does
    requires { Accepted s.now tab.now × (length b.now ≤ 65536) × Known s.now b.now v }
    ensures { HelpingTruth s.now b.now options count v zero
        (λ g e ns T I st. if_helper g positive e.params e.hash T I st) result }
{
    if count == 0 {
        return Does::Bad(RenderErrorReason::ParamNotFoundForIndex);
    }
    if truth(s, tab, b, v, options.guide_truth, zero) {
        return branch(positive);
    }
    branch(!positive)
}

fn lookup_helper(
    s: &[u8],
    tab: &[u64],
    b: &[u8],
    ent: &[u64],
    options: Options,
    count: usize,
    v: Value,
    i: Value,
) -> Does
    requires { Accepted s.now tab.now
        × (length b.now ≤ 65536)
        × Held s.now b.now ent.now v
        × Held s.now b.now ent.now i }
    ensures { HelpingBoth s.now b.now ent.now options count v i
        (λ g e ns T I st. lookup_helper g e.params st) result }
{
    if count < 2 {
        return Does::Bad(RenderErrorReason::ParamNotFoundForIndex);
    }
    let Some(x) = lookup::looked_up(s, tab, b, ent, v, i) else {
        return unless_strict(options.strict, Does::Write(Value::Null));
    };
    Does::Write(x)
}

// What the helper h is going to do with what its call works out; the two tests say which bodies it has.
pub fn call_helper(
    s: &[u8],
    tab: &[u64],
    b: &[u8],
    ent: &[u64],
    used: usize,
    options: Options,
    h: HelperDef,
    w: Expanded,
    has_template: bool,
    has_inverse: bool,
) -> Does
    requires { Accepted s.now tab.now
        × (length b.now ≤ 65536)
        × ExpandedHeld s.now b.now ent.now w }
    ensures { Decides s.now b.now ent.now used options h w
        has_template has_inverse result }
{
    let v = w.first;
    let i = w.second;
    match h {
        HelperDef::Each => {
            each_helper(
                s,
                tab,
                b,
                used,
                options,
                w.count,
                v,
                has_template,
                has_inverse,
            )
        }
        HelperDef::With => {
            with_helper(
                s,
                tab,
                b,
                used,
                options,
                w.count,
                v,
                has_template,
                has_inverse,
            )
        }
        HelperDef::If => if_helper(s, tab, b, options, w.count, v, w.zero, true),
        HelperDef::Unless => if_helper(s, tab, b, options, w.count, v, w.zero, false),
        HelperDef::Lookup => lookup_helper(s, tab, b, ent, options, w.count, v, i),
        HelperDef::Unknown => Does::Bad(RenderErrorReason::HelperNotFound),
    }
}

// The same with one parameter and no hash.
pub fn call_one(
    s: &[u8],
    tab: &[u64],
    b: &[u8],
    used: usize,
    options: Options,
    h: HelperDef,
    v: Value,
    has_template: bool,
    has_inverse: bool,
) -> Does
    requires { Accepted s.now tab.now × (length b.now ≤ 65536) × Known s.now b.now v }
    ensures { DecidesOne s.now b.now used options h v
        has_template has_inverse result }
{
    match h {
        HelperDef::Each => each_helper(s, tab, b, used, options, 1, v, has_template, has_inverse),
        HelperDef::With => with_helper(s, tab, b, used, options, 1, v, has_template, has_inverse),
        HelperDef::If => if_helper(s, tab, b, options, 1, v, false, true),
        HelperDef::Unless => if_helper(s, tab, b, options, 1, v, false, false),
        // it wants two
        HelperDef::Lookup => Does::Bad(RenderErrorReason::ParamNotFoundForIndex),
        HelperDef::Unknown => Does::Bad(RenderErrorReason::HelperNotFound),
    }
}

// The same with two parameters and no hash.
pub fn call_two(
    s: &[u8],
    tab: &[u64],
    b: &[u8],
    ent: &[u64],
    used: usize,
    options: Options,
    h: HelperDef,
    v: Value,
    i: Value,
    has_template: bool,
    has_inverse: bool,
) -> Does
    requires { Accepted s.now tab.now
        × (length b.now ≤ 65536)
        × Held s.now b.now ent.now v
        × Held s.now b.now ent.now i }
    ensures { DecidesTwo s.now b.now ent.now used options h v i
        has_template has_inverse result }
{
    match h {
        HelperDef::Each => each_helper(s, tab, b, used, options, 2, v, has_template, has_inverse),
        HelperDef::With => with_helper(s, tab, b, used, options, 2, v, has_template, has_inverse),
        HelperDef::If => if_helper(s, tab, b, options, 2, v, false, true),
        HelperDef::Unless => if_helper(s, tab, b, options, 2, v, false, false),
        HelperDef::Lookup => lookup_helper(s, tab, b, ent, options, 2, v, i),
        HelperDef::Unknown => Does::Bad(RenderErrorReason::HelperNotFound),
    }
}

// Expressions

// What an expression does.
#[derive(Clone, Copy)]
pub enum Shows {
    // why it is refused
    Bad(RenderErrorReason),
    // calls a helper with no bodies
    Helper,
    // writes that value
    Value(Value),
    Nothing,
}

// Whether the call at p is its name alone. Behind the name are the counts of parameters and of pairs, 4 bits each.
fn name_only(b: &[u8], p: usize, d: usize) -> bool
    requires { (length b.now ≤ 65536) × Holds (call_of (param d)) (bits b.now) p }
    ensures { name_only (call_at d (bits b.now) p)
        ≡ pick result (some (param_at d (bits b.now) p)) none }
{
    // the name's kind, and the count of the string that most are
    let x = bits::field(b, p, 18);
    if x <= 65535 {
        let e = p + 18 + 8 * (x as usize);
        return bits::field(b, e, 8) == 0;
    }
    let q = calls::skip_param(b, p, d);
    bits::field(b, q, 8) == 0
}

// Whether there is that helper.
fn known(h: HelperDef) -> bool
    ensures { result ≡ is_known h }
{
    match h {
        HelperDef::Each => true,
        HelperDef::With => true,
        HelperDef::If => true,
        HelperDef::Unless => true,
        HelperDef::Lookup => true,
        HelperDef::Unknown => false,
    }
}

// Whether there is a helper whose name a value prints.
fn is_helper(s: &[u8], tab: &[u64], b: &[u8], v: Value) -> bool
    requires { Accepted s.now tab.now × (length b.now ≤ 65536) × Known s.now b.now v }
    ensures { Means s.now b.now v (λ j. result ≡ has (get_helper (render j))) }
{
    known(expand::get_helper(s, tab, b, v))
}

// A missing value is nothing, or an error under strict.
fn shown(strict: bool, v: Value) -> Shows
    ensures { result ≡ shown strict v }
{
    match v {
        Value::Missing => {
            if strict {
                return Shows::Bad(RenderErrorReason::MissingVariable);
            }
            Shows::Nothing
        }
        w => Shows::Value(w),
    }
}

fn rendered(strict: bool, x: Result<Value, RenderErrorReason>) -> Shows
    ensures { result ≡ rendered strict x }
{
    match x {
        Ok(v) => shown(strict, v),
        Err(e) => Shows::Bad(e),
    }
}

// What `bare_number` tells is one number, for an enum would go through memory.
pub const HELPER: u64 = 0;

// The refusals, by their own numbers
pub const MISSING: u64 = 11;

pub const BAD_INDEX: u64 = 20;

pub const NOTHING: u64 = 255;

// A value is told by so much more than its own number.
pub const VALUE: u64 = 256;

// The front does not tell.
pub const FAR: u64 = 4294967552;

// What an expression does that is the path at q and nothing else. Most are such: the name is the path's raw string, which is read where it lies.
pub fn bare_number(
    s: &[u8],
    tab: &[u64],
    b: &[u8],
    ent: &[u64],
    front: Scope,
    names: u64,
    options: Options,
    q: usize,
) -> u64
    requires { Accepted s.now tab.now
        × (length b.now ≤ 65536)
        × NearFront s.now b.now ent.now front names
        × Holds path (bits b.now) q }
    ensures { (result ≤ 4294967552)
        × ((result ≡ 4294967552 → ⊥) → (l : List Scope) (used : ℕ)
        → Newest b.now ent.now front names l used
        → ExpressingBare s.now b.now ent.now l used options q (shows_of result))
        × (eqb result 4294967552 ≡ pick (has (get_helper (text_at (bits b.now) q))) false
        (needs_all b.now ent.now front names (path_at (bits b.now) q)))
        × ((result ≡ 0 → ⊥) → (result ≡ 11 → ⊥) → result < 255 → result ≡ 20) }
{
    // few paths name a helper, and one number tells that of most
    if expand::may_name(b, q) {
        if known(expand::helper_at(b, q)) {
            return HELPER;
        }
    }
    let found = context::evaluate_near(s, tab, b, ent, front, names, options.recursive_lookup, q);
    if found == context::FAR {
        return FAR;
    }
    // a wrong index
    if found == 0 {
        return BAD_INDEX;
    }
    // nothing: one more than the number of what is missing
    if found % 16 == 1 {
        if options.strict {
            return MISSING;
        }
        return NOTHING;
    }
    VALUE + (found - 1)
}

// The same as an enum and by all scopes, for the long way.
fn bare_path(
    s: &[u8],
    tab: &[u64],
    b: &[u8],
    ent: &[u64],
    scopes: [Scope; 32],
    used: usize,
    options: Options,
    q: usize,
) -> Shows
    requires { Accepted s.now tab.now
        × (length b.now ≤ 65536)
        × (0 < used)
        × (used ≤ 32)
        × NearScopes s.now b.now ent.now scopes used
        × Holds path (bits b.now) q }
    ensures { ExpressingBare s.now b.now ent.now scopes used options q result }
{
    if known(expand::helper_at(b, q)) {
        return Shows::Helper;
    }
    rendered(
        options.strict,
        expand::path_value(s, tab, b, ent, scopes, used, options, q),
    )
}

// What an expression does whose name is the path at q: with parameters or a hash it is a helper's.
fn path_expression(
    s: &[u8],
    tab: &[u64],
    b: &[u8],
    ent: &[u64],
    scopes: [Scope; 32],
    used: usize,
    options: Options,
    q: usize,
) -> Shows
    requires { Accepted s.now tab.now
        × (length b.now ≤ 65536)
        × (0 < used)
        × (used ≤ 32)
        × NearScopes s.now b.now ent.now scopes used
        × Holds path (bits b.now) q }
    ensures { ExpressingPath s.now b.now ent.now scopes used options q result }
{
    let next = parts::skip_path(b, q);
    if bits::field(b, next, 8) != 0 {
        return Shows::Helper;
    }
    bare_path(s, tab, b, ent, scopes, used, options, q)
}

// What the expression with the call at p does.
pub fn expression(
    s: &[u8],
    tab: &[u64],
    b: &[u8],
    ent: &[u64],
    scopes: [Scope; 32],
    used: usize,
    options: Options,
    p: usize,
    d: usize,
) -> Shows
    requires { Accepted s.now tab.now
        × (length b.now ≤ 65536)
        × (0 < used)
        × (used ≤ 32)
        × NearScopes s.now b.now ent.now scopes used
        × Holds (call_of (param d)) (bits b.now) p }
    ensures { ExpressingCall s.now b.now ent.now scopes used options d p result }
{
    let x = calls::param_at(b, p);
    if let Parameter::Path(q) = x {
        return path_expression(s, tab, b, ent, scopes, used, options, q);
    }
    if !name_only(b, p, d) {
        return Shows::Helper;
    }
    let name = expand::expand_as_name(s, tab, b, ent, scopes, used, options, p, d);
    match name {
        Err(e) => Shows::Bad(e),
        Ok(v) => {
            if is_helper(s, tab, b, v) {
                return Shows::Helper;
            }
            rendered(
                options.strict,
                expand::expand(s, tab, b, ent, scopes, used, options, p, d),
            )
        }
    }
}
