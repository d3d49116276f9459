// partial.rs: what a partial works out before it is drawn. The hash is merged into the context: its pairs become entries of the lent table.
// d is the number of depths left for the values of the hash; s is the plan, ent holds the entries of open partials, t is behind those in use.
#![tactic(auto)]

ghost use Rattle.std.specs.Prelude.{◌≡◌, List, ℕ, ◌+◌, ◌*◌, ◌≤◌, ◌<◌, eqb, length};
ghost use Rattle.rules.specs.Bytes.{pick};
ghost use Rattle.rules.specs.Bits.{bits};
ghost use Rattle.error.specs.Reasons.{refused};
ghost use Rattle.rules.specs.Layout.{◌then◌};
ghost use Rattle.rules.specs.Bundle.{string, path, param};
ghost use Rattle.rules.specs.State.{RenderContext};
ghost use Rattle.rules.specs.Registry.{Registry};
ghost use Rattle.rules.specs.Expand as rules;
ghost use Rattle.parts.specs.Holds.{Holds, end, row};
ghost use Rattle.calls.specs.Calls.{param_at, hash_at};
ghost use Rattle.places.specs.Accepted.{Accepted};
ghost use Rattle.expand.specs.Answers.{Setting, Expands, Works};
ghost use Rattle.value.specs.Numbers.{Fits, encoded};
ghost use Rattle.value.specs.declared.Value.TheVariants.{Merged};
ghost use Rattle.meaning.specs.Meaning.{json_of};
ghost use Rattle.members.specs.Parts.{Parts};
ghost use Rattle.context.specs.Near.{NearScopes};
ghost use Rattle.context.specs.Evaluated.{evaluated_of};
ghost use Rattle.context.specs.Start.{Newest, Found};
ghost use Rattle.including.specs.Values.{number_of, GotFits, HashValuesIn};
ghost use Rattle.including.specs.Pairs.{with_pairs};
ghost use Rattle.including.specs.Starting.{StartsPartial};
ghost use Rattle.including.specs.Included.{included, entries_of};
ghost use Rattle.including.specs.Hashing.{worked};

use calls::Parameter;
use context::Evaluated;
use error::RenderErrorReason;
use expand::Options;
use scope::Scope;
use value::Value;

// What the path at p leads to, as a number: by the newest scope alone, where that tells.
fn path_number(
    s: &[u8],
    tab: &[u64],
    b: &[u8],
    ent: &[u64],
    scopes: [Scope; 32],
    front: Scope,
    names: u64,
    used: usize,
    recursive: bool,
    p: usize,
) -> u64
    requires { Accepted s.now tab.now × (length b.now ≤ 65536) × (0 < used) × (used ≤ 32)
        × NearScopes s.now b.now ent.now scopes used × Newest b.now ent.now front names scopes used
        × Holds path (bits b.now) p }
    ensures { (result ≤ 4294967296)
        × Found s.now b.now ent.now scopes used recursive p (evaluated_of result) }
{
    let r = context::evaluate_near(s, tab, b, ent, front, names, recursive, p);
    if r != context::FAR {
        return r;
    }
    context::evaluate_far(s, tab, b, ent, scopes, names, used, recursive, p)
}

// The value of the parameter at q. Most are paths.
fn hash_value(
    s: &[u8],
    tab: &[u64],
    b: &[u8],
    ent: &[u64],
    scopes: [Scope; 32],
    front: Scope,
    names: u64,
    used: usize,
    options: Options,
    q: usize,
    d: usize,
) -> Result<Value, RenderErrorReason>
    requires { Accepted s.now tab.now × (length b.now ≤ 65536) × (0 < used) × (used ≤ 32)
        × NearScopes s.now b.now ent.now scopes used × Newest b.now ent.now front names scopes used
        × Holds (param d) (bits b.now) q }
    ensures { (g : Registry) (st : RenderContext) (t : ℕ)
        → Setting s.now b.now ent.now scopes used options g st t
        → Expands s.now b.now ent.now t
        (rules.expand g st (param_at d (bits b.now) q)) result }
{
    let x = calls::param_at(b, q);
    let Parameter::Path(p) = x else {
        return expand::expand(s, tab, b, ent, scopes, used, options, q, d);
    };
    let r = path_number(
        s,
        tab,
        b,
        ent,
        scopes,
        front,
        names,
        used,
        options.recursive_lookup,
        p,
    );
    let found = context::answer_of(r);
    match found {
        Evaluated::Is(v) => Ok(v),
        Evaluated::Nothing => Ok(Value::Missing),
        Evaluated::BadIndex => Err(RenderErrorReason::InvalidJsonIndex),
    }
}

// A hash value as a number.
fn number_of(r: Result<Value, RenderErrorReason>) -> u32
    requires { GotFits r }
    ensures { result ≡ number_of r }
{
    match r {
        Ok(v) => value::encode(v),
        Err(_) => 0,
    }
}

// Where the i-th of some hash pairs stands, by the one before it; at is the first where i is 0.
fn next_pair(b: &[u8], at: usize, i: usize, d: usize) -> usize
    requires { (length b.now ≤ 65536) × ((i ≡ 0 → ⊥) → Holds (string then param d) (bits b.now) at) }
    ensures { result ≡ pick (eqb i 0) at (end (string then param d) (bits b.now) at) }
{
    if i == 0 {
        return at;
    }
    let q = parts::skip_string(b, at);
    calls::skip_param(b, q, d)
}

// The numbers of the values of the n hash pairs at p, one by one up to the first that is refused: from there on what is
// lent stays as it was.
// front is the newest scope, and the block names of all are in names.
pub fn hash_all(
    s: &[u8],
    tab: &[u64],
    b: &[u8],
    ent: &[u64],
    scopes: [Scope; 32],
    front: Scope,
    names: u64,
    used: usize,
    options: Options,
    p: usize,
    n: usize,
    d: usize,
    values: &mut [u32],
) -> Result<(), RenderErrorReason>
    requires { Accepted s.now tab.now × (length b.now ≤ 65536) × (0 < used) × (used ≤ 32)
        × NearScopes s.now b.now ent.now scopes used × Newest b.now ent.now front names scopes used
        × (n < 16) × Holds (row (string then param d) n) (bits b.now) p × (n ≤ length values.old) }
    ensures { ((g : Registry) (st : RenderContext) (t : ℕ)
        → Setting s.now b.now ent.now scopes used options g st t
        → Works
        (λ _. HashValuesIn s.now b.now ent.now t d p n g st
        values.old values.new)
        (rules.expand_hash g st (hash_at d n (bits b.now) p)) (refused result))
        × ((g : Registry) (st : RenderContext) (t : ℕ)
        → Setting s.now b.now ent.now scopes used options g st t
        → HashValuesIn s.now b.now ent.now t d p
        (worked b.now d p g st n 0) g st
        values.old values.new) }
{
    let mut at = p;
    for i in 0..n {
        at = next_pair(b, at, i, d);
        let q = parts::skip_string(b, at);
        let x = hash_value(s, tab, b, ent, scopes, front, names, used, options, q, d);
        if let Err(k) = x {
            return Err(k);
        }
        values[i] = number_of(x);
    }
    Ok(())
}

// What the hash is merged into: the first of count parameters, or else the value of the newest scope.
// Its path is not known to the partial.
pub fn partial_context(front: Scope, count: usize, first: Value) -> Value
    ensures { StartsPartial front count first result }
{
    if count == 0 {
        return scope::without_path(value::decode(front.base));
    }
    scope::without_path(first)
}

// The n hash pairs at p become entries from t on, with their values and the base that they are merged into.
pub fn merge(
    ent: &mut [u64],
    b: &[u8],
    t: usize,
    base: Value,
    values: &[u32],
    p: usize,
    n: usize,
    d: usize,
)
    requires { (length b.now ≤ 65536) × Fits base × (n < 16) × (t + n ≤ 4096) × (2 * (t + n) ≤ length ent.old)
        × Holds (row (string then param d) n) (bits b.now) p × (n ≤ length values.now) }
    ensures { ent.new
        ≡ with_pairs ent.old (bits b.now) t (encoded base) values.now d p n }
{
    let k = value::encode(base);
    let mut at = p;
    for i in 0..n {
        at = next_pair(b, at, i, d);
        entries::store(ent, t + i, values[i], k, at);
    }
}

// The scope of a partial with n hash pairs in the entries from t on: its block names are those of the hash, its local variables those of the
// scope around.
pub fn scope_of(base: Value, t: usize, n: usize, front: Scope) -> Scope
    requires { Fits base × (n < 16) × (t + n ≤ 4096) }
    ensures { result ≡ included base t n front }
{
    if n == 0 {
        return scope::with_locals(scope::child(value::encode(base), t as u16), front);
    }
    let c = scope::child(value::encode(Value::Merged(t, n)), (t + n) as u16);
    scope::with_names(scope::with_locals(c, front), 3, 0)
}

// How many entries the merged object takes, for limit 22.
pub fn merged_entries(s: &[u8], tab: &[u64], b: &[u8], ent: &[u64], t: usize, n: usize) -> usize
    requires { Accepted s.now tab.now × (length b.now ≤ 65536)
        × (0 < n → Parts s.now b.now ent.now t n) }
    ensures { result ≡ entries_of n (json_of s.now b.now ent.now (Merged t n)) }
{
    if n == 0 {
        return 0;
    }
    members::merged_count(s, tab, b, ent, t, n)
}
