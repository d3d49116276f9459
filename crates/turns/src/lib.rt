// helpers/helper_each.rs: the turns of `each`, one by one.
#![tactic(auto)]

ghost use Rattle.std.specs.Prelude.{◌≡◌, ℕ, ◌≤◌, ◌<◌, length};
ghost use Rattle.std.proofs.Math.Option.{some, none};
ghost use Rattle.std.proofs.Math.ListN.{get_elem?};
ghost use Rattle.rules.specs.Json.{jarr, jobj};
ghost use Rattle.rules.specs.Context.{base_map};
ghost use Rattle.merging.specs.Order.{above, first_of};
ghost use Rattle.places.specs.Accepted.{Accepted};
ghost use Rattle.places.specs.Places.{places, json_at, children};
ghost use Rattle.places.specs.Kinds.{found, FoundIn, items_of, members_of};
ghost use Rattle.meaning.specs.Meaning.{merged_of, json_of};
ghost use Rattle.meaning.specs.Standing.{Stands};
ghost use Rattle.lookup.specs.Answers.{Held};
ghost use Rattle.members.specs.Next.{Keyed, after_name};
ghost use Rattle.turns.specs.Listed.{is_end, member_nth};
ghost use Rattle.turns.specs.Turning.{place_of, inner, ItemBefore, TurnAt, TurnBefore, Behind, PlaceTurn};

use places::Kind;
use value::Value;

#[derive(Clone, Copy)]
pub struct Turn {
    pub item: Value,
    pub key: Value,
    // whether it is over an object
    pub object: bool,
    // whether no turn follows
    pub last: bool,
}

// The place of a value of the plan.
fn place_of(v: Value) -> Option<usize>
    ensures { found result ≡ place_of v }
{
    match v {
        Value::Context(i) => Some(i),
        Value::Place(i) => Some(i),
        _ => None,
    }
}

// The place c inside v, with a path if v has one.
fn inner(v: Value, c: usize) -> Value
    ensures { result ≡ inner v c }
{
    let Value::Context(_) = v else {
        return Value::Place(c);
    };
    Value::Context(c)
}

fn is_end(at: Option<usize>) -> bool
    ensures { result ≡ is_end (found at) }
{
    match at {
        Some(_) => false,
        None => true,
    }
}

// The value in the list at i behind the one at `after`, or the first one.
fn following(s: &[u8], tab: &[u64], i: usize, k: usize, after: Option<usize>) -> Option<usize>
    requires { Accepted s.now tab.now × (i < places s.now) × FoundIn s.now after × ItemBefore s.now i k after }
    ensures { found result ≡ get_elem? (children s.now i) k }
{
    match after {
        Some(c) => places::next(s, tab, i, c),
        None => places::first(s, tab, i),
    }
}

// The turn k over the list v at i: its item stands at `at`.
fn list_turn(s: &[u8], tab: &[u64], v: Value, i: usize, k: usize, at: Option<usize>) -> Option<Turn>
    requires { Accepted s.now tab.now × (i < places s.now) × (place_of v ≡ some i) × (json_at s.now i ≡ jarr (items_of (json_at s.now i))) × (found at ≡ get_elem? (children s.now i) k) }
    ensures { PlaceTurn s.now v k result }
{
    let Some(c) = at else {
        return None;
    };
    let last = is_end(places::next(s, tab, i, c));
    Some(Turn {
        item: inner(v, c),
        key: Value::Index(k),
        object: false,
        last: last,
    })
}

// The turn k over the object v at i, behind the turn of the place `after`.
fn object_turn(
    s: &[u8],
    tab: &[u64],
    v: Value,
    i: usize,
    k: usize,
    after: Option<usize>,
) -> Option<Turn>
    requires { Accepted s.now tab.now × (i < places s.now) × (place_of v ≡ some i) × (json_at s.now i ≡ jobj (members_of (json_at s.now i))) × Behind s.now i k after }
    ensures { PlaceTurn s.now v k result }
{
    let at = places::next_member(s, tab, i, after);
    let Some(c) = at else {
        return None;
    };
    let last = is_end(places::next_member(s, tab, i, Some(c)));
    Some(Turn {
        item: inner(v, c),
        key: Value::Name(places::name(s, tab, c)),
        object: true,
        last: last,
    })
}

// The turn k over the value v at i, behind the turn of the place `after`.
fn place_turn(
    s: &[u8],
    tab: &[u64],
    v: Value,
    i: usize,
    k: usize,
    after: Option<usize>,
) -> Option<Turn>
    requires { Accepted s.now tab.now × (i < places s.now) × (place_of v ≡ some i) × Behind s.now i k after }
    ensures { PlaceTurn s.now v k result }
{
    match places::kind_of(s, tab, i) {
        Kind::Null => None,
        Kind::False => None,
        Kind::True => None,
        Kind::Unsigned => None,
        Kind::Negative => None,
        Kind::Text => None,
        Kind::List => list_turn(s, tab, v, i, k, following(s, tab, i, k, after)),
        Kind::Object => object_turn(s, tab, v, i, k, after),
    }
}

// The turn k over the merged object v, behind the member `after`.
fn merged_turn(
    s: &[u8],
    tab: &[u64],
    b: &[u8],
    ent: &[u64],
    v: Value,
    k: usize,
    after: Option<(Value, Value)>,
) -> Option<Turn>
    requires { Accepted s.now tab.now × (length b.now ≤ 65536) × Held s.now b.now ent.now v × (merged_of v ≡ none → ⊥) × Keyed s.now b.now after × (first_of (above (after_name s.now b.now after) (base_map (json_of s.now b.now ent.now v))) ≡ member_nth (base_map (json_of s.now b.now ent.now v)) k) }
    ensures { (t : ℕ) → Stands s.now b.now ent.now t v → TurnAt s.now b.now ent.now t v k result }
{
    let Some((key, item)) = members::next_member(s, tab, b, ent, v, after) else {
        return None;
    };
    let last = match members::next_member(s, tab, b, ent, v, Some((key, item))) {
        Some((_, _)) => false,
        None => true,
    };
    Some(Turn {
        item: item,
        key: key,
        object: true,
        last: last,
    })
}

pub fn first_turn(s: &[u8], tab: &[u64], b: &[u8], ent: &[u64], v: Value) -> Option<Turn>
    requires { Accepted s.now tab.now × (length b.now ≤ 65536) × Held s.now b.now ent.now v }
    ensures { (t : ℕ) → Stands s.now b.now ent.now t v → TurnAt s.now b.now ent.now t v 0 result }
{
    if let Value::Merged(_, _) = v {
        return merged_turn(s, tab, b, ent, v, 0, None);
    }
    let Some(i) = place_of(v) else {
        return None;
    };
    place_turn(s, tab, v, i, 0, None)
}

// The turn k over v; `before` is the one in front of it. (Each turn over an object is a scan of its members; over a list it takes constant time.)
pub fn next_turn(
    s: &[u8],
    tab: &[u64],
    b: &[u8],
    ent: &[u64],
    v: Value,
    k: usize,
    before: Option<Turn>,
) -> Option<Turn>
    requires { Accepted s.now tab.now × (length b.now ≤ 65536) × TurnBefore s.now b.now ent.now v k before }
    ensures { (t : ℕ) → Stands s.now b.now ent.now t v → TurnAt s.now b.now ent.now t v k result }
{
    let Some(turn) = before else {
        return None;
    };
    if let Value::Merged(_, _) = v {
        return merged_turn(s, tab, b, ent, v, k, Some((turn.key, turn.item)));
    }
    let Some(i) = place_of(v) else {
        return None;
    };
    place_turn(s, tab, v, i, k, place_of(turn.item))
}
