// The values of an accepted plan by their numbers (its places). Each function takes the plan's text and the table that the reader left.
// What it answers is said by places; the laws of specs/ say what that means for the rules' values and paths.
#![tactic(auto)]

ghost use Rattle.std.specs.Prelude.{◌≡◌, true, ◌&&◌, ℕ, suc, ◌+◌, ◌*◌, ◌/◌, ◌%◌, ◌^◌, ◌<◌, ◌≤◌, length, take, replicate};
ghost use Rattle.std.proofs.Math.ListN.{get_elem?};
ghost use Rattle.std.proofs.Math.Option.{some};
ghost use Rattle.rules.specs.Bytes.{pick, byte_at, same, before};
ghost use Rattle.rules.specs.Json.{count};
ghost use Rattle.rules.specs.Bits.{bits};
ghost use Rattle.rules.specs.Scan.{saying};
ghost use Rattle.rules.specs.Plan.{name_of};
ghost use Rattle.bits.specs.Packed.{bytes_at};
ghost use Rattle.rules.specs.Order.{cmp};
ghost use Rattle.saying.specs.Said.{Short};
ghost use Rattle.saying.specs.Compared.{ordering, name_bytes, NameFits};
ghost use Rattle.places.specs.Places.{start_of, places, tree_at, json_at, name_at, children, member, above, better, one_if_new, next_member};
ghost use Rattle.places.specs.Kinds.{found, numbered, found_name, FoundIn, kind_of, kind_by, is_other, is_plain, magnitude_of, members_of, is_empty};
ghost use Rattle.places.specs.Accepted.{Accepted};
ghost use Rattle.places.specs.Children.{is_object, end_at, behind, around};

use saying::Name;
use std::cmp::Ordering;

#[derive(Clone, Copy)]
pub enum Kind {
    Null,
    False,
    True,
    Unsigned,
    Negative,
    Text,
    List,
    Object,
}

// The place of a value's first byte: of a string its first quote.
pub fn start(s: &[u8], tab: &[u64], i: usize) -> usize
    requires { Accepted s.now tab.now × (i < places s.now) }
    ensures { (result ≡ start_of (tree_at s.now i)) × (result < length s.now) }
{
    (tab[i] % 65536) as usize
}

// The place of the first quote of its name, 0 for none.
pub fn name(s: &[u8], tab: &[u64], i: usize) -> usize
    requires { Accepted s.now tab.now × (i < places s.now) }
    ensures { (result ≡ name_of (tree_at s.now i)) × (result < length s.now) }
{
    (tab[i] / 65536 % 65536) as usize
}

// The number behind the last value inside it.
fn end(s: &[u8], tab: &[u64], i: usize) -> usize
    requires { Accepted s.now tab.now × (i < places s.now) }
    ensures { result ≡ end_at s.now i }
{
    (tab[i] / 65536 / 65536) as usize
}

// Zeroes the table again. Behind the plan's values it is zero already.
pub fn clear_table(s: &[u8], tab: &mut [u64])
    requires { Accepted s.now tab.old }
    ensures { tab.new ≡ replicate (length tab.old) 0 }
{
    let n = end(s, tab, 0);
    clear::clear(&mut tab[..n], 0);
}

// What the first byte of a value says of its kind.
#[tactic(auto, unfolding(crate::specs::Kinds::kind_by))]
fn kind_by(c: u8) -> Kind
    ensures { result ≡ kind_by c }
{
    match c {
        b'[' => Kind::List,
        b'{' => Kind::Object,
        b'"' => Kind::Text,
        b't' => Kind::True,
        b'f' => Kind::False,
        b'n' => Kind::Null,
        b'-' => Kind::Negative,
        _ => Kind::Unsigned,
    }
}

pub fn kind_of(s: &[u8], tab: &[u64], i: usize) -> Kind
    requires { Accepted s.now tab.now × (i < places s.now) }
    ensures { result ≡ kind_of (json_at s.now i) }
{
    kind_by(scan::byte(s, start(s, tab, i)))
}

// Whether an object stands there.
pub fn is_object(s: &[u8], tab: &[u64], i: usize) -> bool
    requires { Accepted s.now tab.now × (i < places s.now) }
    ensures { result ≡ is_object s.now i }
{
    let o = start(s, tab, i);
    s[o] == 123
}

// Whether nothing stands inside.
pub fn empty(s: &[u8], tab: &[u64], i: usize) -> bool
    requires { Accepted s.now tab.now × (i < places s.now) }
    ensures { result ≡ is_empty (json_at s.now i) }
{
    end(s, tab, i) == i + 1
}

// The first value inside the one at i.
pub fn first(s: &[u8], tab: &[u64], i: usize) -> Option<usize>
    requires { Accepted s.now tab.now × (i < places s.now) }
    ensures { found result ≡ get_elem? (children s.now i) 0 }
{
    if i + 1 < end(s, tab, i) {
        return Some(i + 1);
    }
    None
}

// The value behind the one at c; where that one stands directly inside the one at i, the next one there.
pub fn next(s: &[u8], tab: &[u64], i: usize, c: usize) -> Option<usize>
    requires { Accepted s.now tab.now × (i < places s.now) × (c < places s.now) }
    ensures { ((j : ℕ) → get_elem? (children s.now i) j ≡ some c → found result ≡ get_elem? (children s.now i) (suc j)) × (found result ≡ behind s.now i c) }
{
    let n = end(s, tab, c);
    if n < end(s, tab, i) {
        return Some(n);
    }
    None
}

// The value k directly inside the one at i.
pub fn nth(s: &[u8], tab: &[u64], i: usize, k: usize) -> Option<usize>
    requires { Accepted s.now tab.now × (i < places s.now) }
    ensures { found result ≡ get_elem? (children s.now i) k }
{
    let e = end(s, tab, i);
    let mut c = i + 1;
    let mut left = k;
    while c < e {
        if left == 0 {
            return Some(c);
        }
        c = end(s, tab, c);
        left -= 1;
    }
    None
}

// How many values stand directly inside the one at i: of a list its length.
pub fn len(s: &[u8], tab: &[u64], i: usize) -> usize
    requires { Accepted s.now tab.now × (i < places s.now) }
    ensures { result ≡ length (children s.now i) }
{
    let e = end(s, tab, i);
    let mut c = i + 1;
    let mut met: usize = 0;
    while c < e {
        c = end(s, tab, c);
        met += 1;
    }
    met
}

// The place p, or another one.
fn or(take: bool, p: usize, other: Option<usize>) -> Option<usize>
    ensures { found result ≡ pick take (some p) (found other) }
{
    if take {
        return Some(p);
    }
    other
}

// The member of that name of the object at i: of equal names the last one.
pub fn member(s: &[u8], tab: &[u64], i: usize, w: &[u8], named: Name) -> Option<usize>
    requires { Accepted s.now tab.now × (i < places s.now) × NameFits named }
    ensures { found result ≡ member s.now i (name_bytes s.now w.now named) }
{
    let e = end(s, tab, i);
    let mut c = i + 1;
    let mut best = None;
    while c < e {
        let n = name(s, tab, c);
        best = or(saying::says(s, n, w, named), c, best);
        c = end(s, tab, c);
    }
    best
}

// Whether each of seven bytes is one of 96 to 127, as small letters are. The compiler makes one comparison of it.
fn are_small(v: u64) -> bool
    ensures { result ≡ true → (t : ℕ) → t < 7 → v / 2 ^ (8 * t + 5) % 8 ≡ 3 }
{
    (v / 32 % 8 == 3)
        & (v / 8192 % 8 == 3)
        & (v / 2097152 % 8 == 3)
        & (v / 536870912 % 8 == 3)
        & (v / 137438953472 % 8 == 3)
        & (v / 35184372088832 % 8 == 3)
        & (v / 9007199254740992 % 8 == 3)
}

// The first m of the seven bytes x as one number with a quote behind them, where they are such bytes; else 0. Those that are not there are filled with 96.
fn short_word(x: u64, m: usize) -> u64
    requires { x < 72057594037927936 }
    ensures { Short x m result }
{
    if 7 < m {
        return 0;
    }
    let k = 8 * m;
    let n = x >> (56 - k);
    let fill = (27127564814278752 >> k) << k;
    if are_small(n + fill) {
        return n * 256 + 34;
    }
    0
}

// The same for the m bytes that are packed into w from the bit place p on, as a number: 0 for none, since place 0 is the whole plan and no member. (member_packed
// has a loop of its own, so that the compiler puts this one into its only caller.)
pub fn member_number(s: &[u8], tab: &[u64], i: usize, w: &[u8], p: usize, m: usize) -> usize
    requires { Accepted s.now tab.now × (i < places s.now) × (p + 8 * m < 18446744073709551616) }
    ensures { numbered result ≡ member s.now i (bytes_at (bits w.now) p m) }
{
    let x = bits::field(w, p, 56);
    let v = short_word(x, m);
    let e = end(s, tab, i);
    let mut c = i + 1;
    let mut best: usize = 0;
    while c < e {
        let n = name(s, tab, c);
        best = choose(saying::says_short(s, n, w, p, m, x, v), c, best);
        c = end(s, tab, c);
    }
    best
}

pub fn member_packed(s: &[u8], tab: &[u64], i: usize, w: &[u8], p: usize, m: usize) -> Option<usize>
    requires { Accepted s.now tab.now × (i < places s.now) × (p + 8 * m < 18446744073709551616) }
    ensures { found result ≡ member s.now i (bytes_at (bits w.now) p m) }
{
    let head = bits::field(w, p, 56);
    let e = end(s, tab, i);
    let mut c = i + 1;
    let mut best = None;
    while c < e {
        let n = name(s, tab, c);
        best = or(saying::says_headed(s, n, w, p, m, head), c, best);
        c = end(s, tab, c);
    }
    best
}

// Whether a byte of a string is one of those that stand for themselves: most do.
fn is_plain(c: u8) -> bool
    ensures { result ≡ is_plain c }
{
    (34 < c) & (c != 92)
}

// The order of what the strings at i and j say. Most names differ at two such bytes.
fn order(s: &[u8], i: usize, j: usize) -> Ordering
    requires { (length s.now ≤ 65536) × (i ≤ 65536) × (j ≤ 65536) }
    ensures { ordering result ≡ cmp (saying s.now i) (saying s.now j) }
{
    let mut p = i + 1;
    let mut q = j + 1;
    loop {
        let a = scan::byte(s, p);
        let b = scan::byte(s, q);
        if !(is_plain(a) & is_plain(b)) {
            return saying::compare(s, i, j);
        }
        if a != b {
            return a.cmp(&b);
        }
        p += 1;
        q += 1;
    }
}

// Whether the string at i is before the one at j. The member `after` meets its own name.
fn is_before(s: &[u8], i: usize, j: usize) -> bool
    requires { (length s.now ≤ 65536) × (i ≤ 65536) × (j ≤ 65536) }
    ensures { result ≡ before (saying s.now i) (saying s.now j) }
{
    if i == j {
        return false;
    }
    order(s, i, j).is_lt()
}

// Whether the strings at i and j say the same.
fn is_same(s: &[u8], i: usize, j: usize) -> bool
    requires { (length s.now ≤ 65536) × (i ≤ 65536) × (j ≤ 65536) }
    ensures { result ≡ same (saying s.now i) (saying s.now j) }
{
    order(s, i, j).is_eq()
}

// Whether the name of the value at c is above that of the one at `after`, where there is one.
fn is_above(s: &[u8], tab: &[u64], after: Option<usize>, c: usize) -> bool
    requires { Accepted s.now tab.now × FoundIn s.now after × (c < places s.now) }
    ensures { result ≡ above (found_name s.now after) (name_at s.now c) }
{
    match after {
        Some(p) => is_before(s, name(s, tab, p), name(s, tab, c)),
        None => true,
    }
}

// Whether the member at c takes the place of the best one so far. Behind that one most names are told by it alone.
fn is_better(s: &[u8], tab: &[u64], after: Option<usize>, best: Option<usize>, c: usize) -> bool
    requires { Accepted s.now tab.now × FoundIn s.now after × FoundIn s.now best × (c < places s.now) }
    ensures { result ≡ better s.now (found_name s.now after) (found best) c }
{
    let Some(b) = best else {
        return is_above(s, tab, after, c);
    };
    if is_before(s, name(s, tab, b), name(s, tab, c)) {
        return false;
    }
    is_above(s, tab, after, c)
}

// The member of the object at i with the least name above that of the one at `after`; the least of all where there is none.
// (A scan, so that walking n members takes n * n comparisons.)
pub fn next_member(s: &[u8], tab: &[u64], i: usize, after: Option<usize>) -> Option<usize>
    requires { Accepted s.now tab.now × (i < places s.now) × FoundIn s.now after }
    ensures { found result ≡ next_member s.now i (found_name s.now after) }
{
    let e = end(s, tab, i);
    let mut c = i + 1;
    let mut best = None;
    while c < e {
        best = or(is_better(s, tab, after, best, c), c, best);
        c = end(s, tab, c);
    }
    best
}

// 1 where none of the first n values directly inside the one at i has the name that the string at q says.
fn is_new(s: &[u8], tab: &[u64], i: usize, n: usize, q: usize) -> usize
    requires { Accepted s.now tab.now × (i < places s.now) × (n ≤ length (children s.now i)) × (q ≤ 65536) }
    ensures { result ≡ one_if_new s.now (saying s.now q) (take n (children s.now i)) }
{
    let mut c = i + 1;
    for _ in 0..n {
        if is_same(s, name(s, tab, c), q) {
            return 0;
        }
        c = end(s, tab, c);
    }
    1
}

// How many members the object at i has, each name once: where it is met first.
pub fn members(s: &[u8], tab: &[u64], i: usize) -> usize
    requires { Accepted s.now tab.now × (i < places s.now) }
    ensures { result ≡ count (members_of (json_at s.now i)) }
{
    if scan::byte(s, start(s, tab, i)) != 123 {
        return 0;
    }
    let e = end(s, tab, i);
    let mut c = i + 1;
    let mut met: usize = 0;
    let mut n: usize = 0;
    while c < e {
        n += is_new(s, tab, i, met, name(s, tab, c));
        c = end(s, tab, c);
        met += 1;
    }
    n
}

// The place that the value at c stands directly inside.
pub fn parent(s: &[u8], tab: &[u64], c: usize) -> usize
    requires { Accepted s.now tab.now × (0 < c) × (c < places s.now) }
    ensures { result ≡ around s.now c }
{
    let mut i: usize = 0;
    let mut d: usize = 1;
    while d != c {
        let n = end(s, tab, d);
        let deeper = c < n;
        i = choose(deeper, d, i);
        d = choose(deeper, d + 1, n);
    }
    i
}

fn choose(t: bool, a: usize, b: usize) -> usize
    ensures { result ≡ pick t a b }
{
    if t { a } else { b }
}

// The number at i without its sign, 0 for no number.
pub fn number(s: &[u8], tab: &[u64], i: usize) -> u64
    requires { Accepted s.now tab.now × (i < places s.now) }
    ensures { result ≡ magnitude_of (json_at s.now i) }
{
    let b = start(s, tab, i);
    let c = scan::byte(s, b);
    if is_other(c) {
        return 0;
    }
    let d = scan::minus_end(s, b);
    let Some(n) = scan::decimal_value(s, d, scan::whole_end(s, d)) else {
        return 0;
    };
    n
}

// Whether a value that starts so is no number.
#[tactic(auto, unfolding(crate::specs::Kinds::is_other))]
fn is_other(c: u8) -> bool
    ensures { result ≡ is_other c }
{
    matches!(c, b'[' | b'{' | b'"' | b't' | b'f' | b'n')
}
