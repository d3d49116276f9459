// The plan reader: one pass over the text of a plan, which numbers its values in the order in which they start.
#![tactic(auto)]

ghost use Rattle.std.specs.Prelude.{◌≡◌, suc, ◌+◌, ◌≤◌, ◌<◌, length, set};
ghost use Rattle.rules.specs.Scan.{spaces_end, scalar_end};
ghost use Rattle.rules.specs.Tree.{leaf, colon_end, name_end, item_place, item_name, items, is_open, value_of};
ghost use Rattle.rules.specs.Plan.{answer};
ghost use Rattle.plan_read.specs.Table.{entry, table};
ghost use Rattle.plan_read.specs.Reading.{Meets, MeetsAll, judged};
ghost use Rattle.plan_read.specs.Quick.{Marked, plain_end};

use clear::clear;
use error::{NUMBER_NOT_INTEGER, PLAN_NOT_JSON, PLAN_TOO_LARGE, TOO_MANY_VALUES};
use scan::{byte, spaces_end};

// How many bytes a plan may have, how many values, and how deep it may go
const BYTES: usize = 65536;

const VALUES: usize = 4096;

const DEPTH: usize = 32;

// The place behind what is not there
const NOTHING: usize = 0;

// Where the name of a value starts that has none
const NO_NAME: usize = 0;

// Every place of a text fits 16 bits.
const PLACES: u64 = 1 << 16;

// From `[` to `]`, and from `{` to `}`
const TO_CLOSE: u8 = b']' - b'[';

// What was read: the place behind it or `NOTHING`, the values numbered so far, and how many numbers check 9 refuses.
#[derive(Clone, Copy)]
struct Read {
    at: usize,
    count: usize,
    bad: usize,
}

// A value's entry.
fn entry_of(start: usize, name: usize, next: usize) -> u64
    requires { (start < 65536) × (name < 65536) × (next ≤ 65537) }
    ensures { result ≡ entry start name next }
{
    (start as u64) + PLACES * ((name as u64) + PLACES * (next as u64))
}

// Stores an entry where there is room: a plan of more values than the table has entries is refused, and the table cleared.
fn put(tab: &mut [u64], n: usize, e: u64)
    ensures { tab.new ≡ set tab.old n e }
{
    if n < tab.len() {
        tab[n] = e;
    }
}

// The place behind the value at i, which is no array and no object.
#[tactic(auto, unfolding(rules::specs::Scan::scalar_end))]
fn scalar_end(s: &[u8], i: usize) -> usize
    requires { (i ≤ length s.now) × (length s.now ≤ 65536) }
    ensures { result ≡ scalar_end s.now i }
{
    match byte(s, i) {
        b'"' => strings::string_end(s, i + 1),
        b't' => scan::word_end(b"true", s, i),
        b'f' => scan::word_end(b"false", s, i),
        b'n' => scan::word_end(b"null", s, i),
        _ => scan::number_end(s, i),
    }
}

// A value without others in it; its own number is n.
fn read_leaf(s: &[u8], tab: &mut [u64], i: usize, name: usize, n: usize, bad: usize) -> Read
    requires { (i ≤ length s.now) × (length s.now ≤ 65536) × (name < 65536) × (n ≤ i) × (bad ≤ n) }
    ensures { Meets s.now i n bad tab.old (leaf s.now i name) result
        tab.new }
{
    let e = scalar_end(s, i);
    if e == NOTHING {
        return Read {
            at: NOTHING,
            count: n,
            bad: bad,
        };
    }
    let b = scan::refused_at(s, i);
    put(tab, n, entry_of(i, name, n + 1));
    Read {
        at: e,
        count: n + 1,
        bad: bad + b,
    }
}

// A place and the byte there.
#[derive(Clone, Copy)]
struct Mark {
    at: usize,
    byte: u8,
}

// The first place from i on that is no white space. (Most often one look at i finds both.)
fn find_mark(s: &[u8], i: usize) -> Mark
    ensures { Marked s.now i result }
{
    let c = byte(s, i);
    if b' ' < c {
        return Mark { at: i, byte: c };
    }
    let e = spaces_end(s, i);
    Mark {
        at: e,
        byte: byte(s, e),
    }
}

// The place of the value behind white space from i on and a colon.
fn colon_behind(s: &[u8], i: usize) -> usize
    requires { (i ≤ length s.now) × (length s.now ≤ 65536) }
    ensures { result ≡ colon_end s.now (spaces_end s.now i) }
{
    let m = find_mark(s, i);
    if m.byte == b':' {
        let at = m.at;
        return spaces_end(s, at + 1);
    }
    NOTHING
}

// The place of the value behind a name at i and its colon.
fn name_end(s: &[u8], i: usize) -> usize
    requires { (i ≤ length s.now) × (length s.now ≤ 65536) }
    ensures { result ≡ name_end s.now i }
{
    if byte(s, i) != b'"' {
        return NOTHING;
    }
    let e = strings::string_end(s, i + 1);
    if e == NOTHING {
        return NOTHING;
    }
    colon_behind(s, e)
}

// The place of the value of the item at i. `close` is the byte that ends the items.
#[tactic(auto, unfolding(rules::specs::Tree::item_place))]
fn item_place(s: &[u8], close: u8, i: usize) -> usize
    requires { (i ≤ length s.now) × (length s.now ≤ 65536) }
    ensures { result ≡ item_place s.now close i }
{
    if close == b'}' { name_end(s, i) } else { i }
}

// Where the name of the item at i starts; items of an array have none.
#[tactic(auto, unfolding(rules::specs::Tree::item_name))]
fn item_name(close: u8, i: usize) -> usize
    ensures { result ≡ item_name close i }
{
    if close == b'}' { i } else { NO_NAME }
}

// `[` and `{`.
fn is_open(c: u8) -> bool
    ensures { result ≡ is_open c }
{
    (c == b'[') | (c == b'{')
}

// The value at i, of depth `left` at most; its own number is n.
#[cycle(reading)]
fn read_value(
    s: &[u8],
    tab: &mut [u64],
    i: usize,
    name: usize,
    left: usize,
    n: usize,
    bad: usize,
) -> Read
    requires { (i ≤ length s.now) × (length s.now ≤ 65536) × (name < 65536) × (n ≤ i) × (bad ≤ n) }
    ensures { Meets s.now i n bad tab.old (value_of s.now left i name) result
        tab.new }
{
    let c = byte(s, i);
    if !is_open(c) {
        return read_leaf(s, tab, i, name, n, bad);
    }
    if left == 0 {
        return Read {
            at: NOTHING,
            count: n,
            bad: bad,
        };
    }
    let j = spaces_end(s, i + 1);
    let close = c + TO_CLOSE;
    if byte(s, j) == close {
        put(tab, n, entry_of(i, name, n + 1));
        return Read {
            at: j + 1,
            count: n + 1,
            bad: bad,
        };
    }
    let r = read_items(s, tab, close, j, left - 1, n + 1, bad);
    if r.at == NOTHING {
        return r;
    }
    put(tab, n, entry_of(i, name, r.count));
    r
}

// The place behind a value that is read at once, at i: a number of few digits, a string of plain characters, a word.
#[tactic(auto, unfolding(crate::specs::Quick::plain_end))]
fn plain_end(s: &[u8], i: usize) -> usize
    requires { (i ≤ length s.now) × (length s.now ≤ 65536) }
    ensures { result ≡ plain_end s.now i }
{
    let e = scan::plain_number_end(s, i);
    if e != NOTHING {
        return e;
    }
    match byte(s, i) {
        b'"' => strings::plain_string_end(s, i + 1),
        b't' => scan::word_end(b"true", s, i),
        b'f' => scan::word_end(b"false", s, i),
        b'n' => scan::word_end(b"null", s, i),
        _ => NOTHING,
    }
}

// The value of an item at i, as `read_value` reads it. (Most are read at once, and then no call is made.)
#[cycle(reading)]
fn read_item(
    s: &[u8],
    tab: &mut [u64],
    i: usize,
    name: usize,
    left: usize,
    n: usize,
    bad: usize,
) -> Read
    requires { (i ≤ length s.now) × (length s.now ≤ 65536) × (name < 65536) × (n ≤ i) × (bad ≤ n) }
    ensures { Meets s.now i n bad tab.old (value_of s.now left i name) result
        tab.new }
{
    let e = plain_end(s, i);
    if e == NOTHING {
        return read_value(s, tab, i, name, left, n, bad);
    }
    put(tab, n, entry_of(i, name, n + 1));
    Read {
        at: e,
        count: n + 1,
        bad: bad,
    }
}

// The items from i on, up to what closes them; the first one's number is n.
#[cycle(reading)]
fn read_items(
    s: &[u8],
    tab: &mut [u64],
    close: u8,
    i: usize,
    left: usize,
    n: usize,
    bad: usize,
) -> Read
    requires { (i ≤ length s.now) × (length s.now ≤ 65536) × (n ≤ i) × (bad ≤ n) × (0 < close) }
    ensures { MeetsAll s.now i n bad tab.old
        (items s.now (value_of s.now left) close (suc (length s.now)) i) result
        tab.new }
{
    let mut j = i;
    let mut m = n;
    let mut b = bad;
    loop {
        let p = item_place(s, close, j);
        if p == NOTHING {
            return Read {
                at: NOTHING,
                count: m,
                bad: b,
            };
        }
        let r = read_item(s, tab, p, item_name(close, j), left, m, b);
        if r.at == NOTHING {
            return r;
        }
        let at = r.at;
        let k = find_mark(s, at);
        let e = k.at;
        let c = k.byte;
        if c == close {
            return Read {
                at: e + 1,
                count: r.count,
                bad: r.bad,
            };
        }
        if c != b',' {
            return Read {
                at: NOTHING,
                count: m,
                bad: b,
            };
        }
        j = spaces_end(s, e + 1);
        m = r.count;
        b = r.bad;
    }
}

// The number that the whole text gets.
fn judge(s: &[u8], r: Read) -> u8
    ensures { result ≡ judged s.now r }
{
    let at = r.at;
    if at == NOTHING {
        return PLAN_NOT_JSON;
    }
    if spaces_end(s, at) != s.len() {
        return PLAN_NOT_JSON;
    }
    if r.bad != 0 {
        return NUMBER_NOT_INTEGER;
    }
    if VALUES < r.count {
        return TOO_MANY_VALUES;
    }
    0
}

// Checks 7 to 10: the number of the refusal, or 0 and the table of the plan's values. After a refusal the table is all zero.
pub fn read_plan(s: &[u8], tab: &mut [u64]) -> u8
    ensures value { result ≡ answer s.now }
    ensures tab_after { tab.new ≡ table (length tab.old) s.now }
{
    clear(tab, 0);
    if BYTES < s.len() {
        return PLAN_TOO_LARGE;
    }
    let r = read_value(s, tab, spaces_end(s, 0), NO_NAME, DEPTH, 0, 0);
    let v = judge(s, r);
    if v != 0 {
        clear(tab, 0);
    }
    v
}
