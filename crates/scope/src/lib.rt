// block.rs, local_vars.rs and the part of context.rs that reads them: a scope as a record of numbers. The stack of scopes is an array of 32 of them by value.
#![tactic(auto)]

ghost use Rattle.std.specs.Prelude.{◌≡◌, ◌^◌, ◌≤◌, ◌<◌, length, set, replicate};
ghost use Rattle.rules.specs.Bytes.{same, pick};
ghost use Rattle.rules.specs.Bits.{bits};
ghost use Rattle.rules.specs.Layout.{field};
ghost use Rattle.rules.specs.Bundle.{string};
ghost use Rattle.bits.specs.Packed.{number_bytes};
ghost use Rattle.layout.specs.Text.{text_at};
ghost use Rattle.parts.specs.Holds.{Holds};
ghost use Rattle.scope.specs.Scopes.{blank};
ghost use Rattle.scope.specs.Standing.{NamesStand};
ghost use Rattle.value.specs.Numbers.{decoded};
ghost use Rattle.scope.specs.Names.{Readable, AllReadable, HashReadable, without_path, hash_param, second_value, one_param, two_params, spare, numbered, Settled, FirstNumber, flag, local_key, local_variable};
ghost use Rattle.scope.specs.NameBits.{bit_of, HasKeys, Covers};
ghost use Rattle.scope.specs.Made.{child, with_names, with_locals, with_count, turned};

use value::Value;

// One open scope. Values are kept as `value::encode` makes them.
#[derive(Clone, Copy)]
pub struct Scope {
    // what `this` is: a place of the plan with its path, or any other value
    pub base: u32,
    // the bit place of the block's first name
    pub names: u32,
    // `@key` of a turn over an object
    pub key: u32,
    // `@index`
    pub index: u16,
    // the inline partials: their first entry, and how many
    pub inline: u16,
    pub count: u16,
    // the length of a partial's block text
    pub text: u16,
    // block names: 0 none, 1 one, 2 two, 3 those of a partial's hash, which is merged into the base
    pub kind: u8,
    // local variables: 0 none; else one more than: 1 for the first turn, 2 for the last, 4 for a turn over an object
    pub locals: u8,
    // a partial's block text: 0 not yet or no partial, 1 none, 2 there is one
    pub block: u8,
}

// One place is changed: the stack is handed in and back.
pub fn put_scope(scopes: [Scope; 32], i: usize, c: Scope) -> [Scope; 32]
    requires { i < 32 }
    ensures { result ≡ set scopes i c }
{
    let mut r = scopes;
    r[i] = c;
    r
}

// A value without its path: what is missing is null.
pub fn without_path(v: Value) -> Value
    ensures { result ≡ without_path v }
{
    match v {
        Value::Missing => Value::Null,
        Value::Context(i) => Value::Place(i),
        w => w,
    }
}

// The head of a string is its count and the first five bytes behind it, 56 bits, which a caller reads once for many.

// One in the count
const COUNT: u64 = 1 << 40;
// a count of more bytes than a head has
const LONG: u64 = 6 << 40;

// So many bits of a head stand behind a string that has fewer bytes.
pub fn spare(y: u64) -> u64
    ensures { result ≡ spare y }
{
    if y < LONG {
        return 40 - 8 * (y / COUNT);
    }
    0
}

// Whether the strings at the bits p and q are the same bytes, where x and y are their heads, and k bits of y stand behind its string.
fn same_headed(b: &[u8], p: usize, x: u64, q: usize, y: u64, k: u64) -> bool
    requires { (p ≤ 524288)
        × (q ≤ 524288)
        × (x ≡ field (bits b.now) 56 p)
        × (y ≡ field (bits b.now) 56 q)
        × (k ≡ spare y) }
    ensures { result ≡ same (text_at (bits b.now) p) (text_at (bits b.now) q) }
{
    if x >> k != y >> k {
        return false;
    }
    // at most five bytes
    if y < LONG {
        return true;
    }
    layout::same_text(b, p, q)
}

// What a name stands for is looked for as a number: 0 for nothing, else one more than `value::encode` makes of the value. An enum would go through memory.

// The number of the value n without its path.
fn bare(n: u32) -> u32
    ensures { decoded result ≡ without_path (decoded n) }
{
    if n % 16 == 0 {
        return 1;
    }
    if n % 16 == 5 {
        return n + 1;
    }
    n
}

// Among the n hash pairs from h on. The name is the string at p, and x its head with k bits behind it.
fn hash_number(b: &[u8], ent: &[u64], h: usize, n: usize, p: usize, x: u64, k: u64) -> u64
    requires { (length b.now ≤ 65536)
        × (p ≤ 524288)
        × HashReadable b.now ent.now h n
        × (x ≡ field (bits b.now) 56 p)
        × (k ≡ spare x) }
    ensures { (numbered result ≡ hash_param b.now ent.now (text_at (bits b.now) p) h
        n)
        × (result ≤ 4294967296) }
{
    for i in 0..n {
        let e = h + i;
        let q = entries::place(ent, e);
        if same_headed(b, q, bits::field(b, q, 56), p, x, k) {
            let low = entries::low(ent, e);
            return 1 + (bare(low) as u64);
        }
    }
    0
}

// What the second name of `each` stands for.
fn second_number(c: Scope) -> u32
    ensures { (decoded result ≡ second_value c) × (c.index < 65536) }
{
    let index = c.index as u32;
    if 5 <= c.locals {
        return bare(c.key);
    }
    8 + 16 * index
}

fn one_number(b: &[u8], c: Scope, p: usize, x: u64, k: u64) -> u64
    requires { (p ≤ 524288) × (c.names ≤ 524288) × (x ≡ field (bits b.now) 56 p) × (k ≡ spare x) }
    ensures { (numbered result ≡ one_param b.now c (text_at (bits b.now) p)) × (result ≤ 4294967296) }
{
    let base = c.base as u64;
    let q = c.names as usize;
    if same_headed(b, q, bits::field(b, q, 56), p, x, k) {
        return 1 + base;
    }
    0
}

// The second name wins. Its place follows from the head of the first.
fn two_number(b: &[u8], c: Scope, p: usize, x: u64, k: u64) -> u64
    requires { (length b.now ≤ 65536)
        × (p ≤ 524288)
        × NamesStand b.now c 2
        × (x ≡ field (bits b.now) 56 p)
        × (k ≡ spare x) }
    ensures { (numbered result ≡ two_params b.now c (text_at (bits b.now) p))
        × (result ≤ 4294967296)
        × (c.index < 65536) }
{
    let base = c.base as u64;
    let second = second_number(c);
    let q = c.names as usize;
    let y = bits::field(b, q, 56);
    let next = q + 16 + 8 * ((y / COUNT) as usize);
    if same_headed(b, next, bits::field(b, next, 56), p, x, k) {
        return 1 + (second as u64);
    }
    if same_headed(b, q, y, p, x, k) {
        return 1 + base;
    }
    0
}

// Among the scope's own block names.
pub fn own_number(b: &[u8], ent: &[u64], c: Scope, p: usize, x: u64, k: u64) -> u64
    requires { (length b.now ≤ 65536)
        × (p ≤ 524288)
        × Readable b.now ent.now c
        × (x ≡ field (bits b.now) 56 p)
        × (k ≡ spare x) }
    ensures { Settled b.now ent.now c (text_at (bits b.now) p) result }
{
    match c.kind {
        0 => 0,
        1 => one_number(b, c, p, x, k),
        2 => two_number(b, c, p, x, k),
        _ => match value::decode(c.base) {
            Value::Merged(h, n) => hash_number(b, ent, h, n, p, x, k),
            _ => 0,
        },
    }
}

// From the newest scope on.
pub fn param_number(b: &[u8], ent: &[u64], scopes: [Scope; 32], used: usize, p: usize) -> u64
    requires { (length b.now ≤ 65536)
        × Holds string (bits b.now) p
        × (used ≤ 32)
        × AllReadable b.now ent.now scopes used }
    ensures { FirstNumber b.now ent.now scopes (text_at (bits b.now) p) used result }
{
    let x = bits::field(b, p, 56);
    let k = spare(x);
    for i in (0..used).rev() {
        let c = scopes[i];
        if c.kind != 0 {
            let n = own_number(b, ent, c, p, x, k);
            if n != 0 {
                return n;
            }
        }
    }
    0
}

// The bit of a name in a set of names: by the count and the first byte of the string at p.
pub fn name_bit(b: &[u8], p: usize) -> u64
    ensures { result ≡ 2 ^ bit_of (text_at (bits b.now) p) }
{
    let x = bits::field(b, p, 24);
    // behind an empty string stands something else
    if x < 256 {
        return 1;
    }
    1 << ((x + x / 8) % 64)
}

fn hash_bits(b: &[u8], ent: &[u64], h: usize, n: usize) -> u64
    requires { HashReadable b.now ent.now h n }
    ensures { HasKeys b.now ent.now result h n }
{
    let mut r = 0;
    for i in 0..n {
        r |= name_bit(b, entries::place(ent, h + i));
    }
    r
}

// A set in which the scope's block names are.
pub fn names_of(b: &[u8], ent: &[u64], c: Scope) -> u64
    requires { (length b.now ≤ 65536) × Readable b.now ent.now c }
    ensures { Covers result b.now ent.now c }
{
    let q = c.names as usize;
    match c.kind {
        0 => 0,
        1 => name_bit(b, q),
        2 => {
            let next = parts::skip_string(b, q);
            name_bit(b, q) | name_bit(b, next)
        }
        _ => match value::decode(c.base) {
            Value::Merged(h, n) => hash_bits(b, ent, h, n),
            _ => 0,
        },
    }
}

fn flag(yes: bool) -> Value
    ensures { result ≡ flag yes }
{
    if yes { Value::True } else { Value::False }
}

// `@key`, of a turn over an object.
fn local_key(c: Scope) -> Option<Value>
    ensures { result ≡ local_key c }
{
    if 5 <= c.locals {
        return Some(without_path(value::decode(c.key)));
    }
    None
}

// Whether the last bytes of a number are those of t. The compiler makes one comparison of it where t is known.
fn spells(z: u64, t: &[u8]) -> bool
    requires { length t.now ≤ 8 }
    ensures { result ≡ same (number_bytes (length t.now) z) t.now }
{
    let n = t.len();
    for (i, &c) in t.iter().enumerate() {
        if ((z >> (8 * (n - 1 - i))) % 256) as u8 != c {
            return false;
        }
    }
    true
}

// The local variable of the scope that the string at p names. Its count and its first five bytes are read at once: count and first byte leave one name at most to
// be compared.
pub fn local_variable(b: &[u8], c: Scope, p: usize) -> Option<Value>
    requires { p ≤ 524288 }
    ensures { (c.index < 65536) × (result ≡ local_variable c (text_at (bits b.now) p)) }
{
    let index = c.index as usize;
    if c.locals == 0 {
        return None;
    }
    let turn = c.locals - 1;
    let z = bits::field(b, p, 56);
    let x = z >> 32;
    if x == names::head(b"first") && spells(z, b"first") {
        return Some(flag(turn % 2 == 1));
    }
    if x == names::head(b"last") && spells(z >> 8, b"last") {
        return Some(flag(turn / 2 % 2 == 1));
    }
    if x == names::head(b"index") && spells(z, b"index") {
        return Some(Value::Index(index));
    }
    if x == names::head(b"key") && spells(z >> 16, b"key") {
        return local_key(c);
    }
    None
}

// A new scope with its base; its inline partials start at an entry.
pub fn child(base: u32, inline: u16) -> Scope
    ensures { result ≡ child base inline }
{
    Scope {
        base: base,
        names: 0,
        key: 0,
        index: 0,
        inline: inline,
        count: 0,
        text: 0,
        kind: 0,
        locals: 0,
        block: 0,
    }
}

// With block names: their kind, and the bit place of the first.
pub fn with_names(c: Scope, kind: u8, names: u32) -> Scope
    ensures { result ≡ with_names c kind names }
{
    let mut r = c;
    r.kind = kind;
    r.names = names;
    r
}

// With the local variables of the scope around.
pub fn with_locals(c: Scope, around: Scope) -> Scope
    ensures { result ≡ with_locals c around }
{
    let mut r = c;
    r.key = around.key;
    r.index = around.index;
    r.locals = around.locals;
    r
}

// With so many inline partials.
pub fn with_count(c: Scope, count: usize) -> Scope
    requires { count < 65536 }
    ensures { result ≡ with_count c count }
{
    let mut r = c;
    r.count = count as u16;
    r
}

fn weight(yes: bool, n: u8) -> u8
    ensures { (result ≡ pick yes n 0) × (result ≤ n) }
{
    if yes {
        return n;
    }
    0
}

// A turn of `each`.
pub fn turn(
    c: Scope,
    base: u32,
    key: u32,
    index: usize,
    first: bool,
    last: bool,
    object: bool,
) -> Scope
    requires { index < 65536 }
    ensures { result ≡ turned c base key index first last object }
{
    let mut r = c;
    r.base = base;
    r.key = key;
    r.index = index as u16;
    r.locals = 1 + weight(first, 1) + weight(last, 2) + weight(object, 4);
    r
}

// The stack of a call that begins: its first scope, and each that is not yet open, is the whole plan.
pub fn begin() -> [Scope; 32]
    ensures { result ≡ replicate 32 blank }
{
    let c = child(5, 0);
    [c; 32]
}
