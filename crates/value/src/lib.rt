// json/value.rs: what a value is here. Nothing is copied out of plan or bundle: a value is the place where it stands, or a number. Scopes and
// entries keep it as one number of 32 bits.
#![tactic(auto)]

ghost use Rattle.std.specs.Prelude.{◌≡◌, ◌+◌, ◌*◌, ◌<◌, ◌^◌};
ghost use Rattle.value.specs.Numbers.{Fits, encoded, word_of, place_of, pair_of, decoded};

#[derive(Clone, Copy)]
pub enum Value {
    // what a path that leads nowhere gives
    Missing,
    Null,
    False,
    True,
    // the empty string
    Empty,
    // a place of the plan, with the path to it, or without
    Context(usize),
    Place(usize),
    // a literal of the bundle: its bit place
    Literal(usize),
    // the number of a turn, and its digits as a string
    Index(usize),
    IndexText(usize),
    // a member's name: the place of its first quote in the plan
    Name(usize),
    // a string of the bundle: the bit place of its count
    Text(usize),
    // a character of so many bytes: of a string of the plan, or packed in the bundle
    SaidChar(usize, usize),
    PackedChar(usize, usize),
    // the merged object of an open partial: its first entry, and how many hash pairs it has
    Merged(usize, usize),
}

fn tagged(tag: u32, x: usize) -> u32
    requires { (tag < 16) × (x < 2 ^ 27) }
    ensures { result ≡ tag + 16 * x }
{
    tag + 16 * (x as u32)
}

pub fn encode(v: Value) -> u32
    requires { Fits v }
    ensures { result ≡ encoded v }
{
    match v {
        Value::Missing => 0,
        Value::Null => 1,
        Value::False => 2,
        Value::True => 3,
        Value::Empty => 4,
        Value::Context(i) => tagged(5, i),
        Value::Place(i) => tagged(6, i),
        Value::Literal(p) => tagged(7, p),
        Value::Index(n) => tagged(8, n),
        Value::IndexText(n) => tagged(9, n),
        Value::Name(o) => tagged(10, o),
        Value::Text(p) => tagged(11, p),
        Value::SaidChar(o, n) => tagged(12, 8 * o + n),
        Value::PackedChar(p, n) => tagged(13, 8 * p + n),
        Value::Merged(h, n) => tagged(14, 16 * h + n),
    }
}

// The kinds that say all.
fn decode_word(tag: u32) -> Value
    ensures { result ≡ word_of tag }
{
    if tag == 0 {
        return Value::Missing;
    }
    if tag == 1 {
        return Value::Null;
    }
    if tag == 2 {
        return Value::False;
    }
    if tag == 3 {
        return Value::True;
    }
    Value::Empty
}

// The kinds of one number.
fn decode_place(tag: u32, x: usize) -> Value
    ensures { result ≡ place_of tag x }
{
    if tag == 5 {
        return Value::Context(x);
    }
    if tag == 6 {
        return Value::Place(x);
    }
    if tag == 7 {
        return Value::Literal(x);
    }
    if tag == 8 {
        return Value::Index(x);
    }
    if tag == 9 {
        return Value::IndexText(x);
    }
    if tag == 10 {
        return Value::Name(x);
    }
    Value::Text(x)
}

// The kinds of two numbers.
fn decode_pair(tag: u32, x: usize) -> Value
    ensures { result ≡ pair_of tag x }
{
    if tag == 12 {
        return Value::SaidChar(x / 8, x % 8);
    }
    if tag == 13 {
        return Value::PackedChar(x / 8, x % 8);
    }
    Value::Merged(x / 16, x % 16)
}

pub fn decode(n: u32) -> Value
    ensures { result ≡ decoded n }
{
    let tag = n % 16;
    let x = (n / 16) as usize;
    if tag < 5 {
        return decode_word(tag);
    }
    if tag < 12 {
        return decode_place(tag, x);
    }
    decode_pair(tag, x)
}
