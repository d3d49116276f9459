// Scopes by fixed cases: first what three names stand for, then local variables, then scopes of a stack.
#![tactic(auto)]

ghost use Rattle.std.specs.Prelude.{◌≤◌, length};
ghost use Rattle.rules.specs.Bits.{bits};
ghost use Rattle.rules.specs.Bundle.{string};
ghost use Rattle.parts.specs.Holds.{Holds};
ghost use Rattle.scope.specs.Names.{AllReadable};

use scope::Scope;
use std::io;
use std::io::Write;
use value::Value;

fn print(rt: &impl Print, s: &[u8]) -> io::Result<()> {
    io::writer(rt).write_all(s)
}

fn print_place(rt: &impl Print, s: &[u8], n: usize) -> io::Result<()> {
    print(rt, s)?;
    print!(rt; "{n}, ")
}

fn print_value(rt: &impl Print, v: Value) -> io::Result<()> {
    match v {
        Value::Null => print(rt, b"null, "),
        Value::False => print(rt, b"false, "),
        Value::True => print(rt, b"true, "),
        Value::Context(i) => print_place(rt, b"context ", i),
        Value::Place(i) => print_place(rt, b"place ", i),
        Value::Index(n) => print_place(rt, b"index ", n),
        Value::Text(p) => print_place(rt, b"text ", p),
        Value::Merged(h, n) => print_place(rt, b"merged ", 16 * (h % 65536) + n % 16),
        _ => print(rt, b"another, "),
    }
}

fn print_param(rt: &impl Print, r: Option<Value>) -> io::Result<()> {
    match r {
        Some(v) => print_value(rt, v),
        None => print(rt, b"-, "),
    }
}

// What a name stands for, as `scope::param_number` answers.
fn print_number(rt: &impl Print, n: u64) -> io::Result<()>
    requires { n ≤ 4294967296 }
{
    if n == 0 {
        print_param(rt, None)
    } else {
        print_value(rt, value::decode((n - 1) as u32))
    }
}

// Three names in the first scopes.
fn print_names(
    rt: &impl Print,
    b: &[u8],
    ent: &[u64],
    scopes: [Scope; 32],
    used: usize,
) -> io::Result<()>
    requires { (length b.now ≤ 65536)
        × (Holds string (bits b.now) 0 × Holds string (bits b.now) 24 × Holds string (bits b.now) 48)
        × (used ≤ 32)
        × AllReadable b.now ent.now scopes used }
{
    print_number(rt, scope::param_number(b, ent, scopes, used, 0))?;
    print_number(rt, scope::param_number(b, ent, scopes, used, 24))?;
    print_number(rt, scope::param_number(b, ent, scopes, used, 48))?;
    print(rt, b"\n")
}

// The local variables of a scope.
fn print_locals(rt: &impl Print, b: &[u8], c: Scope) -> io::Result<()> {
    print_param(rt, scope::local_variable(b, c, 72))?;
    print_param(rt, scope::local_variable(b, c, 128))?;
    print_param(rt, scope::local_variable(b, c, 176))?;
    print_param(rt, scope::local_variable(b, c, 232))?;
    print_param(rt, scope::local_variable(b, c, 272))?;
    print(rt, b"\n")
}

fn print_base(rt: &impl Print, c: Scope) -> io::Result<()> {
    print_value(rt, value::decode(c.base))?;
    print_value(rt, value::decode(c.key))?;
    print_place(rt, b"entry ", c.inline as usize)?;
    print_place(rt, b"count ", c.count as usize)?;
    print(rt, b"\n")
}

// Names of a turn over an object with two names, a and b, over the plan's place 6, with @key a text of the bundle.
fn print_two(rt: &impl Print) -> io::Result<()> {
    let b = b"\x00\x01a\x00\x01b\x00\x01c";
    let ent: [u64; 4] = [0, 0, 0, 0];
    let two = Scope {
        base: 101,
        names: 0,
        key: 395,
        index: 0,
        inline: 0,
        count: 0,
        text: 0,
        kind: 2,
        locals: 6,
        block: 0,
    };
    print_names(rt, b, &ent, scope::put_scope(scope::begin(), 0, two), 1)
}

// Names of a partial whose hash has a for the number of a turn, and c for the plan's place 9, whose path is forgotten.
fn print_hash(rt: &impl Print) -> io::Result<()> {
    let b = b"\x00\x01a\x00\x01b\x00\x01c";
    let ent: [u64; 4] = [120, 0, 149, 48];
    let hash = Scope {
        base: 46,
        names: 0,
        key: 0,
        index: 0,
        inline: 2,
        count: 0,
        text: 0,
        kind: 3,
        locals: 0,
        block: 0,
    };
    print_names(rt, b, &ent, scope::put_scope(scope::begin(), 0, hash), 1)
}

fn main(rt: HostRuntime) -> io::Result<()> {
    print_two(&rt)?;
    print_hash(&rt)?;
    let b =
        b"\x00\x01a\x00\x01b\x00\x01c\x00\x05first\x00\x04last\x00\x05index\x00\x03key\x00\x05other";
    // the plan; a turn over a list, the fourth; the last turn over an object; a scope that has the local variables of that
    let root = scope::child(5, 0);
    let one = scope::turn(scope::with_names(root, 1, 0), 53, 0, 3, false, false, false);
    let two = scope::turn(
        scope::with_names(root, 2, 0),
        101,
        395,
        9,
        false,
        true,
        true,
    );
    let front = scope::with_locals(scope::child(6, 2), two);
    // the newest first, and one that is not yet open
    print_locals(&rt, b, front)?;
    print_locals(&rt, b, two)?;
    print_locals(&rt, b, one)?;
    print_locals(&rt, b, root)?;
    let begun = scope::begin();
    print_locals(&rt, b, begun[4])?;
    // as they are put on the stack, and where one is put twice
    let scopes = scope::put_scope(scope::put_scope(begun, 2, two), 3, front);
    print_base(&rt, scopes[3])?;
    print_base(&rt, scopes[2])?;
    print_base(&rt, scopes[0])?;
    let more = scope::put_scope(scopes, 4, front);
    print_base(&rt, more[4])?;
    print_base(&rt, scope::with_count(two, 2))
}
