// helpers/helper_each.rs, helpers/helper_with.rs and helpers/block_util.rs: the scopes that `each` and `with` open.
#![tactic(auto)]

ghost use Rattle.std.specs.Prelude.{◌≡◌, ◌+◌, ◌≤◌, ◌<◌, eqb, length};
ghost use Rattle.rules.specs.Bits.{bits};
ghost use Rattle.value.specs.Numbers.{Fits, encoded};
ghost use Rattle.scope.specs.Made.{turned};
ghost use Rattle.rules.specs.Bundle.{block_names};
ghost use Rattle.parts.specs.Holds.{Holds};
ghost use Rattle.parts.specs.Views.{names_view};
ghost use Rattle.blocks.specs.Opened.{NamesNear, named, with_scope, each_scope};

use parts::BlockParam;
use scope::Scope;
use value::Value;

// With the block names of `each`: their kind, and the place of the first.
fn named(c: Scope, names: BlockParam) -> Scope
    requires { NamesNear names }
    ensures { result ≡ named c names }
{
    match names {
        BlockParam::None => c,
        BlockParam::Single(p) => scope::with_names(c, 1, p as u32),
        BlockParam::Pair(p, _) => scope::with_names(c, 2, p as u32),
    }
}

// Behind the entries of the scope around.
fn behind(around: Scope) -> u16
    requires { around.inline + around.count ≤ 4096 }
    ensures { result ≡ around.inline + around.count }
{
    around.inline + around.count
}

// The scope of `with`: a second name is not heeded. The local variables are those of the scope around.
fn with_scope(v: Value, names: BlockParam, around: Scope) -> Scope
    requires { Fits v × NamesNear names × (around.inline + around.count ≤ 4096) }
    ensures { result ≡ with_scope v names around }
{
    let c = scope::with_locals(scope::child(value::encode(v), behind(around)), around);
    match names {
        BlockParam::None => c,
        BlockParam::Single(p) => scope::with_names(c, 1, p as u32),
        BlockParam::Pair(_, _) => c,
    }
}

// The scope of `each` before its first turn.
fn each_scope(v: Value, names: BlockParam, around: Scope) -> Scope
    requires { Fits v × NamesNear names × (around.inline + around.count ≤ 4096) }
    ensures { result ≡ each_scope v names around }
{
    named(scope::child(value::encode(v), behind(around)), names)
}

// A turn of `each`: the scope has the item, its key and its number.
pub fn turn_scope(c: Scope, item: Value, key: Value, k: usize, object: bool, last: bool) -> Scope
    requires { Fits item × Fits key × (k < 65536) }
    ensures { result ≡ turned c (encoded item) (encoded key) k (eqb k 0) last object }
{
    scope::turn(
        c,
        value::encode(item),
        value::encode(key),
        k,
        k == 0,
        last,
        object,
    )
}

// The scope of `with`; its names stand at the place `at` of the bundle b.
pub fn open_with(b: &[u8], front: Scope, at: usize, v: Value) -> Scope
    requires { (length b.now ≤ 65536) × Holds block_names (bits b.now) at × Fits v × (front.inline + front.count ≤ 4096) }
    ensures { result ≡ with_scope v (names_view (bits b.now) at) front }
{
    let names = parts::block_names_at(b, at);
    with_scope(v, names, front)
}

// The scope of `each`.
pub fn open_each(b: &[u8], front: Scope, at: usize, v: Value) -> Scope
    requires { (length b.now ≤ 65536) × Holds block_names (bits b.now) at × Fits v × (front.inline + front.count ≤ 4096) }
    ensures { result ≡ each_scope v (names_view (bits b.now) at) front }
{
    let names = parts::block_names_at(b, at);
    each_scope(v, names, front)
}
