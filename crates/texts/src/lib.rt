// partial.rs: what stands around the drawing of a partial whose scope is open: its block text, its indent, and what is set again behind it.
#![tactic(auto)]

ghost use Rattle.std.specs.Prelude.{◌≡◌, List, ◌+◌, ◌-◌, ◌^◌, ◌≤◌, ◌<◌, length};
ghost use Rattle.std.proofs.lemmas.List.Edits.{sets};
ghost use Rattle.std.proofs.Math.Seq.{slice};
ghost use Rattle.scope.specs.declared.Scope.{Scope};
ghost use Rattle.state.specs.Context.{whole};
ghost use Rattle.state.specs.World.{sizes_of};
ghost use Rattle.texts.specs.Setters.{text_opened, with_block, text_moved, indented, concluded};
ghost use Rattle.texts.specs.Peeking.{peeked};

use scope::Scope;
use state::RenderContext;

// What a partial's own body writes is its block text from here on.
pub fn open_text(rc: RenderContext) -> RenderContext
    ensures { (l : List Scope) → whole result l ≡ text_opened (whole rc l) }
{
    let mut w = rc.writer;
    w.block_text = true;
    state::set_writer(rc, w)
}

// What a scope's `block` says of a partial that has no text, and of one that has.
const NO_TEXT: u8 = 1;

const SOME_TEXT: u8 = 2;

fn with_block(c: Scope, block: u8, text: u16) -> Scope
    ensures { result ≡ with_block c block text }
{
    let mut q = c;
    q.block = block;
    q.text = text;
    q
}

// The scope of a partial whose text has so many bytes.
pub fn with_text(c: Scope, len: usize) -> Scope
    requires { len < 65536 }
    ensures { result ≡ with_block c 2 len }
{
    with_block(c, SOME_TEXT, len as u16)
}

// The text is drawn, from begin on: it goes to the finished ones. (The newest scope is given it by `with_text`.)
// The output in force is again the one from before.
pub fn close_text(
    texts: &mut [u8],
    rc: RenderContext,
    begin: usize,
    block_text: bool,
) -> RenderContext
    requires { (begin ≤ rc.writer.low) × (rc.writer.low ≤ rc.writer.high) × (rc.writer.high ≤ length texts.old) × (rc.writer.low < begin + 65536) }
    ensures { ((l : List Scope) → whole result l ≡ text_moved (whole rc l) begin block_text) × (texts.new ≡ sets texts.old (rc.writer.high - (rc.writer.low - begin)) (slice begin rc.writer.low texts.old)) }
{
    let mut w = rc.writer;
    w.high = output::move_text(texts, begin, w.low, w.high);
    w.low = begin;
    w.block_text = block_text;
    state::set_writer(rc, w)
}

// A partial without a text.
pub fn no_text(c: Scope) -> Scope
    ensures { result ≡ with_block c 1 c.text }
{
    with_block(c, NO_TEXT, c.text)
}

// The indent is the first len bytes of the lent buffer.
pub fn with_indent(rc: RenderContext, has: bool, len: usize) -> RenderContext
    ensures { (l : List Scope) → whole result l ≡ indented (whole rc l) has len }
{
    let mut w = rc.writer;
    w.has_indent = has;
    w.indent = len;
    state::set_writer(rc, w)
}

// Behind a partial: unless there is an error its scope is closed, its block text is given up, what was saved is set again, and its marks are settled. (The context is
// changed in place: to choose between two of them would copy both.)
pub fn finish_partial(rc: RenderContext, before: RenderContext) -> RenderContext
    ensures { (l : List Scope) → whole result l ≡ concluded (whole before l) (whole rc l) }
{
    let mut q = rc;
    if q.bad.is_none() {
        q.used = before.used;
        q.total = before.total;
        q.names = before.names;
        q.count = before.count;
        q.template = before.template;
        q.writer.high = before.writer.high;
        q.writer.indent = before.writer.indent;
        q.writer.has_indent = before.writer.has_indent;
    }
    state::finish(q, before.writer)
}

// What `@partial-block` stands for: nothing where no partial is open, or where the newest one has no text; or its text, by its
// place in the buffer and its length.
#[derive(Clone, Copy)]
pub enum Peek {
    Absent,
    Nothing,
    Text(usize, usize),
}

pub fn peek_partial_block(scopes: [Scope; 32], rc: RenderContext) -> Peek
    requires { (rc.used ≤ 32) × (rc.writer.high + sizes_of scopes rc.used < 2 ^ 64) }
    ensures { result ≡ peeked scopes rc.used rc.writer.high }
{
    let mut from = rc.writer.high;
    for i in (0..rc.used).rev() {
        let c = scopes[i];
        let n = c.text as usize;
        if c.block == NO_TEXT {
            return Peek::Nothing;
        }
        if c.block != 0 {
            return Peek::Text(from, n);
        }
        from += n;
    }
    Peek::Absent
}
