// render.rs: `RenderContext`. It goes by value, and its scopes go beside it, as an array (`scope`); each function here changes one part of it, as the Rust does.
#![tactic(auto)]

ghost use Rattle.std.specs.Prelude.{◌≡◌, ◌<◌, eqb, List, length, set, replicate};
ghost use Rattle.rules.specs.Bytes.{pick};
ghost use Rattle.scope.specs.Scopes.{blank};
ghost use Rattle.scope.specs.declared.Scope.{Scope};
ghost use Rattle.state.specs.Context.{whole, Current};
ghost use Rattle.state.specs.Setters.{fresh, failed, located, with_escape, with_template, with_writer, wrote, with_marks, marked, settled_marks, settled, pushed, counted, closed, finished, finished_within, finished_named};

use error::RenderErrorReason;
use output::Writer;

#[derive(Clone, Copy)]
pub struct RenderContext {
    // (It stands first: what the compiler copies in steps of 16 bytes, a writer alone or with its context, is then read back in the steps that it was stored in.)
    pub writer: Writer,
    // how many scopes are open, the newest last
    pub used: usize,
    // the entries that merged objects and inline partials of open scopes take (limit 22)
    pub total: usize,
    // the current template's name by one more than its place; 0 where there is none
    pub template: usize,
    // of a refusal its template's name in the same way, and its position if it has one
    pub named: usize,
    pub line: u64,
    pub column: u64,
    // a set in which the block names of the open scopes are (`scope::name_bit`)
    pub names: u64,
    // how many inline partials the newest scope has
    pub count: usize,
    // why the drawing ends, if it does
    pub bad: Option<RenderErrorReason>,
    pub placed: bool,
    pub disable_escape: bool,
}

// The context that a call starts with: one scope, the whole plan.
pub fn new() -> RenderContext
    ensures { whole result (replicate 32 blank) ≡ fresh }
{
    RenderContext {
        writer: output::new(),
        used: 1,
        total: 0,
        template: 0,
        named: 0,
        line: 0,
        column: 0,
        names: 0,
        count: 0,
        bad: None,
        placed: false,
        disable_escape: false,
    }
}

// The drawing ends for that reason; None takes a refusal back.
pub fn failed(rc: RenderContext, bad: Option<RenderErrorReason>) -> RenderContext
    ensures { (l : List Scope) → whole result l ≡ failed (whole rc l) bad }
{
    let mut q = rc;
    q.bad = bad;
    q
}

fn first_of(x: usize, y: usize) -> usize
    ensures { result ≡ pick (eqb x 0) y x }
{
    if x == 0 {
        return y;
    }
    x
}

fn chosen(yes: bool, x: u64, y: u64) -> u64
    ensures { result ≡ pick yes x y }
{
    if yes {
        return x;
    }
    y
}

// An error that has no position or no template name yet gets them.
pub fn located(rc: RenderContext, name: usize, line: u64, column: u64) -> RenderContext
    ensures { (l : List Scope) → whole result l ≡ located (whole rc l) name line column }
{
    let mut q = rc;
    q.named = first_of(q.named, name);
    q.line = chosen(q.placed, q.line, line);
    q.column = chosen(q.placed, q.column, column);
    q.placed = true;
    q
}

pub fn set_disable_escape(rc: RenderContext, yes: bool) -> RenderContext
    ensures { (l : List Scope) → whole result l ≡ with_escape (whole rc l) yes }
{
    let mut q = rc;
    q.disable_escape = yes;
    q
}

pub fn set_current_template_name(rc: RenderContext, name: usize) -> RenderContext
    ensures { (l : List Scope) → whole result l ≡ with_template (whole rc l) name }
{
    let mut q = rc;
    q.template = name;
    q
}

pub fn set_writer(rc: RenderContext, w: Writer) -> RenderContext
    ensures { (l : List Scope) → whole result l ≡ with_writer (whole rc l) w }
{
    let mut q = rc;
    q.writer = w;
    q
}

fn full_reason(block_text: bool) -> RenderErrorReason
    ensures { result ≡ pick block_text RenderErrorReason.BlockTextsLimit
        RenderErrorReason.PageLimit }
{
    if block_text {
        return RenderErrorReason::BlockTextsLimit;
    }
    RenderErrorReason::PageLimit
}

// A writer that has written; what does not fit is 24 in a block text and 25 on the page.
pub fn wrote(rc: RenderContext, w: Writer) -> RenderContext
    ensures { (l : List Scope) → whole result l ≡ wrote (whole rc l) w }
{
    let mut q = rc;
    q.writer = w;
    if w.full {
        q.bad = Some(full_reason(w.block_text));
    }
    q
}

fn with_marks(w: Writer, produced: bool, before: bool) -> Writer
    ensures { result ≡ with_marks w produced before }
{
    let mut q = w;
    q.content_produced = produced;
    q.indent_before_write = before;
    q
}

// The marks in front of a helper or a partial.
pub fn begin_aware(rc: RenderContext, indent_before_write: bool) -> RenderContext
    ensures { (l : List Scope) → whole result l ≡ marked (whole rc l) indent_before_write }
{
    let mut q = rc;
    q.writer = with_marks(q.writer, false, indent_before_write);
    q
}

fn settle_marks(w: Writer, before: Writer) -> Writer
    ensures { result ≡ settled_marks w before }
{
    if w.content_produced {
        return with_marks(w, true, w.trailing_newline);
    }
    with_marks(w, before.content_produced, before.indent_before_write)
}

// The marks behind it; before holds those from in front.
pub fn settle(rc: RenderContext, before: Writer) -> RenderContext
    ensures { (l : List Scope) → whole result l ≡ settled (whole rc l) before }
{
    let mut q = rc;
    q.writer = settle_marks(q.writer, before);
    q
}

// One scope more is open; its block names are in the set.
pub fn deeper(rc: RenderContext, names: u64) -> RenderContext
    requires { rc.used < 32 }
    ensures { (l : List Scope) (c : Scope) → length l ≡ 32 → Current l rc → c.count ≡ 0 → whole result (set l rc.used c) ≡ pushed (whole rc l) c names }
{
    let mut q = rc;
    q.used = q.used + 1;
    q.names = q.names | names;
    q.count = 0;
    q
}

pub fn set_total(rc: RenderContext, total: usize) -> RenderContext
    ensures { (l : List Scope) → whole result l ≡ counted (whole rc l) total }
{
    let mut q = rc;
    q.total = total;
    q
}

// The newest scope is closed: what it changed is as before it.
pub fn pop_block(rc: RenderContext, before: RenderContext) -> RenderContext
    ensures { (l m : List Scope) → whole result l ≡ closed (whole before l) (whole rc m) }
{
    let mut q = rc;
    q.used = before.used;
    q.total = before.total;
    q.names = before.names;
    q.count = before.count;
    q
}

// Behind a block: its marks are settled, unless there is an error. before holds the marks from in front.
pub fn finish(rc: RenderContext, before: Writer) -> RenderContext
    ensures { (l : List Scope) → whole result l ≡ finished before (whole rc l) }
{
    let mut q = rc;
    if q.bad.is_none() {
        q.writer = settle_marks(q.writer, before);
    }
    q
}

// The same, and the scope of the block is closed.
pub fn finish_within(rc: RenderContext, before: RenderContext) -> RenderContext
    ensures { (l : List Scope) → whole result l ≡ finished_within (whole before l) (whole rc l) }
{
    let mut q = rc;
    if q.bad.is_none() {
        q.used = before.used;
        q.total = before.total;
        q.names = before.names;
        q.count = before.count;
        q.writer = settle_marks(q.writer, before.writer);
    }
    q
}

// The same, and the current template is again the one from before.
pub fn finish_named(rc: RenderContext, name: usize, before: Writer) -> RenderContext
    ensures { (l : List Scope) → whole result l ≡ finished_named name before (whole rc l) }
{
    let mut q = rc;
    if q.bad.is_none() {
        q.template = name;
        q.writer = settle_marks(q.writer, before);
    }
    q
}
