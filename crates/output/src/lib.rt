// output.rs: writing into the page or a block text. A writer goes by value; the caller lends the output in force alone:
// the page, or, where the writer says so, the buffer of the block texts.
#![tactic(auto)]

ghost use Rattle.std.specs.Prelude.{true, ◌≡◌, ◌+◌, ◌-◌, ◌*◌, ◌^◌, ◌≤◌, ◌<◌, length, take, drop};
ghost use Rattle.std.proofs.lemmas.List.Edits.{sets};
ghost use Rattle.std.proofs.Math.Seq.{slice};
ghost use Rattle.rules.specs.Bits.{bits};
ghost use Rattle.rules.specs.Bytes.{pick};
ghost use Rattle.bits.specs.Packed.{bytes_at, number_bytes};
ghost use Rattle.output.specs.Writer.{output, fresh, advanced, filled_if, place_of, limit_of, put as put_byte, all_put};
ghost use Rattle.output.specs.Outputs.{outputs, on};

// The block texts share a buffer of this length.
pub const TEXTS: usize = 16384;

#[derive(Clone, Copy)]
pub struct Writer {
    // the bytes of the page that are taken
    pub written: usize,
    // the block texts: those being drawn end here, the finished ones begin there; the bytes between are free
    pub low: usize,
    pub high: usize,
    // the indent in force is a prefix of a lent buffer; present but empty is not absent
    pub indent: usize,
    // the last byte of the text being fed, plus one; 0 before its first byte. (One number, as wide as the others: flags
    // that change with each byte made feeding slower.)
    pub pen: usize,
    // (The flags that feeding reads or sets stand side by side, so that each goes through memory as one byte.)
    // a write did not fit
    pub full: bool,
    pub has_indent: bool,
    // the output in force is a block text, and not the page
    pub block_text: bool,
    pub indent_before_write: bool,
    pub trailing_newline: bool,
    pub content_produced: bool,
}

pub fn new() -> Writer
    ensures { result ≡ fresh }
{
    Writer {
        written: 0,
        low: 0,
        high: TEXTS,
        indent: 0,
        pen: 0,
        has_indent: false,
        block_text: false,
        full: false,
        trailing_newline: false,
        content_produced: false,
        indent_before_write: false,
    }
}

fn either(first: bool, a: usize, b: usize) -> usize
    ensures { result ≡ pick first a b }
{
    if first { a } else { b }
}

// The place of the next byte. (A choice between two fields where they lie in memory would keep the whole writer there.)
pub fn place(w: Writer) -> usize
    ensures { result ≡ place_of w }
{
    either(w.block_text, w.low, w.written)
}

// Where the bytes that may be taken end, in a buffer of n bytes.
fn limit(w: Writer, n: usize) -> usize
    ensures { result ≡ limit_of w n }
{
    if w.block_text { w.high.min(n) } else { n }
}

// The bytes that may still be taken, in a buffer of n bytes.
pub fn room(w: Writer, n: usize) -> usize
    ensures { result ≡ limit_of w n - place_of w }
{
    limit(w, n).saturating_sub(place(w))
}

// n bytes more of the output in force are taken.
pub fn advance(w: Writer, n: usize) -> Writer
    requires { place_of w + n < 2 ^ 64 }
    ensures { result ≡ advanced n w }
{
    let mut q = w;
    if q.block_text {
        q.low += n;
    } else {
        q.written += n;
    }
    q
}

// Full where less was written than there was.
fn fill(w: Writer, n: usize, of: usize) -> Writer
    ensures { result ≡ filled_if n of w }
{
    let mut q = w;
    if n < of {
        q.full = true;
    }
    q
}

// One byte written plainly. (The writer is changed in place: to choose between two finished ones costs more than the byte.)
pub fn put(out: &mut [u8], w: Writer, c: u8) -> Writer
    ensures { output result out.new ≡ put_byte c (output w out.old) }
{
    let at = place(w);
    let mut q = w;
    if at < limit(w, out.len()) {
        out[at] = c;
        if q.block_text {
            q.low = at + 1;
        } else {
            q.written = at + 1;
        }
    } else {
        q.full = true;
    }
    q
}

// The first n of lent bytes, stored from a place on. (A `for`: `copy_from_slice` here, or `copy_within` in `move_text`,
// would make the archive for C need `memmove` from outside.)
pub fn copy(out: &mut [u8], at: usize, v: &[u8], n: usize)
    requires { (n ≤ length out.old - at) × (n ≤ length v.now) }
    ensures { out.new ≡ sets out.old at (take n v.now) }
{
    for i in 0..n {
        out[at + i] = v[i];
    }
}

// Lent bytes written plainly, at once. Of what does not fit, the front is written.
pub fn write(out: &mut [u8], w: Writer, v: &[u8]) -> Writer
    ensures { output result out.new ≡ all_put v.now (output w out.old) }
{
    let n = v.len().min(room(w, out.len()));
    let at = place(w);
    copy(out, at, v, n);
    fill(advance(w, n), n, v.len())
}

// The bytes of a word, stored from a place on. The compiler makes one store of this row.
fn put_word(out: &mut [u8], at: usize, x: u64)
    requires { at + 8 ≤ length out.old }
    ensures { out.new ≡ sets out.old at (number_bytes 8 x) }
{
    out[at] = ((x >> 56) % 256) as u8;
    out[at + 1] = ((x >> 48) % 256) as u8;
    out[at + 2] = ((x >> 40) % 256) as u8;
    out[at + 3] = ((x >> 32) % 256) as u8;
    out[at + 4] = ((x >> 24) % 256) as u8;
    out[at + 5] = ((x >> 16) % 256) as u8;
    out[at + 6] = ((x >> 8) % 256) as u8;
    out[at + 7] = (x % 256) as u8;
}

// The n bytes of a packed string that starts at the bit p, stored from a place on: byte by byte.
fn copy_bytes(out: &mut [u8], at: usize, s: &[u8], p: usize, n: usize)
    requires { (n ≤ length out.old - at) × (p + 8 * n < 2 ^ 64) }
    ensures { out.new ≡ sets out.old at (bytes_at (bits s.now) p n) }
{
    for i in 0..n {
        out[at + i] = bits::byte(s, p + 8 * i);
    }
}

// The same: eight bytes at a time, and what is left.
pub fn copy_packed(out: &mut [u8], at: usize, s: &[u8], p: usize, n: usize)
    requires { (n ≤ length out.old - at) × (p + 8 * n < 2 ^ 64) }
    ensures { out.new ≡ sets out.old at (bytes_at (bits s.now) p n) }
{
    let words = n / 8;
    for i in 0..words {
        put_word(out, at + 8 * i, bits::field(s, p + 64 * i, 64));
    }
    copy_bytes(out, at + 8 * words, s, p + 64 * words, n % 8);
}

// The same as `write` for the n bytes of a packed string that starts at the bit p. (Strings lie within a bundle, so the sum fits.)
pub fn write_packed(out: &mut [u8], w: Writer, s: &[u8], p: usize, n: usize) -> Writer
    requires { p + 8 * n < 2 ^ 64 }
    ensures { output result out.new ≡ all_put (bytes_at (bits s.now) p n) (output w out.old) }
{
    let m = n.min(room(w, out.len()));
    let at = place(w);
    copy_packed(out, at, s, p, m);
    fill(advance(w, m), m, n)
}

// A finished block text goes from the low end to the high end; the two places may overlap. The result is its new place.
// (The drawing of a partial calls this where its block text ends, with the writer's `low` and `high`.)
pub fn move_text(texts: &mut [u8], begin: usize, low: usize, high: usize) -> usize
    requires { (begin ≤ low) × (low ≤ high) × (high ≤ length texts.old) }
    ensures { (result ≡ high - (low - begin)) × (texts.new ≡ sets texts.old result (slice begin low texts.old)) }
{
    let to = high - (low - begin);
    for i in (begin..low).rev() {
        texts[to + (i - begin)] = texts[i];
    }
    to
}

// A finished block text into the one that is being drawn: in the same buffer, from above `high` to below it.
fn write_low(texts: &mut [u8], w: Writer, from: usize, n: usize) -> Writer
    requires { (w.block_text ≡ true) × (w.high ≤ from) × (from + n ≤ length texts.old) }
    ensures { output result texts.new ≡ all_put (take n (drop from texts.old)) (output w texts.old) }
{
    let mut q = w;
    for i in 0..n {
        let c = texts[from + i];
        q = put(texts, q, c);
    }
    q
}

// A finished block text is written out again, plainly: no indent, no mark.
// (`@partial-block` calls this; finished texts lie from `high` on.)
pub fn write_text(page: &mut [u8], texts: &mut [u8], w: Writer, from: usize, n: usize) -> Writer
    requires { (w.high ≤ from) × (from + n ≤ length texts.old) }
    ensures { outputs result page.new texts.new ≡ on (all_put (take n (drop from texts.old))) (outputs w page.old texts.old) }
{
    if w.block_text {
        return write_low(texts, w, from, n);
    }
    let end = from + n;
    write(page, w, &texts[from..end])
}
