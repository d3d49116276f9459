// support.rs, and render.rs: `indent_aware_write`. A text is fed to a writer byte by byte or run by run, so that every
// source of text (plan, bundle, number, fixed or lent bytes) ends in the same place, and nothing is copied on the way:
// `begin`, any number of feeds, `finish`.
#![tactic(auto)]

ghost use Rattle.std.specs.Prelude.{true, ◌≡◌, ◌+◌, ◌*◌, ◌^◌, ◌≤◌, ◌<◌, [], length, drop, get_or};
ghost use Rattle.rules.specs.Bytes.{run};
ghost use Rattle.rules.specs.Bits.{bits};
ghost use Rattle.rules.specs.Support.{newline_matcher, entities};
ghost use Rattle.bits.specs.Packed.{bytes_at};
ghost use Rattle.output.specs.Writer.{output, all_put};
ghost use Rattle.support.specs.Feed.{begun, finished, wants_indent, indent_before as before, emitted, all_emitted, entity_or, escaped};
ghost use Rattle.support.specs.Runs.{calm, quiet_byte, line_length};
ghost use Rattle.support.specs.Table.{row_of, row_bytes, row_read, is_escaped};

use output::Writer;

// A character that is escaped, and its entity: the first `count` bytes.
#[derive(Clone, Copy)]
struct Entity {
    character: u8,
    count: u8,
    bytes: [u8; 6],
}

const ROWS: usize = 7;

// The only place that says which characters are escaped.
const ENTITIES: [Entity; ROWS] = [
    Entity {
        character: b'<',
        count: 4,
        bytes: *b"&lt;\0\0",
    },
    Entity {
        character: b'>',
        count: 4,
        bytes: *b"&gt;\0\0",
    },
    Entity {
        character: b'"',
        count: 6,
        bytes: *b"&quot;",
    },
    Entity {
        character: b'&',
        count: 5,
        bytes: *b"&amp;\0",
    },
    Entity {
        character: b'\'',
        count: 6,
        bytes: *b"&#x27;",
    },
    Entity {
        character: b'`',
        count: 6,
        bytes: *b"&#x60;",
    },
    Entity {
        character: b'=',
        count: 6,
        bytes: *b"&#x3D;",
    },
];

const LINE_FEED: usize = b'\n' as usize;

const CARRIAGE_RETURN: usize = b'\r' as usize;
// The pen behind a line feed.
const BEHIND_LINE_FEED: usize = LINE_FEED + 1;

pub fn newline_matcher(c: usize) -> bool
    ensures { result ≡ newline_matcher c }
{
    c == LINE_FEED || c == CARRIAGE_RETURN
}

// Behind a line feed, or in front of a text that does not start with a newline.
fn wants_indent(w: Writer, c: u8) -> bool
    ensures { result ≡ wants_indent c w }
{
    if !w.has_indent {
        return false;
    }
    match w.pen {
        0 => !newline_matcher(usize::from(c)) && w.indent_before_write,
        pen => pen == BEHIND_LINE_FEED,
    }
}

fn indent_before(out: &mut [u8], indent: &[u8], w: Writer, c: u8) -> Writer
    ensures { output result out.new
        ≡ all_put (before indent.now c w) (output w out.old) }
{
    if wants_indent(w, c) {
        let n = w.indent.min(indent.len());
        return output::write(out, w, &indent[..n]);
    }
    w
}

// `indent_aware_write` begins: no byte of the text is fed yet.
pub fn begin(w: Writer) -> Writer
    ensures { result ≡ begun w }
{
    let mut q = w;
    q.pen = 0;
    q
}

// The next byte of a text that `indent_aware_write` writes: the indent where it is due, and the byte.
fn feed(out: &mut [u8], indent: &[u8], w: Writer, c: u8) -> Writer
    ensures { output result out.new ≡ emitted indent.now c (output w out.old) }
{
    let q = indent_before(out, indent, w, c);
    let mut r = output::put(out, q, c);
    r.pen = usize::from(c) + 1;
    r
}

// The next bytes, at once: an indent follows none of them but the last.
fn feed_run(out: &mut [u8], indent: &[u8], w: Writer, v: &[u8]) -> Writer
    requires { calm w.has_indent v.now ≡ true }
    ensures { output result out.new
        ≡ all_emitted indent.now v.now (output w out.old) }
{
    let n = v.len();
    if n == 0 {
        return w;
    }
    let q = indent_before(out, indent, w, v[0]);
    let mut r = output::write(out, q, v);
    r.pen = usize::from(v[n - 1]) + 1;
    r
}

// It ends: the marks are set if anything was fed.
pub fn finish(w: Writer) -> Writer
    ensures { result ≡ finished w }
{
    let mut q = w;
    let pen = q.pen;
    if pen != 0 {
        let newline = newline_matcher(pen - 1);
        q.content_produced = true;
        q.trailing_newline = newline;
        q.indent_before_write = newline;
    }
    q
}

fn entry(k: usize) -> Entity
    requires { k < 7 }
    ensures result_value { row_read result ≡ get_or entities k (0, []) }
    ensures count_bound { (result.count ≤ 6) × (length result.bytes ≡ 6) }
{
    ENTITIES[k]
}

// The row of a character in the table; `ROWS` where it has none.
fn row(c: u8) -> usize
    ensures { result ≡ row_of c }
{
    for k in 0..ROWS {
        let e = entry(k);
        if e.character == c {
            return k;
        }
    }
    ROWS
}

// Whether a character has an entity. (The table is constant, so the compiler makes one test of the loop over it: a bit of a
// word. A table with an entry for each byte would be no quicker.)
pub fn is_escaped(c: u8) -> bool
    ensures { result ≡ is_escaped c }
{
    row(c) < ROWS
}

fn feed_entity(out: &mut [u8], indent: &[u8], w: Writer, k: usize) -> Writer
    requires { k < 7 }
    ensures { output result out.new
        ≡ all_emitted indent.now (row_bytes k) (output w out.old) }
{
    let e = entry(k);
    let n = usize::from(e.count);
    feed_run(out, indent, w, &e.bytes[..n])
}

// A byte, or its entity.
pub fn feed_escaped(out: &mut [u8], indent: &[u8], w: Writer, c: u8, escape: bool) -> Writer
    ensures { output result out.new
        ≡ all_emitted indent.now (entity_or escape c) (output w out.old) }
{
    if escape {
        let k = row(c);
        if k < ROWS {
            return feed_entity(out, indent, w, k);
        }
    }
    feed(out, indent, w, c)
}

// Whether nothing comes behind a byte or in its place.
fn is_quiet(c: u8, has_indent: bool, escape: bool) -> bool
    ensures { result ≡ quiet_byte has_indent escape c }
{
    if c == b'\n' {
        !has_indent
    } else {
        !(escape && is_escaped(c))
    }
}

// Where the quiet bytes from i on end.
pub fn quiet(v: &[u8], i: usize, has_indent: bool, escape: bool) -> usize
    requires { i ≤ length v.now }
    ensures { (result ≡ i + run (quiet_byte has_indent escape) (drop i v.now))
        × (result ≤ length v.now) }
{
    for j in i..v.len() {
        if !is_quiet(v[j], has_indent, escape) {
            return j;
        }
    }
    v.len()
}

// All of a lent text, by runs: what needs no indent and no entity is copied at once.
pub fn feed_bytes(out: &mut [u8], indent: &[u8], w: Writer, v: &[u8], escape: bool) -> Writer
    ensures { output result out.new
        ≡ all_emitted indent.now (escaped escape v.now) (output w out.old) }
{
    let mut q = w;
    let mut i = 0;
    while i < v.len() {
        let n = quiet(v, i, q.has_indent, escape);
        q = feed_run(out, indent, q, &v[i..n]);
        if v.len() <= n {
            return q;
        }
        q = feed_escaped(out, indent, q, v[n], escape);
        i = n + 1;
    }
    q
}

// Where a line of a packed string ends: behind its line feed. Without an indent all is one line.
pub fn line_end(s: &[u8], p: usize, i: usize, n: usize, has_indent: bool) -> usize
    requires { (p + 8 * n < 2 ^ 64) × (i ≤ n) }
    ensures { result ≡ i + line_length has_indent (drop i (bytes_at (bits s.now) p n)) }
{
    if !has_indent {
        return n;
    }
    for j in i..n {
        if bits::byte(s, p + 8 * j) == b'\n' {
            return j + 1;
        }
    }
    n
}

// The next bytes, of a packed string, at once: as `feed_run`.
fn feed_packed_run(out: &mut [u8], indent: &[u8], w: Writer, s: &[u8], p: usize, n: usize) -> Writer
    requires { (p + 8 * n < 2 ^ 64) × (calm w.has_indent (bytes_at (bits s.now) p n) ≡ true) }
    ensures { output result out.new
        ≡ all_emitted indent.now (bytes_at (bits s.now) p n) (output w out.old) }
{
    if n == 0 {
        return w;
    }
    let q = indent_before(out, indent, w, bits::byte(s, p));
    let mut r = output::write_packed(out, q, s, p, n);
    r.pen = usize::from(bits::byte(s, p + 8 * (n - 1))) + 1;
    r
}

// All of a packed string as it is, line by line. (Strings lie within a bundle, so the sum fits.)
pub fn feed_packed(out: &mut [u8], indent: &[u8], w: Writer, s: &[u8], p: usize, n: usize) -> Writer
    requires { p + 8 * n < 2 ^ 64 }
    ensures { output result out.new
        ≡ all_emitted indent.now (bytes_at (bits s.now) p n) (output w out.old) }
{
    let mut q = w;
    let mut i = 0;
    while i < n {
        let e = line_end(s, p, i, n, q.has_indent);
        q = feed_packed_run(out, indent, q, s, p + 8 * i, e - i);
        i = e;
    }
    q
}

// Where the quiet bytes of a packed string from i on end, when it is escaped.
fn quiet_packed(s: &[u8], p: usize, i: usize, n: usize, has_indent: bool) -> usize
    requires { (p + 8 * n < 2 ^ 64) × (i ≤ n) }
    ensures { (result ≡ i + run (quiet_byte has_indent true) (drop i (bytes_at (bits s.now) p n)))
        × (result ≤ n) }
{
    for j in i..n {
        if !is_quiet(bits::byte(s, p + 8 * j), has_indent, true) {
            return j;
        }
    }
    n
}

// All of a packed string, escaped, by runs: as `feed_bytes`. (`feed_packed_run` would do for a run, but with a second caller the
// compiler would keep it out of `feed_packed`, which feeds most texts.)
pub fn feed_packed_escaped(
    out: &mut [u8],
    indent: &[u8],
    w: Writer,
    s: &[u8],
    p: usize,
    n: usize,
) -> Writer
    requires { p + 8 * n < 2 ^ 64 }
    ensures { output result out.new
        ≡ all_emitted indent.now (escaped true (bytes_at (bits s.now) p n))
        (output w out.old) }
{
    let mut q = w;
    let mut i = 0;
    while i < n {
        let e = quiet_packed(s, p, i, n, q.has_indent);
        q = feed_packed(out, indent, q, s, p + 8 * i, e - i);
        if n <= e {
            return q;
        }
        q = feed_escaped(out, indent, q, bits::byte(s, p + 8 * e), true);
        i = e + 1;
    }
    q
}
