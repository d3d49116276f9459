// A text that goes to the output in force as it is: no indent comes inside it, no byte of it is escaped, and it fits. It is stored at once,
// where `support` would feed it. Most texts of a sheet are such, and short, so that what is done for each of them counts.
#![tactic(auto)]

ghost use Rattle.std.specs.Prelude.{true, false, ◌∷◌, ◌≡◌, ℕ, ◌+◌, ◌-◌, ◌*◌, ◌^◌, ◌<◌, ◌≤◌, length, get_or};
ghost use Rattle.std.proofs.lemmas.List.Edits.{sets};
ghost use Rattle.rules.specs.Bytes.{Bytes};
ghost use Rattle.rules.specs.Bits.{bits};
ghost use Rattle.bits.specs.Packed.{bytes_at, number_bytes};
ghost use Rattle.output.specs.Writer.{output, over, place_of};
ghost use Rattle.support.specs.Feed.{finished, begun, all_emitted, escaped};
ghost use Rattle.support.specs.Runs.{calm, line_length};
ghost use Rattle.direct.specs.Direct.{takes, behind, leads, written_text, short_bytes, takes_short, plain, set_short, set_bytes, if_set};

use output::Writer;

// Whether a writer that begins a text of n bytes stores it so in an output of len bytes, if no line ends inside it.
pub fn takes(w: Writer, len: usize, n: usize) -> bool
    ensures { result ≡ takes w len n }
{
    if w.has_indent & w.indent_before_write {
        return false;
    }
    if n == 0 {
        return false;
    }
    n <= output::room(w, len)
}

// The writer behind a text of n bytes whose last one is c.
pub fn behind(w: Writer, n: usize, c: u8) -> Writer
    requires { place_of w + n < 2 ^ 64 }
    ensures { result ≡ behind n c w }
{
    let last = usize::from(c);
    let newline = support::newline_matcher(last);
    let mut q = output::advance(w, n);
    q.pen = last + 1;
    q.trailing_newline = newline;
    q.content_produced = true;
    q.indent_before_write = newline;
    q
}

// The n bytes of a packed string that starts at the bit p: beginning, feeding and finishing at once.
pub fn put_packed(out: &mut [u8], w: Writer, s: &[u8], p: usize, n: usize) -> Writer
    requires { (p + 8 * n < 2 ^ 64) × (takes w (length out.old) n ≡ true) × (calm w.has_indent (bytes_at (bits s.now) p n) ≡ true) }
    ensures { (i : Bytes) → output result out.new ≡ over finished (all_emitted i (bytes_at (bits s.now) p n) (over begun (output w out.old))) }
{
    let at = output::place(w);
    output::copy_packed(out, at, s, p, n);
    behind(w, n, bits::byte(s, p + 8 * (n - 1)))
}

// The same for lent bytes.
pub fn put_bytes(out: &mut [u8], w: Writer, v: &[u8]) -> Writer
    requires { (takes w (length out.old) (length v.now) ≡ true) × (calm w.has_indent v.now ≡ true) }
    ensures { (i : Bytes) → output result out.new ≡ over finished (all_emitted i v.now (over begun (output w out.old))) }
{
    let n = v.len();
    let at = output::place(w);
    output::copy(out, at, v, n);
    behind(w, n, v[n - 1])
}

// Lent bytes are stored where they go out at once. 0 where not, else 256 times their count and the last of them: by these a caller moves a writer of its own on with
// `behind`. (A writer that a call returns is copied whole, field by field.)
pub fn set_bytes(out: &mut [u8], w: Writer, v: &[u8]) -> usize
    requires { length v.now ≤ 65536 }
    ensures { (result ≡ set_bytes w (length out.old) v.now) × (out.new ≡ if_set result (place_of w) v.now out.old) × ((result ≡ 0 → ⊥) → get_or v.now (length v.now - 1) 0 < 256) }
{
    let n = v.len();
    if takes(w, out.len(), n) {
        let to = output::place(w);
        output::copy(out, to, v, n);
        return 256 * n + usize::from(v[n - 1]);
    }
    0
}

// Whether an indent comes in front of a text that begins with c.
fn leads(w: Writer, c: u8) -> bool
    ensures { result ≡ leads c w }
{
    if w.has_indent & w.indent_before_write {
        return !support::newline_matcher(usize::from(c));
    }
    false
}

// That indent, if it fits. What follows is then a text that begins where none is due.
fn lead(out: &mut [u8], indent: &[u8], w: Writer) -> Writer
    ensures { (result.has_indent ≡ w.has_indent) × ((c : ℕ) (v : Bytes) → leads c w ≡ true → written_text indent.now (c ∷ v) (output result out.new) ≡ written_text indent.now (c ∷ v) (output w out.old)) }
{
    let n = w.indent.min(indent.len());
    if output::room(w, out.len()) < n {
        return w;
    }
    let at = output::place(w);
    output::copy(out, at, indent, n);
    let mut q = output::advance(w, n);
    q.indent_before_write = false;
    q
}

// The same in front of a text that begins with c, where it is due.
fn led(out: &mut [u8], indent: &[u8], w: Writer, c: u8) -> Writer
    ensures { (result.has_indent ≡ w.has_indent) × ((v : Bytes) → written_text indent.now (c ∷ v) (output result out.new) ≡ written_text indent.now (c ∷ v) (output w out.old)) }
{
    if leads(w, c) {
        return lead(out, indent, w);
    }
    w
}

// In front of a packed string.
fn led_packed(out: &mut [u8], indent: &[u8], w: Writer, s: &[u8], p: usize, n: usize) -> Writer
    ensures { written_text indent.now (bytes_at (bits s.now) p n) (output result out.new) ≡ written_text indent.now (bytes_at (bits s.now) p n) (output w out.old) }
{
    if 0 < n {
        return led(out, indent, w, bits::byte(s, p));
    }
    w
}

// In front of lent bytes.
fn led_bytes(out: &mut [u8], indent: &[u8], w: Writer, v: &[u8]) -> Writer
    ensures { (result.has_indent ≡ w.has_indent) × (written_text indent.now v.now (output result out.new) ≡ written_text indent.now v.now (output w out.old)) }
{
    if v.is_empty() {
        w
    } else {
        led(out, indent, w, v[0])
    }
}

// Whether the n bytes of a packed string are stored at once.
fn is_direct(w: Writer, len: usize, s: &[u8], p: usize, n: usize) -> bool
    requires { p + 8 * n < 2 ^ 64 }
    ensures { result ≡ true → (takes w len n ≡ true) × (calm w.has_indent (bytes_at (bits s.now) p n) ≡ true) }
{
    if takes(w, len, n) {
        return support::line_end(s, p, 0, n, w.has_indent) == n;
    }
    false
}

// The n bytes of a packed string as a text: at once, or begun, fed and finished.
pub fn write_packed(
    out: &mut [u8],
    indent: &[u8],
    w: Writer,
    s: &[u8],
    p: usize,
    n: usize,
) -> Writer
    requires { p + 8 * n < 2 ^ 64 }
    ensures { output result out.new ≡ written_text indent.now (bytes_at (bits s.now) p n) (output w out.old) }
{
    let u = led_packed(out, indent, w, s, p, n);
    let x = bits::field(s, p, 56);
    if takes_short(u, out.len(), n, x) {
        return put_short(out, u, n, x);
    }
    if is_direct(u, out.len(), s, p, n) {
        return put_packed(out, u, s, p, n);
    }
    let q = support::begin(u);
    support::finish(support::feed_packed(out, indent, q, s, p, n))
}

// Whether lent bytes go out as they are, where there is an indent, and where they are escaped.
pub fn is_plain(v: &[u8], has_indent: bool, escape: bool) -> bool
    ensures { result ≡ plain has_indent escape v.now }
{
    support::quiet(v, 0, has_indent, escape) == v.len()
}

// Lent bytes as a text: begun, fed and finished.
fn feed_bytes(out: &mut [u8], indent: &[u8], w: Writer, v: &[u8], escape: bool) -> Writer
    ensures { output result out.new ≡ written_text indent.now (escaped escape v.now) (output w out.old) }
{
    let q = support::begin(w);
    support::finish(support::feed_bytes(out, indent, q, v, escape))
}

// Lent bytes as a text, at once if that may be.
pub fn write_bytes(out: &mut [u8], indent: &[u8], w: Writer, v: &[u8], escape: bool) -> Writer
    ensures { output result out.new ≡ written_text indent.now (escaped escape v.now) (output w out.old) }
{
    if !is_plain(v, w.has_indent, escape) {
        return feed_bytes(out, indent, w, v, escape);
    }
    let u = led_bytes(out, indent, w, v);
    if takes(u, out.len(), v.len()) {
        return put_bytes(out, u, v);
    }
    feed_bytes(out, indent, u, v, escape)
}

// The byte j of the seven of a word.
fn short_byte(x: u64, j: usize) -> u8
    requires { j < 7 }
    ensures { result ≡ get_or (number_bytes 7 x) j 0 }
{
    ((x >> (48 - 8 * j)) % 256) as u8
}

// The first n of them, stored from a place on.
fn store_short(out: &mut [u8], at: usize, n: usize, x: u64)
    requires { (n ≤ 7) × (n ≤ length out.old - at) }
    ensures { out.new ≡ sets out.old at (short_bytes n x) }
{
    for j in 0..n {
        out[at + j] = short_byte(x, j);
    }
}

// Where the first line of the first n of them ends: behind its line feed. (Whatever the last of them is, it ends there.)
fn short_line(x: u64, n: usize) -> usize
    requires { n ≤ 7 }
    ensures { result ≡ line_length true (short_bytes n x) }
{
    for j in 1..n {
        if short_byte(x, j - 1) == b'\n' {
            return j;
        }
    }
    n
}

// Whether the first n bytes of a word are a text that is stored at once.
pub fn takes_short(w: Writer, len: usize, n: usize, x: u64) -> bool
    ensures { result ≡ takes_short w len n x }
{
    if 7 < n {
        return false;
    }
    if !takes(w, len, n) {
        return false;
    }
    if w.has_indent {
        return short_line(x, n) == n;
    }
    true
}

// They are: as `put_packed`. (A packed string of up to seven bytes is one word.)
pub fn put_short(out: &mut [u8], w: Writer, n: usize, x: u64) -> Writer
    requires { (n ≤ 7) × (takes w (length out.old) n ≡ true) × (calm w.has_indent (short_bytes n x) ≡ true) }
    ensures { (i : Bytes) → output result out.new ≡ written_text i (short_bytes n x) (output w out.old) }
{
    let at = output::place(w);
    store_short(out, at, n, x);
    behind(w, n, short_byte(x, n - 1))
}

// The same as `set_bytes` for them: one more than the last.
pub fn set_short(out: &mut [u8], w: Writer, n: usize, x: u64) -> usize
    ensures { (result ≡ set_short w (length out.old) n x) × (out.new ≡ if_set result (place_of w) (short_bytes n x) out.old) × (result ≤ 256) }
{
    if takes_short(w, out.len(), n, x) {
        let to = output::place(w);
        store_short(out, to, n, x);
        return usize::from(short_byte(x, n - 1)) + 1;
    }
    0
}
