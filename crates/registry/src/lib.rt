// The templates of an accepted bundle. The first stands behind the version and the count.
#![tactic(auto)]

ghost use Rattle.std.specs.Prelude.{◌≡◌, ◌≤◌, ◌<◌, length, get_or};
ghost use Rattle.rules.specs.Bytes.{same};
ghost use Rattle.rules.specs.Bits.{bits};
ghost use Rattle.rules.specs.Layout.{field};
ghost use Rattle.rules.specs.Bundle.{string, body, templates, find_template};
ghost use Rattle.layout.specs.Text.{text_at};
ghost use Rattle.parts.specs.Holds.{Holds};
ghost use Rattle.registry.specs.Templates.{templates_at, place_of, template_view, found_view};
ghost use Rattle.registry.specs.Index.{Indexed};

// The bit of the first template
const FIRST: usize = 16;

// How deep a template's body may go
const DEPTH: usize = 16;

// A string starts with its count, then come its bytes
const COUNT: usize = 16;

const COUNT_AND_BYTE: usize = 24;

// What one byte may be
const BYTES: u64 = 256;

// How many templates a bundle has, 1 to 64.
pub fn template_count(b: &[u8]) -> usize
    ensures { result ≡ field (bits b.now) 8 8 }
{
    reader::template_count(b) as usize
}

#[derive(Clone, Copy)]
pub struct Template {
    // its name's string
    pub name: usize,
    pub body: usize,
}

// The template number k, by its place.
pub fn indexed_at(b: &[u8], places: &[u32], k: usize) -> Template
    requires { (length b.now ≤ 65536)
        × (k < length places.now)
        × Holds string (bits b.now) (get_or places.now k 0) }
    ensures { result ≡ template_view (bits b.now) (get_or places.now k 0) }
{
    let p = places[k] as usize;
    Template {
        name: p,
        body: parts::skip_string(b, p),
    }
}

// The template with the given name: its number from 0, its name's string, and its body.
pub fn get_template(b: &[u8], w: usize, name: &[u8]) -> Option<(usize, usize, usize)>
    requires { (length b.now ≤ 65536) × Holds (templates w) (bits b.now) 8 }
    ensures { result ≡ found_view (body w 16) (bits b.now)
        (find_template (templates_at w (bits b.now)) name.now) }
{
    let n = template_count(b);
    let mut cur: usize = FIRST;
    for i in 0..n {
        let body = parts::skip_string(b, cur);
        if parts::text_is(b, cur, name) {
            return Some((i, cur, body));
        }
        cur = template::skip_body(b, body, w, DEPTH);
    }
    None
}

// Whether the string at p is the one at q, which starts with y: its count and its first byte, read at once. Most start otherwise, and then they are the
// same only where both are empty.
fn is_named(b: &[u8], p: usize, q: usize, y: u64) -> bool
    requires { (p ≤ 524288) × (q ≤ 524288) × (y ≡ field (bits b.now) 24 q) }
    ensures { result ≡ same (text_at (bits b.now) p) (text_at (bits b.now) q) }
{
    let x = bits::field(b, p, COUNT_AND_BYTE);
    if x != y {
        return (x < BYTES) & (y < BYTES);
    }
    let n = (x / BYTES) as usize;
    bits::same_at(b, p + COUNT, n, q + COUNT, n)
}

// The template that has the name of the string at the bit at, by the places of the templates.
pub fn get_indexed(b: &[u8], places: &[u32], at: usize) -> Option<(usize, usize, usize)>
    requires { (length b.now ≤ 65536)
        × Holds (templates 16) (bits b.now) 8
        × (field (bits b.now) 8 8 ≤ length places.now)
        × Indexed (body 16 16) (bits b.now) (field (bits b.now) 8 8) places.now
        × (at ≤ 524288) }
    ensures { result ≡ found_view (body 16 16) (bits b.now)
        (find_template (templates_at 16 (bits b.now)) (text_at (bits b.now) at)) }
{
    let n = template_count(b);
    let y = bits::field(b, at, COUNT_AND_BYTE);
    for i in 0..n {
        let p = places[i] as usize;
        if is_named(b, p, at, y) {
            return Some((i, p, parts::skip_string(b, p)));
        }
    }
    None
}
