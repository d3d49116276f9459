// A template's name by the number that an answer has for it.
ghost use Rattle.std.specs.Prelude.{◌≡◌, length};
ghost use Rattle.handlebars.specs.Names.{fits, template_name, Filled};

// Whether a string at the bit p lies within the bundle and has at most n bytes.
fn fits(b: &[u8], p: usize, n: usize) -> bool
    ensures { result ≡ fits b.now p n }
{
    if 65536 < b.len() {
        return false;
    }
    let end = 8 * b.len();
    if end < p {
        return false;
    }
    let count = bits::field(b, p, 16) as usize;
    if end < p + 16 + 8 * count {
        return false;
    }
    count <= n
}

// The bytes of the name that the number template stands for, and zeros behind them: how many they are. None for 0, where no string lies
// within the bundle there, and where it does not fit the buffer.
pub fn handlebars_template_name(bundle: &[u8], template: usize, out: &mut [u8]) -> usize
    ensures { Filled (template_name bundle.now template (length out.old)) (length out.old) result out.new }
{
    clear::clear(out, 0);
    if template == 0 {
        return 0;
    }
    let p = template - 1;
    if !fits(bundle, p, out.len()) {
        return 0;
    }
    let count = bits::field(bundle, p, 16) as usize;
    output::copy_packed(out, 0, bundle, p + 16, count);
    count
}
