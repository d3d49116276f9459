// Past the first ten checks: the drawing, and the answer that it leaves.
ghost use Rattle.std.specs.Prelude.{List, [], ◌≡◌, ℕ, ◌≤◌, length};
ghost use Rattle.rules.specs.Bits.{bits};
ghost use Rattle.rules.specs.Bundle.{string, body};
ghost use Rattle.rules.specs.Call.{render_call};
ghost use Rattle.registry.specs.Templates.{Standing};
ghost use Rattle.layout.specs.Text.{text_at};
ghost use Rattle.parts.specs.Holds.{Holds};
ghost use Rattle.places.specs.Accepted.{Accepted};
ghost use Rattle.template.specs.Views.{template_at};
ghost use Rattle.scope.specs.declared.Scope.{Scope};
ghost use Rattle.state.specs.Context.{whole};
ghost use Rattle.drawing.specs.Renders.{registry_of};
ghost use Rattle.handlebars.specs.Answers.{answer_of, Shown};
ghost use Rattle.handlebars.specs.Begins.{Tabled};

use crate::Answer;
use expand::Options;
use render::render_template;
use state::RenderContext;

// The answer that a context stands for. (A context holds a position only where one was met.)
fn answered(rc: RenderContext) -> Answer
    ensures { (l : List Scope) → result ≡ answer_of (whole rc l) }
{
    let Some(reason) = rc.bad else {
        let w = rc.writer;
        return Answer {
            number: 0,
            template: 0,
            line: 0,
            column: 0,
            length: w.written,
        };
    };
    let number = reason.number();
    if rc.placed {
        return Answer {
            number: number,
            template: rc.named,
            line: rc.line,
            column: rc.column,
            length: 0,
        };
    }
    Answer {
        number: number,
        template: rc.named,
        line: 0,
        column: 0,
        length: 0,
    }
}

// Draws the template whose name stands at the place name and whose body at p. The text is on the page, its length in the answer.
pub fn draw(
    b: &[u8],
    index: &[u32],
    s: &[u8],
    tab: &[u64],
    options: Options,
    name: usize,
    p: usize,
    page: &mut [u8],
    entries: &mut [u64],
    texts: &mut [u8],
    indent: &mut [u8],
) -> Answer
    requires { Standing b.now × Tabled b.now index.now × Accepted s.now tab.now × (8192 ≤ length entries.old) × (16384 ≤ length texts.old) × (256 ≤ length indent.old) × Holds string (bits b.now) name × Holds (body 16 16) (bits b.now) p }
    ensures { Shown b.now result page.new (render_call (registry_of s.now b.now options (length page.old)) (text_at (bits b.now) name) (template_at 16 16 (bits b.now) p)) }
{
    let rc = render_template(
        s, tab, b, index, entries, page, texts, indent, options, name, p,
    );
    answered(rc)
}
