// partial.rs: which partial a name stands for. The name is what a value prints.
// s is the plan, b the bundle, places are those of its templates, ent holds the entries of open partials.
#![tactic(auto)]

ghost use Rattle.std.specs.Prelude.{◌≡◌, ℕ, ◌-◌, ◌≤◌, ◌<◌, length};
ghost use Rattle.rules.specs.Bits.{bits};
ghost use Rattle.rules.specs.Layout.{field};
ghost use Rattle.rules.specs.Bundle.{string, body, templates, find_template};
ghost use Rattle.rules.specs.Value.{render};
ghost use Rattle.rules.specs.Registry.{get_template};
ghost use Rattle.rules.specs.Partial.{get_partial, is_current_template};
ghost use Rattle.parts.specs.Holds.{Holds};
ghost use Rattle.registry.specs.Templates.{templates_at, found_view};
ghost use Rattle.registry.specs.Index.{Indexed};
ghost use Rattle.places.specs.Accepted.{Accepted};
ghost use Rattle.meaning.specs.Standing.{Stands};
ghost use Rattle.meaning.specs.Forms.{Known};
ghost use Rattle.meaning.specs.Means.{Means};
ghost use Rattle.scope.specs.Scopes.{blocks_of};
ghost use Rattle.scope.specs.Standing.{ScopesStand};
ghost use Rattle.expand.specs.Answers.{name_of};
ghost use Rattle.partials.specs.Finding.{EntryIs, FoundIs, template_name};

use scope::Scope;
use value::Value;

#[derive(Clone, Copy)]
pub enum Found {
    // an inline partial: its body, and the depths that it has left
    Inline(usize, usize),
    // a template of the bundle: its name's string, and its body
    Template(usize, usize),
    Nothing,
}

// Among the inline partials, from the newest scope on.
fn get_partial(
    s: &[u8],
    tab: &[u64],
    b: &[u8],
    ent: &[u64],
    scopes: [Scope; 32],
    used: usize,
    v: Value,
) -> Option<usize>
    requires { Accepted s.now tab.now × (length b.now ≤ 65536)
        × (used ≤ 32) × ((t : ℕ) × ScopesStand s.now b.now ent.now scopes used t)
        × Known s.now b.now v }
    ensures { (t : ℕ) → Stands s.now b.now ent.now t v
        → EntryIs s.now b.now ent.now
        (get_partial (blocks_of s.now b.now ent.now scopes used)
        (name_of s.now b.now ent.now v)) result }
{
    for i in (0..used).rev() {
        let c = scopes[i];
        // most have none
        if c.count != 0 {
            let found = decorators::get_local_partial(
                s,
                tab,
                b,
                ent,
                c.inline as usize,
                c.count as usize,
                v,
            );
            if let Some(k) = found {
                return Some(k);
            }
        }
    }
    None
}

// Among the templates of the bundle, whatever v is.
fn get_printed(
    s: &[u8],
    tab: &[u64],
    b: &[u8],
    places: &[u32],
    v: Value,
) -> Option<(usize, usize, usize)>
    requires { Accepted s.now tab.now × (length b.now ≤ 65536) × Holds (templates 16) (bits b.now) 8
        × (field (bits b.now) 8 8 ≤ length places.now)
        × Indexed (body 16 16) (bits b.now) (field (bits b.now) 8 8) places.now × Known s.now b.now v }
    ensures { Means s.now b.now v (λ j. result
        ≡ found_view (body 16 16) (bits b.now)
        (find_template (templates_at 16 (bits b.now)) (render j))) }
{
    let n = registry::template_count(b);
    for i in 0..n {
        let t = registry::indexed_at(b, places, i);
        if print::text_same(s, tab, b, v, lookup::text_of(s, b, t.name)) {
            return Some((i, t.name, t.body));
        }
    }
    None
}

// Among the templates of the bundle: mostly v is a string of it.
fn get_template(
    s: &[u8],
    tab: &[u64],
    b: &[u8],
    places: &[u32],
    v: Value,
) -> Option<(usize, usize, usize)>
    requires { Accepted s.now tab.now × (length b.now ≤ 65536) × Holds (templates 16) (bits b.now) 8
        × (field (bits b.now) 8 8 ≤ length places.now)
        × Indexed (body 16 16) (bits b.now) (field (bits b.now) 8 8) places.now × Known s.now b.now v }
    ensures { Means s.now b.now v (λ j. result
        ≡ found_view (body 16 16) (bits b.now)
        (find_template (templates_at 16 (bits b.now)) (render j))) }
{
    if let Value::Text(q) = v {
        return registry::get_indexed(b, places, q);
    }
    get_printed(s, tab, b, places, v)
}

// An inline partial wins over a template.
pub fn find_partial(
    s: &[u8],
    tab: &[u64],
    b: &[u8],
    places: &[u32],
    ent: &[u64],
    scopes: [Scope; 32],
    used: usize,
    v: Value,
) -> Found
    requires { Accepted s.now tab.now × (length b.now ≤ 65536) × Holds (templates 16) (bits b.now) 8
        × (field (bits b.now) 8 8 ≤ length places.now)
        × Indexed (body 16 16) (bits b.now) (field (bits b.now) 8 8) places.now
        × (used ≤ 32) × ((t : ℕ) × ScopesStand s.now b.now ent.now scopes used t)
        × ((t : ℕ) × Stands s.now b.now ent.now t v) }
    ensures { FoundIs (bits b.now) (name_of s.now b.now ent.now v)
        (get_partial (blocks_of s.now b.now ent.now scopes used)
        (name_of s.now b.now ent.now v))
        (get_template (templates_at 16 (bits b.now))
        (name_of s.now b.now ent.now v)) result }
{
    let inner = get_partial(s, tab, b, ent, scopes, used, v);
    if let Some(k) = inner {
        return Found::Inline(entries::place(ent, k), entries::high(ent, k) as usize);
    }
    let t = get_template(s, tab, b, places, v);
    match t {
        Some((_, name, body)) => Found::Template(name, body),
        None => Found::Nothing,
    }
}

// Whether v prints the name of the current template: one more than the place of its string, or 0 where there is none.
pub fn is_current_template(s: &[u8], tab: &[u64], b: &[u8], template: usize, v: Value) -> bool
    requires { Accepted s.now tab.now × (length b.now ≤ 65536)
        × ((template ≡ 0 → ⊥) → Holds string (bits b.now) (template - 1)) × Known s.now b.now v }
    ensures { Means s.now b.now v (λ j. result
        ≡ is_current_template (template_name (bits b.now) template) (render j)) }
{
    if template == 0 {
        return false;
    }
    if let Value::Text(q) = v {
        return layout::same_text(b, q, template - 1);
    }
    print::text_same(s, tab, b, v, lookup::text_of(s, b, template - 1))
}
