// partial.rs: the scope of a partial is opened, with the hash of its call merged into its context.
// s is the plan with its places tab, b the bundle; ent holds the entries of open partials; d is the number of depths left for the call.
#![tactic(auto)]

ghost use Rattle.opening.specs.Opens.{Openable, Opens};

use error::RenderErrorReason;
use scope::Scope;
use value::Value;

// The scope of a partial inside front, which is the newest of used scopes, and the entries that are in use together with it; total are in use.
// The n hash pairs at q are merged into the base; values are the numbers of theirs.
pub fn open_scope(
    s: &[u8],
    tab: &[u64],
    b: &[u8],
    ent: &mut [u64],
    front: Scope,
    base: Value,
    q: usize,
    n: usize,
    values: &[u32],
    d: usize,
    used: usize,
    total: usize,
) -> Result<(Scope, usize), RenderErrorReason>
    requires { Openable s.now tab.now b.now ent.old front base d q n values.now used total }
    ensures { Opens s.now b.now ent.old ent.new
        front base d q n values.now used total result }
{
    let t = front.inline as usize + front.count as usize;
    if 4096 < t + n {
        return Err(RenderErrorReason::EntriesLimit);
    }
    including::merge(ent, b, t, base, values, q, n, d);
    let m = including::merged_entries(s, tab, b, ent, t, n);
    if 4096 - total < m {
        return Err(RenderErrorReason::EntriesLimit);
    }
    if 32 <= used {
        return Err(RenderErrorReason::ScopesLimit);
    }
    Ok((including::scope_of(base, t, n, front), total + m))
}
