//! Propagation over members that wait.
ghost use Rattle.std.specs.Prelude.{◌≡◌, ◌<◌, ◌^◌, ℕ, true, map, length};
ghost use Rattle.opl_domain.specs.Family.{Family, Below};
ghost use Rattle.opl_expr.specs.declared.model.Core.{Core};
ghost use Rattle.opl_expr.specs.Solutions.{declared};
ghost use Rattle.opl_trace.specs.Removals.{Kept};
ghost use Rattle.opl_filter.specs.Filtering.{refutes, IsBetween, Filters};
ghost use Rattle.opl_closure.specs.Waits.{watches, Wakes};
ghost use Rattle.opl_closure.specs.Members.{refutes_one, Each, AreWatched, WaitOrAreStable, Rest, Closes};
ghost use Rattle.opl_expr.specs.Forms.{Fact};
ghost use Rattle.opl_notes.specs.Noted.{Knows, Tells};

use crate::propagator::Propagator;
use crate::waiting::Waiting;
use crate::watched::Watched;
use crate::watchers::Watchers;
use opl_domain::Narrow;
use opl_expr::Core;
use opl_filter::Outcome;
use opl_notes::Notes;

/// One filter's work, which wakes others.
fn run<F: Propagator, N: Narrow>(
    core: &Core,
    filter: &mut F,
    watchers: &Watchers,
    end_watchers: &Watchers,
    waiting: &mut Waiting,
    notes: &mut Notes,
    n: &mut N,
) -> Outcome
    requires made { F.is_made_with filter.old core.now }
    requires knows { Knows (F.means filter.old core.now) notes.old.top (N.family n.old) }
    requires declared { Below (N.family n.old) (declared core.now) }
    ensures between { IsBetween (refutes (F.constraint filter.old core.now)) (N.family n.old) (N.family n.new) }
    ensures outcome { Filters (refutes (F.constraint filter.old core.now)) (N.family n.old) (N.family n.new) result }
    ensures leads_to { N.leads_to n.old n.new }
    ensures tells { Tells (F.means filter.old core.now) notes.old (N.family n.old) notes.new (N.family n.new) }
    ensures means { (d : Core) (facts : ℕ → Fact) (places : ℕ) → F.means filter.old d facts places → F.means filter.new d facts places }
    ensures constraint { (d : Core) → F.constraint filter.new d ≡ F.constraint filter.old d }
    ensures core { (d : Core) → F.is_made_with filter.old d → F.is_made_with filter.new d }
    ensures woken_by { (x : ℕ) → F.woken_by filter.new x ≡ F.woken_by filter.old x }
    ensures woken_by_ends { (x : ℕ) → F.woken_by_ends filter.new x ≡ F.woken_by_ends filter.old x }
    ensures kind { F.kind filter.new ≡ F.kind filter.old }
    ensures wakes { Wakes (watches watchers.now) (watches end_watchers.now) waiting.old (N.family n.old) waiting.new (N.family n.new) }
{
    let mut watched = Watched::new(n, waiting, watchers, end_watchers);
    filter.filter(core, notes, &mut watched)
}

/// Removes values that a member refutes alone, until no member can, or until one fails. `watchers` lists for each variable the
/// members that each of its values wakes as it goes, `end_watchers` those that its least and greatest value alone do. A member that doesn't wait is one for which the family is stable, before and afterwards; at `Stable`
/// nobody waits. The notes must be right, and are right afterwards. So the sets that narrowing began with are closed at `Stable`, and have no closure at `Failed`. It takes no memory.
pub fn propagate<F: Propagator, N: Narrow>(
    core: &Core,
    filters: &mut [F],
    watchers: &Watchers,
    end_watchers: &Watchers,
    waiting: &mut Waiting,
    notes: &mut Notes,
    n: &mut N,
) -> Outcome
    requires many { (length waiting.old ≡ length filters.old) × (length filters.old < 2 ^ 32) }
    requires made { Each (λ i f. F.is_made_with f core.now) filters.old }
    requires knows { Knows (λ facts places. Each (λ i f. F.means f core.now facts places) filters.old) notes.old.top (N.family n.old) }
    requires declared { Below (N.family n.old) (declared core.now) }
    requires watched { AreWatched watchers.now (map F.woken_by filters.old) }
    requires watched_ends { AreWatched end_watchers.now (map F.woken_by_ends filters.old) }
    requires wait { WaitOrAreStable (map (λ f. F.constraint f core.now) filters.old) waiting.old (N.family n.old) }
    ensures between { IsBetween (refutes_one (map (λ f. F.constraint f core.now) filters.old)) (N.family n.old) (N.family n.new) }
    ensures outcome { Filters (refutes_one (map (λ f. F.constraint f core.now) filters.old)) (N.family n.old) (N.family n.new) result }
    ensures closes { (D : Family) → Kept (refutes_one (map (λ f. F.constraint f core.now) filters.old)) D (N.family n.old) → Closes (refutes_one (map (λ f. F.constraint f core.now) filters.old)) D (N.family n.new) result }
    ensures kept { (D : Family) → Kept (refutes_one (map (λ f. F.constraint f core.now) filters.old)) D (N.family n.old) → Kept (refutes_one (map (λ f. F.constraint f core.now) filters.old)) D (N.family n.new) }
    ensures leads_to { N.leads_to n.old n.new }
    ensures same { map (λ f. F.constraint f core.now) filters.new ≡ map (λ f. F.constraint f core.now) filters.old }
    ensures woken_by { map F.woken_by filters.new ≡ map F.woken_by filters.old }
    ensures woken_by_ends { map F.woken_by_ends filters.new ≡ map F.woken_by_ends filters.old }
    ensures kinds { map F.kind filters.new ≡ map F.kind filters.old }
    ensures made { Each (λ i f. F.is_made_with f core.now) filters.new }
    ensures tells { Tells (λ facts places. Each (λ i f. F.means f core.now facts places) filters.old) notes.old (N.family n.old) notes.new (N.family n.new) }
    ensures means { (facts : ℕ → Fact) (places : ℕ) → Each (λ i f. F.means f core.now facts places) filters.old → Each (λ i f. F.means f core.now facts places) filters.new }
    ensures many { length waiting.new ≡ length waiting.old }
    ensures wait { WaitOrAreStable (map (λ f. F.constraint f core.now) filters.old) waiting.new (N.family n.new) }
    ensures rest { Rest waiting.new result }
{
    // No set is empty: a view says so with its number of variables.
    let _vars = n.vars();
    loop {
        match waiting.take() {
            None => return Outcome::Stable,
            Some(i) => {
                let filter = &mut filters[i as usize];
                match run(core, filter, watchers, end_watchers, waiting, notes, n) {
                    Outcome::Failed => {
                        waiting.wake(i);
                        return Outcome::Failed;
                    }
                    Outcome::Stable => waiting.done(i),
                }
            }
        }
    }
}
