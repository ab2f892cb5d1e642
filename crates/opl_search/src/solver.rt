//! What a search stands on: sets with constraints, level by level.
ghost use Rattle.std.specs.Prelude.{◌≡◌, ◌<◌, ◌+◌, ◌-◌, ◌^◌, true, length, min, OnOk};
ghost use Rattle.opl_domain.specs.Family.{has, Below};
ghost use Rattle.opl_trace.specs.Answers.{is_value};
ghost use Rattle.opl_turns.specs.Covered.{AreAlone};
ghost use Rattle.opl_search.specs.States.{State, opened, back_to, posting, with_sets, improved, IsMoment, Closes};

use opl_domain::{OutOfMemory, Steps, View};
use std::alloc::Global;

/// How closing ends.
#[derive(Drop, Clone, Copy)]
pub enum Closed {
    Stable,
    Failed,
}

/// The sets of a core's variables, which are the view, and the constraints that are posted, level by level, with the best value
/// so far. After want of memory nothing is said of it.
pub trait Solver: View {
    ghost state: { Self → State };

    /// The number of open levels.
    fn count_levels(&self) -> u64
        ensures { result ≡ length (state self.now).levels };

    /// The best value so far.
    fn best(&self) -> Option<i128>
        ensures { result ≡ (state self.now).best };

    /// Opens a level.
    fn open_level(&mut self, alloc: Global) -> Result<(), OutOfMemory>
        ensures { OnOk result (state self.new ≡ opened (state self.old)) };

    /// Gives back the sets and constraints at the opening of the level that was opened when `level` were open, and closes it
    /// and all that were opened later. The best value stays.
    fn go_back(&mut self, level: u64)
        requires { level < length (state self.old).levels }
        ensures { state self.new ≡ back_to level (state self.old) };

    /// Posts that `x` has the value `v`, which is one of its values.
    fn post_value(&mut self, alloc: Global, x: u32, v: i64) -> Result<(), OutOfMemory>
        requires { has (state self.old).sets x v ≡ true }
        ensures { OnOk result (state self.new ≡ posting (is_value x v) (state self.old)) };

    /// Leaves the closure of the constraints and the bound of the best value, or answers `Failed` exactly where there is
    /// none. It counts one step, and takes no memory.
    fn close(&mut self, steps: &mut Steps) -> Closed
        ensures closed { Closes (state self.old) (state self.new).sets result }
        ensures below { Below (state self.new).sets (state self.old).sets }
        ensures others { state self.new ≡ with_sets (state self.new).sets (state self.old) }
        ensures once { steps.new ≡ min (steps.old + 1) (2 ^ 64 - 1) };

    /// Takes the value of the objective at a solution as the best, if there is an objective. It takes no memory.
    fn improve(&mut self)
        requires moment { IsMoment (state self.old) }
        requires single { AreAlone (state self.old).sets }
        ensures { state self.new ≡ improved (state self.old) };

    ghost sees: { (s : Self) → Self.family s ≡ (state s).sets };
}
