//! How the solver sees and narrows the sets of all variables.
ghost use Rattle.std.specs.Prelude.{◌≡◌, ◌<◌, ℤ, true, length};
ghost use Rattle.opl_domain.specs.Family.{Family, IsFamily, set_of, has, cut_of, IsLeast, IsGreatest, IsNext};

/// The sets of the variables `0` to `vars - 1`: each not empty, its values rising.
pub trait View {
    ghost family: { Self → Family };

    /// The number of variables.
    fn vars(&self) -> u32
        ensures count { result ≡ length (family self.now) }
        ensures sets { IsFamily (family self.now) };

    /// The least value of `x`.
    fn min(&self, x: u32) -> i64
        requires { x < length (family self.now) }
        ensures { IsLeast (set_of (family self.now) x) result };

    /// The greatest value of `x`.
    fn max(&self, x: u32) -> i64
        requires { x < length (family self.now) }
        ensures { IsGreatest (set_of (family self.now) x) result };

    /// The number of values of `x`.
    fn size(&self, x: u32) -> u32
        requires { x < length (family self.now) }
        ensures { result ≡ length (set_of (family self.now) x) };

    /// Whether `v` is a value of `x`.
    fn has(&self, x: u32, v: i64) -> bool
        requires { x < length (family self.now) }
        ensures { result ≡ has (family self.now) x v };

    /// The least value of `x` above `after`.
    fn next(&self, x: u32, after: i64) -> Option<i64>
        requires { x < length (family self.now) }
        ensures { IsNext (set_of (family self.now) x) after result };
}

/// Sets that can lose values.
pub trait Narrow: View {
    /// What cuts may lead to, beside the sets: what else a value has stays, or changes only so.
    ghost leads_to: { Self → Self → Type 0 };

    /// Removes the values of `x` from `lo` to `hi`. One must stay; the other sets stay as they are.
    fn cut(&mut self, x: u32, lo: i64, hi: i64)
        requires within { x < length (Self.family self.old) }
        requires stays { (v : ℤ) × (has (cut_of (Self.family self.old) x lo hi) x v ≡ true) }
        ensures cut { Self.family self.new ≡ cut_of (Self.family self.old) x lo hi }
        ensures leads_to { leads_to self.old self.new };

    ghost leads_to_itself: { (s : Self) → leads_to s s };

    ghost leads_on: { (s t u : Self) → leads_to s t → leads_to t u → leads_to s u };
}
