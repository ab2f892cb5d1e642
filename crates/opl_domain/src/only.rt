//! A view in which one variable has a single value.
ghost use Rattle.std.specs.Prelude.{◌≡◌};
ghost use Rattle.opl_domain.specs.Family.{only};

use crate::view::View;

/// The sets of another view, but for one variable, which has a single value. It takes no memory.
#[derive(Drop)]
pub struct Only<'a, V> {
    inner: &'a V,
    variable: u32,
    value: i64,
}

impl<'a, V: View> Only<'a, V> {
    /// The sets of `inner`, but with `value` as the only value of `variable`.
    pub fn new(inner: &'a V, variable: u32, value: i64) -> Only<'a, V>
        ensures { ⟦<Only<'a, V> as View>⟧.family result ≡ only (V.family inner.entry.now) variable value }
    {
        Only {
            inner,
            variable,
            value,
        }
    }
}

impl<'a, V: View> View for Only<'a, V> {
    ghost family = { λ s. only (V.family s.inner.now) s.variable s.value };

    fn vars(&self) -> u32 {
        self.inner.vars()
    }

    fn min(&self, x: u32) -> i64 {
        if x == self.variable {
            self.value
        } else {
            self.inner.min(x)
        }
    }

    fn max(&self, x: u32) -> i64 {
        if x == self.variable {
            self.value
        } else {
            self.inner.max(x)
        }
    }

    fn size(&self, x: u32) -> u32 {
        if x == self.variable {
            1
        } else {
            self.inner.size(x)
        }
    }

    fn has(&self, x: u32, v: i64) -> bool {
        if x == self.variable {
            v == self.value
        } else {
            self.inner.has(x, v)
        }
    }

    fn next(&self, x: u32, after: i64) -> Option<i64> {
        if x != self.variable {
            return self.inner.next(x, after);
        }
        if after < self.value {
            Some(self.value)
        } else {
            None
        }
    }
}
