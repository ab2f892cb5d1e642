//! The comparisons of values, and their hash, as std's traits give them.
ghost use Rattle.std.specs.Prelude.{◌≡◌, ◌↔◌, IsTrue, refl, fold, map};
ghost use Rattle.std.specs.Ordering.{as_partial_cmp};
ghost use Rattle.opl_value.specs.Order.{value_cmp, value_eq};
ghost use Rattle.opl_value.specs.Hashed.{value_writes, joined};
ghost use Rattle.opl_value.specs.Total.{value_total, value_equivalence, value_partial_equivalence, value_partial_order, value_alike};

use crate::value::Value;
use std::cmp::Ordering;
use std::hash::{Hash, Hasher};

impl PartialEq for Value {
    ghost eq = { value_eq };

    ghost laws = { value_partial_equivalence };

    /// Whether the values are equal, part by part.
    #[tactic(auto, using(crate::specs::Total::value_same))]
    fn eq(&self, other: &Value) -> bool
        ensures value { result ≡ value_eq self.now other.now }
        ensures same { IsTrue result ↔ (self.now ≡ other.now) }
    {
        self.order(other) == Ordering::Equal
    }
}

impl Eq for Value {
    ghost laws = { value_equivalence };
}

impl PartialOrd for Value {
    ghost partial_cmp = { as_partial_cmp value_cmp };

    ghost laws = { value_partial_order };

    fn partial_cmp(&self, other: &Value) -> Option<Ordering> {
        Some(self.order(other))
    }
}

impl Ord for Value {
    ghost cmp = { value_cmp };

    ghost total = { value_total };

    ghost matches_partial_cmp = { λ a b. refl };

    ghost matches_eq = { λ a b. refl };

    /// By variant in the order of their declaration, then by parts.
    fn cmp(&self, other: &Value) -> Ordering {
        self.order(other)
    }
}

impl Hash for Value {
    ghost hash_input = { value_writes };

    ghost respects_eq = { value_alike };

    fn hash<H: Hasher>(&self, state: &mut H) {
        feed(self, state);
    }
}

/// Gives the value to the hasher.
#[tactic(auto, using(crate::proofs::Writes::writes))]
#[cycle(feeds)]
fn feed<H: Hasher>(value: &Value, state: &mut H)
    ensures { state.new ≡ fold H.write state.old (value_writes value.now) }
{
    match value {
        Value::Int(number) => {
            state.write_u8(0);
            state.write_i128(*number);
        }
        Value::Bool(holds) => {
            state.write_u8(1);
            holds.hash(state);
        }
        Value::Enum(declaration, position) => {
            state.write_u8(2);
            state.write_u32(*declaration);
            state.write_u32(*position);
        }
        Value::Record(parts) => {
            state.write_u8(3);
            feed_all(parts.as_slice(), state);
        }
        Value::Set(elements) => {
            state.write_u8(4);
            feed_all(elements.as_slice(), state);
        }
        Value::Range(low, high) => {
            state.write_u8(5);
            state.write_i128(*low);
            state.write_i128(*high);
        }
        Value::Names(_) => state.write_u8(6),
        Value::Array(..) => state.write_u8(7),
    }
}

/// Gives the values to the hasher, one after another.
#[cycle(feeds)]
fn feed_all<H: Hasher>(values: &[Value], state: &mut H)
    ensures { state.new ≡ fold H.write state.old (joined (map value_writes values.now)) }
{
    for value in values {
        feed(value, state);
    }
}
