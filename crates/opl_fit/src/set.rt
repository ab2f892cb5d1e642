//! Sets of values of one form.
ghost use Rattle.std.specs.Prelude.{IfOk};
ghost use Rattle.std.specs.List.{AllByRecursion};
ghost use Rattle.opl_given.specs.declared.form.Form.{Form};
ghost use Rattle.opl_given.specs.declared.form.Form.TheVariants as forms;
ghost use Rattle.opl_given.specs.Forms.{Known};
ghost use Rattle.opl_fit.specs.Fits.{Fits};

use opl_list::Seq;
use opl_value::Value;
use std::alloc::{AllocError, Global};

/// A set of the elements, without later copies. Where they are all of one form, it has the form of sets of these.
pub fn set_of(alloc: Global, elements: Seq<Value>) -> Result<Value, AllocError>
    ensures { IfOk result (λ set. (known : Known) (form : Form) → AllByRecursion (Fits known form) elements → Fits known (forms.Set form) set) }
{
    opl_given::set_of(alloc, elements)
}
