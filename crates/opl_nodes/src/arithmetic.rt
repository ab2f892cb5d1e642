//! Parts in arithmetic places.
ghost use Rattle.opl_form.specs.Nodes as nodes;
ghost use Rattle.opl_nodes.specs.Pieces as spec;

use crate::context::Context;
use crate::fault::FormFault;
use crate::part::{Form, Part};
use crate::testing::tested;

/// A part in an arithmetic place: the truth of a condition is a node more, at the place of the condition.
#[tactic(auto, using(crate::proofs::Measures::leaves))]
pub fn operand(context: &Context<'_>, at: u32, before: u64, part: Part) -> Result<Part, FormFault>
    requires { spec.IsPart context.now part }
    ensures { spec.Makes context.now (nodes.operand context.now.item at before (spec.form part)) result }
{
    let Part {
        form,
        size,
        depth,
        nodes,
    } = part;
    match form {
        Form::Condition(cons) => {
            let form = Form::Truth(cons);
            tested(
                context,
                at,
                before,
                form,
                1,
                depth + 1,
                u64::from(nodes) + 1,
            )
        }
        Form::Known(_) | Form::Number(_) | Form::Name(..) | Form::Truth(_) => Ok(Part {
            form,
            size,
            depth,
            nodes,
        }),
    }
}
