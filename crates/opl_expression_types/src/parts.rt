//! Parts of expressions, out of what was found of these.
ghost use Rattle.std.specs.Prelude.{◌∷◌, ◌++◌, [], Ok, map};
ghost use Rattle.std.specs.Result.{result_map_both};
ghost use Rattle.opl_type_rules.specs.Expressions as spec;
ghost use Rattle.opl_type_rules.specs.Scope.{and_then};
ghost use Rattle.opl_type_rules.specs.Types.{is_number, is_storable, is_truth, sort};
ghost use Rattle.opl_type_rules.specs.Types.Sort.{int, set};
ghost use Rattle.opl_type_rules.specs.Values.{Gives, need_of, node_of};

use opl_list::Seq;
use opl_type_rules::fault::TypeFault;
use opl_type_rules::kind::Ty;
use opl_type_rules::node::{Need, Node};
use opl_type_rules::rules::{add_kinds, aggregate, described, number_of, one};
use std::alloc::Global;

/// An expression as a part of another, unless it has a fault.
pub(crate) fn part_of(found: Result<Node, TypeFault>) -> Result<Node, TypeFault>
    ensures { Gives node_of (and_then (result_map_both node_of (λ e. e) found) spec.part) result }
{
    match found {
        Ok(node) => node.part(),
        Err(fault) => Err(fault),
    }
}

/// An expression as a number that is data, unless it has a fault.
pub(crate) fn data_number_of(found: Result<Node, TypeFault>) -> Result<Node, TypeFault>
    ensures { Gives node_of (and_then (result_map_both node_of (λ e. e) found) spec.data_number) result }
{
    match found {
        Ok(node) => node.data_number(),
        Err(fault) => Err(fault),
    }
}

/// The first part of several.
pub(crate) fn first_part(alloc: Global, first: Node) -> Result<Seq<Node>, TypeFault>
    ensures { Gives (map node_of) (and_then (spec.part (node_of first)) (λ n. Ok (n ∷ []))) result }
{
    let part = first.part()?;
    one(alloc, part)
}

/// Adds a part behind those before, unless it has a fault.
pub(crate) fn add_part(
    parts: &mut Seq<Node>,
    found: Result<Node, TypeFault>,
) -> Result<(), TypeFault>
    ensures { Gives (λ u. map node_of parts.new) (and_then (and_then (result_map_both node_of (λ e. e) found) spec.part) (λ n. Ok (map node_of parts.old ++ (n ∷ [])))) result }
{
    let part = part_of(found)?;
    parts.push(part)?;
    Ok(())
}

/// A number made of one part, unless that has a fault.
pub(crate) fn signed(
    alloc: Global,
    at: u32,
    found: Result<Node, TypeFault>,
) -> Result<Node, TypeFault>
    ensures { Gives node_of (and_then (and_then (result_map_both node_of (λ e. e) found) spec.part) (λ n. Ok (spec.made at int (n ∷ []) (is_number n.sort)))) result }
{
    let part = part_of(found)?;
    number_of(alloc, at, part)
}

/// `sum` and the like, behind parameters with these types, unless the body has a fault.
pub(crate) fn summed(
    alloc: Global,
    at: u32,
    found: Result<Node, TypeFault>,
    kinds: Seq<Ty>,
) -> Result<Node, TypeFault>
    ensures { Gives node_of (and_then (and_then (result_map_both node_of (λ e. e) found) spec.part) (λ n. Ok (spec.node at int (n ∷ []) (is_number n.sort) (map sort kinds ++ spec.kinds n)))) result }
{
    let part = part_of(found)?;
    aggregate(alloc, at, kinds, part)
}

/// `{e | p}` where `p` has these types, unless `e` has a fault.
pub(crate) fn shown(
    alloc: Global,
    at: u32,
    found: Result<Node, TypeFault>,
    kinds: Seq<Ty>,
) -> Result<Node, TypeFault>
    ensures { Gives node_of (and_then (and_then (result_map_both node_of (λ e. e) found) spec.part) (λ n. Ok (spec.of_data (spec.node at (set n.sort) (n ∷ []) (is_storable n.sort) (spec.kinds n ++ map sort kinds))))) result }
{
    let part = part_of(found)?;
    described(alloc, at, part, kinds)
}

/// Adds the types of a condition behind those before, unless it has a fault. It meets the need.
pub(crate) fn add_condition(
    kinds: &mut Seq<Ty>,
    need: Need,
    found: Result<Node, TypeFault>,
) -> Result<(), TypeFault>
    ensures { Gives (λ u. map sort kinds.new) (and_then (and_then (result_map_both node_of (λ e. e) found) (spec.used (need_of need) is_truth)) (λ n. Ok (map sort kinds.old ++ spec.kinds n))) result }
{
    match found {
        Ok(node) => {
            let is_taken = node.ty.get().is_truth();
            let taken = node.settled(need, is_taken)?;
            add_kinds(kinds, taken)
        }
        Err(fault) => Err(fault),
    }
}
