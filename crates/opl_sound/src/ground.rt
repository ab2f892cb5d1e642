//! Whether a whole core is a ground core.
ghost use Rattle.std.specs.Prelude.{◌≡◌, ◌↔◌, [], length, nat_eq, true};
ghost use Rattle.std.specs.List.{list_all};
ghost use Rattle.opl_trace.specs.GroundCores.{IsGroundCore, goal_fits, section_fits};
ghost use Rattle.opl_sound.specs.Measures.{is_whole};
ghost use Rattle.opl_sound.specs.Ground.{count, is_at_most, set_values, lasts, use_fits, resource_fits, fits_ground};

use crate::sections::MOST_DEEP;
use crate::{fitting, nodes, numbers, sections, tables, variables, whole};
use opl_expr::{Core, Resource, Table, Use};

/// The most variables of a core.
const MOST_VARIABLES: usize = 65536;

/// The most values of all declared sets together.
const MOST_VALUES: u128 = 33554432;

/// The most nodes of a core.
const MOST_NODES: u128 = 4194304;

/// Whether a count is there and not above a limit.
fn is_at_most(limit: u128, count: Option<u128>) -> bool
    ensures { result ≡ is_at_most limit count }
{
    match count {
        None => false,
        Some(count) => count <= limit,
    }
}

/// How many numbers are between two ends.
#[tactic(auto, using(crate::proofs::WholeCores::sizes))]
fn set_values(ends: &(i64, i64)) -> u128
    ensures { result ≡ set_values ends.now }
{
    let (lo, hi) = *ends;
    if lo > hi {
        return 0;
    }
    (hi as i128 - lo as i128 + 1) as u128
}

/// How many values all declared sets have; none where there are too many to be told.
fn all_values(sets: &[(i64, i64)]) -> Option<u128>
    ensures { result ≡ count set_values sets.now }
{
    let mut found = Some(0);
    let mut left = sets.len();
    while left > 0 {
        left -= 1;
        found = numbers::added(numbers::small(set_values(&sets[left])), found);
    }
    found
}

/// Whether all tables are whole.
fn are_whole(core: &Core, tables: &[Table]) -> bool
    ensures { result ≡ list_all (is_whole core.now.sets) tables.now }
{
    for table in tables {
        if !tables::is_whole(core, table) {
            return false;
        }
    }
    true
}

/// Whether no declared value is negative.
fn lasts(ends: (i64, i64)) -> bool
    ensures { result ≡ lasts [] ends }
{
    let (lo, hi) = ends;
    hi < lo || 0 <= lo
}

/// Whether a use demands no less than nothing, and its start and its duration are variables, the latter with no negative value.
fn use_fits(core: &Core, u: &Use) -> bool
    ensures { result ≡ use_fits core.now.sets u.now }
{
    if u.demand < 0 {
        return false;
    }
    if !variables::is_variable(core, u.start) {
        return false;
    }
    match core.sets.get(u.duration as usize) {
        None => false,
        Some(ends) => lasts(*ends),
    }
}

/// Whether all uses are so.
fn uses_fit(core: &Core, uses: &[Use]) -> bool
    ensures { result ≡ list_all (use_fits core.now.sets) uses.now }
{
    for u in uses {
        if !use_fits(core, u) {
            return false;
        }
    }
    true
}

/// Whether a resource has no less than nothing, and its uses are so.
fn resource_fits(core: &Core, resource: &Resource) -> bool
    ensures { result ≡ resource_fits core.now.sets resource.now }
{
    0 <= resource.capacity && uses_fit(core, resource.uses.as_slice())
}

/// Whether all resources are so.
fn resources_fit(core: &Core, resources: &[Resource]) -> bool
    ensures { result ≡ list_all (resource_fits core.now.sets) resources.now }
{
    for resource in resources {
        if !resource_fits(core, resource) {
            return false;
        }
    }
    true
}

/// Whether the objective fits, if there is one.
fn goal_fits(core: &Core) -> bool
    ensures { result ≡ goal_fits core.now.tables core.now.resources core.now.goal }
{
    match &core.goal {
        None => true,
        Some(goal) => fitting::expression_fits(core, false, MOST_DEEP, &goal.value),
    }
}

/// Whether the search section is well made, if there is one.
fn section_fits(core: &Core) -> bool
    ensures { result ≡ section_fits core.now.tables core.now.resources core.now.search }
{
    match &core.search {
        None => true,
        Some(section) => sections::is_well_made(core, section),
    }
}

/// Whether each variable has a name.
fn has_names(core: &Core) -> bool
    ensures { result ≡ nat_eq (length core.now.names) (length core.now.sets) }
{
    core.names.len() == core.sets.len()
}

/// The same as whether the core is a ground core, in the order in which it is found out.
fn fits_ground(core: &Core) -> bool
    ensures { result ≡ fits_ground core.now }
{
    has_names(core)
        && (core.sets.len() <= MOST_VARIABLES
            && (is_at_most(MOST_VALUES, all_values(core.sets.as_slice()))
                && (is_at_most(MOST_NODES, nodes::core_nodes(core))
                    && (fitting::constraints_fit(core, false, MOST_DEEP, core.cons.as_slice())
                        && (goal_fits(core)
                            && (section_fits(core)
                                && (are_whole(core, core.tables.as_slice())
                                    && (resources_fit(core, core.resources.as_slice())
                                        && whole::fits_core(core)))))))))
}

/// Whether a core is a ground core: it is sound, each variable has a name, all its tables and resources are whole and sound,
/// capacities are asked at times of their resources, conditions and keys name variables in questions alone, the elements of a
/// list are ordered alike, and no limit of depth or size is passed.
pub fn is_ground(core: &Core) -> bool
    ensures { result ≡ true ↔ IsGroundCore core.now }
{
    fits_ground(core)
}
