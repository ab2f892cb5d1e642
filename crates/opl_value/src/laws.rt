//! Laws of values and places, as contracts of functions without effect.
ghost use Rattle.opl_value.specs.Laws.{DifferentValuesRise, DifferentValuesStay, EachNumberIsAPlace, EqualIsSame, ListedHasItsValues, ListedIsSorted, OrderIsTotal, PlacesAreApart, PlacesAreBelow, RisingPlacesAreOne, RisingPlacesStandOnce, SetsDiffer, SetsKeepMembers, SetsKeepOrder, SpaceHasItsDimensions, SpaceIsOfItsDimensions, WholeHasItsNumbers, WholeIsSorted};

/// `==` holds of equal values alone.
#[tactic(auto, using(crate::specs::Total::value_same))]
pub fn equal_is_same()
    ensures { EqualIsSame }
{}

/// The order of values is total.
#[tactic(auto, using(crate::specs::Total::value_total))]
pub fn order_is_total()
    ensures { OrderIsTotal }
{}

/// The values of a set differ.
#[tactic(auto, using(crate::proofs::Sets::sets_differ))]
pub fn sets_differ()
    ensures { SetsDiffer }
{}

/// A place is below the number of keys.
#[tactic(auto, using(crate::proofs::PlaceLaws::places_below))]
pub fn places_are_below()
    ensures { PlacesAreBelow }
{}

/// Different keys have different places.
#[tactic(auto, using(crate::proofs::PlaceLaws::places_apart))]
pub fn places_are_apart()
    ensures { PlacesAreApart }
{}

/// Where the values of each dimension differ, each number below that of the keys is the place of one.
#[tactic(auto, using(crate::proofs::PlaceLaws::each_number))]
pub fn each_number_is_a_place()
    ensures { EachNumberIsAPlace }
{}

/// A value is in a set exactly where it is in the list that the set was made of.
#[tactic(auto, using(crate::proofs::SetLaws::sets_keep_members))]
pub fn sets_keep_members()
    ensures { SetsKeepMembers }
{}

/// The values of a set stand in the order of their first occurrences.
#[tactic(auto, using(crate::proofs::SetLaws::sets_keep_order))]
pub fn sets_keep_order()
    ensures { SetsKeepOrder }
{}

/// Values that differ are a set as they stand: a dimension of a set has the set's values.
#[tactic(auto, using(crate::proofs::SetLaws::different_values_stay))]
pub fn different_values_stay()
    ensures { DifferentValuesStay }
{}

/// The places of values in rising order, none twice, are those that the definition lists.
pub fn rising_places_are_one()
    ensures { RisingPlacesAreOne }
{}

/// Of values that differ, the definition lists the places in rising order, none twice.
pub fn different_values_rise()
    ensures rising { DifferentValuesRise }
    ensures once { RisingPlacesStandOnce }
{}

/// A dimension that lists values has these values, and places can be found by it where they differ.
#[tactic(auto, using(crate::proofs::Rising::named))]
pub fn listed_has_its_values()
    ensures values { ListedHasItsValues }
    ensures sorted { ListedIsSorted }
{}

/// A dimension of whole numbers has those from its first to its last, and places can be found by it.
#[tactic(auto, using(crate::proofs::Rising::named))]
pub fn whole_has_its_numbers()
    ensures values { WholeHasItsNumbers }
    ensures sorted { WholeIsSorted }
{}

/// An index space is its dimensions: each list of dimensions is that of one index space.
#[tactic(auto, using(crate::proofs::Places::spaces))]
pub fn space_is_its_dimensions()
    ensures dims { SpaceHasItsDimensions }
    ensures space { SpaceIsOfItsDimensions }
{}
