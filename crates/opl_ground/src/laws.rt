//! Laws of what a model declares, as contracts of functions without effect.
ghost use Rattle.opl_ground.specs.Cores.{CoresAreSound};
ghost use Rattle.opl_ground.specs.Ground.{GroundedIsSound};
ghost use Rattle.opl_ground.specs.Laws.{ArraysAreSound};
ghost use Rattle.opl_ground.specs.Measured.{GroundedIsMeasured};
ghost use Rattle.opl_ground.specs.Named.{GroundedIsNamed};
ghost use Rattle.opl_ground.specs.Variables.{VariablesAreLaidOut, VariablesAreWithinLimits};
ghost use Rattle.opl_ground.specs.Whole.{GroundedIsGround};

/// The tables of all arrays of a model are sound: their indices differ, they have one cell for each combination of indices, and their variables
/// are declared.
pub fn arrays_are_sound()
    ensures { ArraysAreSound }
{}

/// An array of decision variables has one variable for each key, and the values of its index sets differ.
pub fn variables_are_laid_out()
    ensures { VariablesAreLaidOut }
{}

/// There are at most 65,536 decision variables and 33,554,432 values of their declared sets; each of these has ends from -2^62 to 2^62 and at
/// most 1,048,576 values.
pub fn variables_are_within_limits()
    ensures { VariablesAreWithinLimits }
{}

/// A core of an objective and of the constraints that conditions give is sound, where its declared sets are within the limits and its arrays
/// are sound.
pub fn cores_are_sound()
    ensures { CoresAreSound }
{}

/// The core of a model is sound, where places can be found in the index spaces of its data and each of their arrays has one cell for each key.
pub fn grounded_is_sound()
    ensures { GroundedIsSound }
{}

/// A core has a name for each variable.
pub fn grounded_is_named()
    ensures { GroundedIsNamed }
{}

/// The constraints and the objective of a core are at most 2,048 deep, and the core has at most 4,194,304 nodes.
pub fn grounded_is_measured()
    ensures { GroundedIsMeasured }
{}

/// A core is a ground core, if neither a constraint nor its objective asks for the capacity of a resource.
pub fn grounded_is_ground()
    ensures { GroundedIsGround }
{}
