//! Laws of the walk, as contracts of functions without effect.
ghost use Rattle.opl_fields.specs.Laws.{FieldsAreTold, FieldsHavePositions, ParametersKeepPositions, PositionsAreRight, WalkFollowsTyping, WalkFindsAll};

/// Where typing accepts an expression, the walk over it takes exactly the types that typing lists, whatever follows them, and finds
/// the fields that typing tells.
pub fn walk_follows_typing()
    ensures { WalkFollowsTyping }
{}

/// Where typing accepts a model, the walk over it takes exactly the types that typing lists, whatever follows them, and finds the
/// fields that the model names.
pub fn walk_finds_all()
    ensures { WalkFindsAll }
{}

/// At the position of a field stands the field's name.
pub fn positions_are_right()
    ensures { PositionsAreRight }
{}

/// Behind fewer than 2^32 declarations each field that typing finds in a struct has a position in it.
pub fn fields_have_positions()
    ensures { FieldsHavePositions }
{}

/// Inside parameters too.
pub fn parameters_keep_positions()
    ensures { ParametersKeepPositions }
{}

/// So a field of a record that typing accepts is told, with its position in the record's struct.
pub fn fields_are_told()
    ensures { FieldsAreTold }
{}
