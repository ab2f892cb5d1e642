//! Examples of generated models.
ghost use Rattle.opl_generate.specs.Examples.{DurationsHold, TextsHold};

/// The durations of some chains.
pub fn durations_hold()
    ensures { DurationsHold }
{}

/// The texts of some models.
pub fn texts_hold()
    ensures { TextsHold }
{}
