//! The steps of a search as data: what is still to be done, what comes next at the sets of a moment, and what that costs.
//!
//! A program that goes from moment to moment stands on it. Each law is the contract of a function without effect.
#![tactic(auto)]

ghost use Rattle.opl_steps.specs.Laws.{StepsMean, FailedMomentsEnd, StepsLessen, BetterHolds, BetterIsSound, BetterIsClear};

/// At a moment with sets, tasks make what comes next.
pub fn steps_mean()
    ensures { StepsMean }
{}

/// At a moment without sets, tasks make nothing.
pub fn failed_moments_end()
    ensures { FailedMomentsEnd }
{}

/// What comes next costs less, so that a search goes only so far between two choices.
pub fn steps_lessen()
    ensures { StepsLessen }
{}

/// The bound holds exactly where the objective is better.
pub fn better_values_hold()
    ensures { BetterHolds }
{}

/// The bound of a sound objective is sound.
pub fn bounds_are_sound()
    ensures { BetterIsSound }
{}

/// The bound names the tables of the objective alone.
pub fn bounds_are_clear()
    ensures { BetterIsClear }
{}
