//! Ground forms made part by part: forms one behind another, bodies and items choice by choice; definitions and laws alone.
#![tactic(auto)]

pub mod laws;
