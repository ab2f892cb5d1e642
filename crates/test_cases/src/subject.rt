//! What the cases of a file are about.
use std::alloc::{AllocError, Global};
use test_calls::told_of_calls;
use test_data::told_of_values;
use test_held::told_of_conditions;
use test_search::told_of_searches;
use test_solver::told_of_cores;

/// What the cases of a file are about, where they don't tell how texts read.
#[derive(Clone, Copy)]
pub enum Subject {
    /// Values of data.
    Values,
    /// Conditions under an assignment.
    Conditions,
    /// Whole calls over files in memory.
    Calls,
    /// Ground models.
    Cores,
    /// Searches of cores that are made.
    Searches,
}

/// The subject by the end of a file's name; none where its texts tell how they read.
pub fn subject_of(name: &str) -> Option<Subject> {
    if name.ends_with(".values") {
        Some(Subject::Values)
    } else if name.ends_with(".conditions") {
        Some(Subject::Conditions)
    } else if name.ends_with(".calls") {
        Some(Subject::Calls)
    } else if name.ends_with(".cores") {
        Some(Subject::Cores)
    } else if name.ends_with(".searches") {
        Some(Subject::Searches)
    } else {
        None
    }
}

/// The cases with what each comes to.
pub fn told_of(alloc: Global, subject: Subject, cases: &str) -> Result<Vec<u8>, AllocError> {
    match subject {
        Subject::Values => told_of_values(alloc, cases),
        Subject::Conditions => told_of_conditions(alloc, cases),
        Subject::Calls => told_of_calls(alloc, cases),
        Subject::Cores => told_of_cores(alloc, cases).map_err(|_| AllocError),
        Subject::Searches => told_of_searches(alloc, cases).map_err(|_| AllocError),
    }
}
