//! What the table of words promises, as functions without effect whose contracts are the laws.
ghost use Rattle.opl_tree.specs.Keywords.{EachFound, FoundByText};

/// Each word of the language is found by its bytes.
pub fn each_found()
    ensures { EachFound }
{}

/// A word of the language is found by no other bytes.
pub fn found_by_text()
    ensures { FoundByText }
{}
