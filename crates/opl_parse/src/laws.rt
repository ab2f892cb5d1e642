//! Laws of trees and tokens: each function does nothing, and its contract is a theorem about the definitions alone.
ghost use Rattle.opl_parse.specs.Laws.{OneTree, TreeOrStop, OneStop, OneOpening, ParseTotal, DeepOrTree, OnlyDeeper};

/// Tokens have at most one tree.
pub fn one_tree()
    ensures { OneTree }
{}

/// Tokens that have a tree stop nowhere.
pub fn tree_or_stop()
    ensures { TreeOrStop }
{}

/// Tokens stop at one place at most.
pub fn one_stop()
    ensures { OneStop }
{}

/// Tokens open a level too many at one place at most.
pub fn one_opening()
    ensures { OneOpening }
{}

/// Tokens have a tree that does not nest too deep, or stop somewhere and open no level too many, or open one.
pub fn parse_total()
    ensures { ParseTotal }
{}

/// The tree of tokens that open a level too many nests deeper.
pub fn deep_or_tree()
    ensures { DeepOrTree }
{}

/// Each tree that begins with the tokens up to one that opens a level too many nests deeper.
pub fn only_deeper()
    ensures { OnlyDeeper }
{}
