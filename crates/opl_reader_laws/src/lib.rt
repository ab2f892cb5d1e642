//! What holds of every reader of trees: its trees are those of the tokens, and its stops have their cause. For any grammar, by the
//! type of its trees and their marks. It names no rule.
#![tactic(auto)]
