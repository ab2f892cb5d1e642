//! What a walk tells of a tree, and to whom.
ghost use Rattle.std.specs.Prelude.{◌≡◌, ◌+◌, ℕ, Bool, not};
ghost use Rattle.opl_tree.specs.Marks as marks;
ghost use Rattle.opl_tree.specs.Marks.{Part};
ghost use Rattle.opl_walk.specs.Told.{Follows, capped, told};

use opl_token::Sign;
use opl_tree::{Keyword, NameTree};

/// Who is told, in order, each token that a tree writes and each level that a token opens.
pub trait Visitor {
    /// Whether it has taken in all that it was told. No step of a walk can fail: a visitor that lacks memory is not
    /// whole from then on, and who began the walk asks it afterwards.
    ghost is_whole: { Self → Bool };

    /// What it becomes by a token.
    ghost token: { Part → Self → Self };

    /// What it becomes by a level that opens: the how maniest, counted from 1 outside.
    ghost opens: { ℕ → Self → Self };

    /// A word of the language.
    fn word(&mut self, word: Keyword)
        ensures { Follows is_whole self.old (token (marks.word word)) self.new };

    /// A sign.
    fn sign(&mut self, sign: Sign)
        ensures { Follows is_whole self.old (token (marks.sign sign)) self.new };

    /// A name.
    fn name(&mut self, text: &[u8])
        ensures { Follows is_whole self.old (token (marks.name text.now)) self.new };

    /// The name of a field, which may be any word.
    fn field(&mut self, text: &[u8])
        ensures { Follows is_whole self.old (token (marks.any text.now)) self.new };

    /// A number.
    fn number(&mut self, number: i128)
        ensures { Follows is_whole self.old (token (marks.number number)) self.new };

    /// A level, which the next token opens.
    fn opens(&mut self, level: u32)
        ensures { Follows is_whole self.old (opens level) self.new };
}

/// Tells a level and the sign that opens it, and answers the level's number.
pub(crate) fn open<V: Visitor>(level: u32, sign: Sign, visitor: &mut V) -> u32
    ensures level { result ≡ capped (level + 1) }
    ensures told { Follows V.is_whole visitor.old (λ seen. V.token (marks.sign sign) (V.opens (capped (level + 1)) seen)) visitor.new }
{
    let inner = deeper(level);
    visitor.opens(inner);
    visitor.sign(sign);
    inner
}

/// Tells a level and the word that opens it, and answers the level's number.
pub(crate) fn open_word<V: Visitor>(level: u32, word: Keyword, visitor: &mut V) -> u32
    ensures level { result ≡ capped (level + 1) }
    ensures told { Follows V.is_whole visitor.old (λ seen. V.token (marks.word word) (V.opens (capped (level + 1)) seen)) visitor.new }
{
    let inner = deeper(level);
    visitor.opens(inner);
    visitor.word(word);
    inner
}

/// One level more, but no more than the greatest number.
#[tactic(auto, unfolding(crate::specs::Told::capped))]
fn deeper(level: u32) -> u32
    ensures { result ≡ capped (level + 1) }
{
    level.saturating_add(1)
}

/// Tells the sign between parts, before each but the first.
pub(crate) fn between<V: Visitor>(level: u32, sign: Sign, is_first: bool, visitor: &mut V)
    ensures { Follows V.is_whole visitor.old (told V.token V.opens level (marks.optional (marks.sign sign) (not is_first))) visitor.new }
{
    if is_first {
        return;
    }
    visitor.sign(sign)
}

/// Tells a name.
#[tactic(auto, using(opl_tree::proofs::Marks::name_marks))]
pub(crate) fn walk_name<V: Visitor>(level: u32, t: &NameTree, visitor: &mut V)
    ensures { Follows V.is_whole visitor.old (told V.token V.opens level (marks.marks_name t.now)) visitor.new }
{
    visitor.name(t.text.as_slice())
}
