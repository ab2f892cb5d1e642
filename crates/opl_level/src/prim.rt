//! What an expression begins with, and what is written behind it.
ghost use Rattle.std.specs.Prelude.{◌≡◌, ◌||◌};
ghost use Rattle.opl_grammar.specs.Input.{Reads};
ghost use Rattle.opl_grammar.specs.Input as steps;
ghost use Rattle.opl_grammar.specs.Rules as rules;
ghost use Rattle.opl_grammar.specs.Tables as tables;

use crate::below::{Below, Level};
use crate::word::{field_name, name};
use opl_grammar::keeping::keep;
use opl_grammar::list::{Part, many};
use opl_grammar::tables::{call_op, question_op};
use opl_grammar::{Braced, Cursor};
use opl_list::Boxed;
use opl_token::Sign;
use opl_tree::{Keyword, PostTree, PrimTree, SubscriptsTree, SuffixTree, SyntaxFault};

/// The set with these braces at this place.
fn set_prim(at: u32, inside: Braced) -> PrimTree
    ensures { result ≡ rules.set_prim_at at inside }
{
    match inside {
        Braced::Listed(parts) => PrimTree::Listed(at, parts),
        Braced::Described(part, params) => PrimTree::Described(at, part, params),
    }
}

impl<B: Below> Level<B> {
    /// `NUMBER`
    #[tactic(auto, unfolding(opl_grammar::specs::Rules::number))]
    fn number(&self, cursor: &mut Cursor<'_>) -> Result<PrimTree, SyntaxFault>
        requires { B.is_ready self.now.below }
        ensures { Reads (rules.number (B.rules self.now.below) cursor.old) result cursor.new }
    {
        let at = cursor.place();
        let value = cursor.take_number()?;
        Ok(PrimTree::Number(at, value))
    }

    /// `(EXPR)`
    #[tactic(auto, unfolding(opl_grammar::specs::Rules::bracket))]
    fn bracket(&self, cursor: &mut Cursor<'_>) -> Result<PrimTree, SyntaxFault>
        requires { B.is_ready self.now.below }
        ensures { Reads (rules.bracket (B.rules self.now.below) cursor.old) result cursor.new }
    {
        let at = cursor.place();
        cursor.expect_sign(Sign::OpenParenthesis)?;
        let inner = self.below.expr(cursor, at)?;
        let (inner, ()) = keep(inner, cursor.expect_sign(Sign::CloseParenthesis))?;
        Ok(PrimTree::Bracket(at, inner))
    }

    /// `<ADD, ADD, ..>`
    #[tactic(auto, unfolding(opl_grammar::specs::Rules::record_prim))]
    fn record_prim(&self, cursor: &mut Cursor<'_>) -> Result<PrimTree, SyntaxFault>
        requires { B.is_ready self.now.below }
        ensures { Reads (rules.record_prim (B.rules self.now.below) cursor.old) result cursor.new }
    {
        let at = cursor.place();
        cursor.expect_sign(Sign::Less)?;
        let parts = self.below.adds(cursor, at)?;
        let ((first, rest), ()) = keep(parts, cursor.expect_sign(Sign::Greater))?;
        Ok(PrimTree::Record(at, first, rest))
    }

    /// `{ADD, ADD, ..}` and `{ADD | PARAMS}`
    #[tactic(auto, unfolding(opl_grammar::specs::Rules::braces_prim))]
    fn braces_prim(&self, cursor: &mut Cursor<'_>) -> Result<PrimTree, SyntaxFault>
        requires { B.is_ready self.now.below }
        ensures { Reads (rules.braces_prim (B.rules self.now.below) cursor.old) result cursor.new }
    {
        let at = cursor.place();
        cursor.expect_sign(Sign::OpenBrace)?;
        let inside = self.below.braced(cursor, at)?;
        let (inside, ()) = keep(inside, cursor.expect_sign(Sign::CloseBrace))?;
        Ok(set_prim(at, inside))
    }

    /// `[ADD, ADD, ..]`
    #[tactic(auto, unfolding(opl_grammar::specs::Rules::array))]
    fn array(&self, cursor: &mut Cursor<'_>) -> Result<PrimTree, SyntaxFault>
        requires { B.is_ready self.now.below }
        ensures { Reads (rules.array (B.rules self.now.below) cursor.old) result cursor.new }
    {
        let at = cursor.place();
        cursor.expect_sign(Sign::OpenBracket)?;
        let parts = self.below.listed(cursor, at)?;
        let (parts, ()) = keep(parts, cursor.expect_sign(Sign::CloseBracket))?;
        Ok(PrimTree::Array(at, parts))
    }

    /// `#[ADD:ADD, ADD:ADD, ..]#`
    #[tactic(auto, unfolding(opl_grammar::specs::Rules::keyed_array))]
    fn keyed_array(&self, cursor: &mut Cursor<'_>) -> Result<PrimTree, SyntaxFault>
        requires { B.is_ready self.now.below }
        ensures { Reads (rules.keyed_array (B.rules self.now.below) cursor.old) result cursor.new }
    {
        let at = cursor.place();
        cursor.expect_sign(Sign::OpenAssociation)?;
        let parts = self.below.keyed(cursor, at)?;
        let (parts, ()) = keep(parts, cursor.expect_sign(Sign::CloseAssociation))?;
        Ok(PrimTree::KeyedArray(at, parts))
    }

    /// `alldifferent (ADD)`
    #[tactic(auto, unfolding(opl_grammar::specs::Rules::all_different))]
    fn all_different(&self, cursor: &mut Cursor<'_>) -> Result<PrimTree, SyntaxFault>
        requires { B.is_ready self.now.below }
        ensures { Reads (rules.all_different (B.rules self.now.below) cursor.old) result cursor.new }
    {
        let at = cursor.place();
        cursor.expect_word(Keyword::AllDifferent)?;
        let opener = cursor.place();
        cursor.expect_sign(Sign::OpenParenthesis)?;
        let inner = self.below.add(cursor, opener)?;
        let (inner, ()) = keep(inner, cursor.expect_sign(Sign::CloseParenthesis))?;
        Ok(PrimTree::AllDifferent(at, inner))
    }

    /// `abs (EXPR)` or `card (EXPR)`
    #[tactic(auto, unfolding(opl_grammar::specs::Rules::call))]
    fn call(&self, cursor: &mut Cursor<'_>) -> Result<PrimTree, SyntaxFault>
        requires { B.is_ready self.now.below }
        ensures { Reads (rules.call (B.rules self.now.below) cursor.old) result cursor.new }
    {
        let at = cursor.place();
        let op = cursor.take_found(call_op(cursor.look()))?;
        let opener = cursor.place();
        cursor.expect_sign(Sign::OpenParenthesis)?;
        let inner = self.below.expr(cursor, opener)?;
        let (inner, ()) = keep(inner, cursor.expect_sign(Sign::CloseParenthesis))?;
        Ok(PrimTree::Call(at, op, inner))
    }

    /// `(POST)`
    #[tactic(auto, unfolding(opl_grammar::specs::Rules::asked))]
    pub fn asked(&self, cursor: &mut Cursor<'_>) -> Result<Boxed<PostTree>, SyntaxFault>
        requires { B.is_ready self.now.below }
        ensures { Reads (rules.asked (B.rules self.now.below) cursor.old) result cursor.new }
    {
        let at = cursor.place();
        cursor.expect_sign(Sign::OpenParenthesis)?;
        let inner = self.below.post(cursor, at)?;
        let (inner, ()) = keep(inner, cursor.expect_sign(Sign::CloseParenthesis))?;
        Ok(inner)
    }

    /// `dsize (POST)` and the like
    #[tactic(auto, unfolding(opl_grammar::specs::Rules::question))]
    fn question(&self, cursor: &mut Cursor<'_>) -> Result<PrimTree, SyntaxFault>
        requires { B.is_ready self.now.below }
        ensures { Reads (rules.question (B.rules self.now.below) cursor.old) result cursor.new }
    {
        let at = cursor.place();
        let op = cursor.take_found(question_op(cursor.look()))?;
        let inner = self.asked(cursor)?;
        Ok(PrimTree::Question(at, op, inner))
    }

    /// What begins with a word of the language.
    #[tactic(auto, unfolding(opl_grammar::specs::Rules::word_prim))]
    fn word_prim(&self, cursor: &mut Cursor<'_>) -> Result<PrimTree, SyntaxFault>
        requires { B.is_ready self.now.below }
        ensures { Reads (rules.word_prim (B.rules self.now.below) cursor.old) result cursor.new }
    {
        if cursor.sees_word(Keyword::AllDifferent) {
            self.all_different(cursor)
        } else if call_op(cursor.look()).is_some() {
            self.call(cursor)
        } else {
            self.question(cursor)
        }
    }

    /// What begins with a sign, or with a word of the language.
    #[tactic(auto, unfolding(opl_grammar::specs::Rules::sign_prim))]
    fn sign_prim(&self, cursor: &mut Cursor<'_>) -> Result<PrimTree, SyntaxFault>
        requires { B.is_ready self.now.below }
        ensures { Reads (rules.sign_prim (B.rules self.now.below) cursor.old) result cursor.new }
    {
        if cursor.sees_sign(Sign::OpenParenthesis) {
            self.bracket(cursor)
        } else if cursor.sees_sign(Sign::Less) {
            self.record_prim(cursor)
        } else if cursor.sees_sign(Sign::OpenBrace) {
            self.braces_prim(cursor)
        } else if cursor.sees_sign(Sign::OpenBracket) {
            self.array(cursor)
        } else if cursor.sees_sign(Sign::OpenAssociation) {
            self.keyed_array(cursor)
        } else {
            self.word_prim(cursor)
        }
    }

    /// What an expression begins with.
    #[tactic(auto, unfolding(opl_grammar::specs::Rules::prim))]
    fn prim(&self, cursor: &mut Cursor<'_>) -> Result<PrimTree, SyntaxFault>
        requires { B.is_ready self.now.below }
        ensures { Reads (rules.prim (B.rules self.now.below) cursor.old) result cursor.new }
    {
        if cursor.sees_name() {
            Ok(PrimTree::Named(name(self.alloc, cursor)?))
        } else if cursor.sees_number() {
            self.number(cursor)
        } else {
            self.sign_prim(cursor)
        }
    }

    /// `[ADD, ADD, ..]`
    #[tactic(auto, unfolding(opl_grammar::specs::Rules::subscripts))]
    pub fn subscripts(&self, cursor: &mut Cursor<'_>) -> Result<SubscriptsTree, SyntaxFault>
        requires { B.is_ready self.now.below }
        ensures { Reads (rules.subscripts (B.rules self.now.below) cursor.old) result cursor.new }
    {
        let at = cursor.place();
        cursor.expect_sign(Sign::OpenBracket)?;
        let parts = self.below.adds(cursor, at)?;
        let ((first, rest), ()) = keep(parts, cursor.expect_sign(Sign::CloseBracket))?;
        Ok(SubscriptsTree { at, first, rest })
    }

    /// `.NAME`
    #[tactic(auto, unfolding(opl_grammar::specs::Rules::field_suffix))]
    fn field_suffix(&self, cursor: &mut Cursor<'_>) -> Result<SuffixTree, SyntaxFault>
        requires { B.is_ready self.now.below }
        ensures { Reads (rules.field_suffix (B.rules self.now.below) cursor.old) result cursor.new }
    {
        let at = cursor.place();
        cursor.expect_sign(Sign::Dot)?;
        Ok(SuffixTree::Field(at, field_name(self.alloc, cursor)?))
    }

    /// Subscripts or a field.
    #[tactic(auto, unfolding(opl_grammar::specs::Rules::suffix))]
    fn suffix(&self, cursor: &mut Cursor<'_>) -> Result<SuffixTree, SyntaxFault>
        requires { B.is_ready self.now.below }
        ensures { Reads (rules.suffix (B.rules self.now.below) cursor.old) result cursor.new }
    {
        if cursor.sees_sign(Sign::OpenBracket) {
            Ok(SuffixTree::Subscripts(self.subscripts(cursor)?))
        } else {
            self.field_suffix(cursor)
        }
    }

    /// `PRIM SUFFIX SUFFIX ..`
    #[tactic(auto, unfolding(opl_grammar::specs::Rules::post))]
    pub fn post(&self, cursor: &mut Cursor<'_>) -> Result<PostTree, SyntaxFault>
        requires { B.is_ready self.now.below }
        ensures { Reads (rules.post (B.rules self.now.below) cursor.old) result cursor.new }
    {
        let at = cursor.place();
        let prim = self.prim(cursor)?;
        let (prim, suffixes) = keep(prim, many(self.alloc, cursor, self))?;
        Ok(PostTree { at, prim, suffixes })
    }
}

impl<B: Below> Part<SuffixTree> for Level<B> {
    ghost begins = { λ _. tables.starts_suffix };

    ghost part = { λ l. rules.suffix (B.rules l.below) };

    ghost is_ready = { λ l. B.is_ready l.below };

    fn starts(&self, cursor: &Cursor<'_>) -> bool {
        cursor.sees_sign(Sign::OpenBracket) || cursor.sees_sign(Sign::Dot)
    }

    fn read(&self, cursor: &mut Cursor<'_>) -> Result<SuffixTree, SyntaxFault> {
        self.suffix(cursor)
    }
}
