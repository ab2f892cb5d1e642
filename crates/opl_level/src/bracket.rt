//! What stands in brackets.
ghost use Rattle.std.specs.Prelude.{◌≡◌};
ghost use Rattle.opl_grammar.specs.Input.{Reads};
ghost use Rattle.opl_grammar.specs.Rules as rules;
ghost use Rattle.opl_grammar.specs.Tables as tables;

use crate::below::{Below, Level};
use crate::just::into_name;
use crate::word::name;
use opl_grammar::keeping::{boxed, keep, with_first};
use opl_grammar::list::{Part, Phrase, after_each, many};
use opl_grammar::tables::{starts_add, starts_type};
use opl_grammar::{Braced, Cursor};
use opl_list::{Boxed, Seq};
use opl_token::Sign;
use opl_tree::{
    AddTree, DimTree, FieldTree, KeyedTree, Keyword, MulTree, ParamsTree, SetTree, SyntaxFault,
    TypeTree,
};

impl<B: Below> Level<B> {
    /// `(PARAMS) MUL`
    #[tactic(auto, unfolding(opl_grammar::specs::Rules::aggregated))]
    pub fn aggregated(
        &self,
        cursor: &mut Cursor<'_>,
    ) -> Result<(Boxed<ParamsTree>, Boxed<MulTree>), SyntaxFault>
        requires { B.is_ready self.now.below }
        ensures { Reads (rules.aggregated (B.rules self.now.below) cursor.old) result cursor.new }
    {
        let params = self.chosen(cursor)?;
        keep(params, self.mul(cursor))
    }

    /// `ADD, ADD, ..` or nothing
    #[tactic(auto, unfolding(opl_grammar::specs::Rules::listed))]
    pub fn listed(&self, cursor: &mut Cursor<'_>) -> Result<Seq<AddTree>, SyntaxFault>
        requires { B.is_ready self.now.below }
        ensures { Reads (rules.listed (B.rules self.now.below) cursor.old) result cursor.new }
    {
        if !starts_add(cursor.look()) {
            return Ok(Seq::new(self.alloc));
        }
        let (first, rest) = self.adds(cursor)?;
        Ok(with_first(first.into_inner(), rest)?)
    }

    /// `| PARAMS`
    #[tactic(auto, unfolding(opl_grammar::specs::Rules::described))]
    fn described(
        &self,
        cursor: &mut Cursor<'_>,
        first: Boxed<AddTree>,
    ) -> Result<Braced, SyntaxFault>
        requires { B.is_ready self.now.below }
        ensures { Reads (rules.described (B.rules self.now.below) first cursor.old) result cursor.new }
    {
        let (first, ()) = keep(first, cursor.expect_sign(Sign::Bar))?;
        let (first, params) = keep(first, self.params(cursor))?;
        Ok(Braced::Described(first, params))
    }

    /// `, ADD, ..`
    #[tactic(auto, unfolding(opl_grammar::specs::Rules::listed_behind))]
    fn listed_behind(
        &self,
        cursor: &mut Cursor<'_>,
        first: Boxed<AddTree>,
    ) -> Result<Braced, SyntaxFault>
        requires { B.is_ready self.now.below }
        ensures { Reads (rules.listed_behind (B.rules self.now.below) first cursor.old) result cursor.new }
    {
        let (first, rest) = keep(first, after_each(self.alloc, cursor, Sign::Comma, self))?;
        Ok(Braced::Listed(with_first(first.into_inner(), rest)?))
    }

    /// `ADD, ADD, ..` or `ADD | PARAMS`
    #[tactic(auto, unfolding(opl_grammar::specs::Rules::braced_parts))]
    fn braced_parts(&self, cursor: &mut Cursor<'_>) -> Result<Braced, SyntaxFault>
        requires { B.is_ready self.now.below }
        ensures { Reads (rules.braced_parts (B.rules self.now.below) cursor.old) result cursor.new }
    {
        let first = self.add(cursor)?;
        if cursor.sees_sign(Sign::Bar) {
            self.described(cursor, first)
        } else {
            self.listed_behind(cursor, first)
        }
    }

    /// What stands in the braces of a set.
    #[tactic(auto, unfolding(opl_grammar::specs::Rules::braced))]
    pub fn braced(&self, cursor: &mut Cursor<'_>) -> Result<Braced, SyntaxFault>
        requires { B.is_ready self.now.below }
        ensures { Reads (rules.braced (B.rules self.now.below) cursor.old) result cursor.new }
    {
        if starts_add(cursor.look()) {
            self.braced_parts(cursor)
        } else {
            Ok(Braced::Listed(Seq::new(self.alloc)))
        }
    }

    /// `ADD:ADD`
    #[tactic(auto, unfolding(opl_grammar::specs::Rules::keyed_part))]
    fn keyed_part(&self, cursor: &mut Cursor<'_>) -> Result<Boxed<KeyedTree>, SyntaxFault>
        requires { B.is_ready self.now.below }
        ensures { Reads (rules.keyed_part (B.rules self.now.below) cursor.old) result cursor.new }
    {
        let key = self.add(cursor)?;
        let (key, ()) = keep(key, cursor.expect_sign(Sign::Colon))?;
        let (key, value) = keep(key, self.add(cursor))?;
        let part = KeyedTree {
            key: key.into_inner(),
            value: value.into_inner(),
        };
        Ok(boxed(self.alloc, part)?)
    }

    /// `ADD:ADD, ADD:ADD, ..`
    #[tactic(auto, unfolding(opl_grammar::specs::Rules::keyed_parts))]
    fn keyed_parts(&self, cursor: &mut Cursor<'_>) -> Result<Seq<KeyedTree>, SyntaxFault>
        requires { B.is_ready self.now.below }
        ensures { Reads (rules.keyed_parts (B.rules self.now.below) cursor.old) result cursor.new }
    {
        let first = self.keyed_part(cursor)?;
        let (first, rest) = keep(first, after_each(self.alloc, cursor, Sign::Comma, self))?;
        Ok(with_first(first.into_inner(), rest)?)
    }

    /// `ADD:ADD, ADD:ADD, ..` or nothing
    #[tactic(auto, unfolding(opl_grammar::specs::Rules::keyed))]
    pub fn keyed(&self, cursor: &mut Cursor<'_>) -> Result<Seq<KeyedTree>, SyntaxFault>
        requires { B.is_ready self.now.below }
        ensures { Reads (rules.keyed (B.rules self.now.below) cursor.old) result cursor.new }
    {
        if starts_add(cursor.look()) {
            self.keyed_parts(cursor)
        } else {
            Ok(Seq::new(self.alloc))
        }
    }

    /// `ADD` or `ADD..ADD`, as two ends
    #[tactic(auto, unfolding(opl_grammar::specs::Rules::ends))]
    pub fn ends(
        &self,
        cursor: &mut Cursor<'_>,
    ) -> Result<(Boxed<AddTree>, Option<Boxed<AddTree>>), SyntaxFault>
        requires { B.is_ready self.now.below }
        ensures { Reads (rules.ends (B.rules self.now.below) cursor.old) result cursor.new }
    {
        let low = self.add(cursor)?;
        keep(low, self.optional_upper(cursor))
    }

    /// `int`
    #[tactic(auto, unfolding(opl_grammar::specs::Rules::int_type))]
    fn int_type(&self, cursor: &mut Cursor<'_>) -> Result<TypeTree, SyntaxFault>
        requires { B.is_ready self.now.below }
        ensures { Reads (rules.int_type (B.rules self.now.below) cursor.old) result cursor.new }
    {
        let at = cursor.place();
        cursor.expect_word(Keyword::Int)?;
        Ok(TypeTree::Int(at))
    }

    /// `{TYPE}`
    #[tactic(auto, unfolding(opl_grammar::specs::Rules::set_type))]
    fn set_type(&self, cursor: &mut Cursor<'_>) -> Result<TypeTree, SyntaxFault>
        requires { B.is_ready self.now.below }
        ensures { Reads (rules.set_type (B.rules self.now.below) cursor.old) result cursor.new }
    {
        let at = cursor.place();
        cursor.expect_sign(Sign::OpenBrace)?;
        let inner = self.below.type_tree(cursor, at)?;
        let (inner, ()) = keep(inner, cursor.expect_sign(Sign::CloseBrace))?;
        Ok(TypeTree::Set(at, boxed(self.alloc, inner)?))
    }

    /// `int`, `{TYPE}` or `NAME`
    #[tactic(auto, unfolding(opl_grammar::specs::Rules::type_tree))]
    pub fn type_tree(&self, cursor: &mut Cursor<'_>) -> Result<TypeTree, SyntaxFault>
        requires { B.is_ready self.now.below }
        ensures { Reads (rules.type_tree (B.rules self.now.below) cursor.old) result cursor.new }
    {
        if cursor.sees_word(Keyword::Int) {
            self.int_type(cursor)
        } else if cursor.sees_sign(Sign::OpenBrace) {
            self.set_type(cursor)
        } else {
            Ok(TypeTree::Named(name(self.alloc, cursor)?))
        }
    }

    /// `TYPE NAME;`
    #[tactic(auto, unfolding(opl_grammar::specs::Rules::field))]
    fn field(&self, cursor: &mut Cursor<'_>) -> Result<FieldTree, SyntaxFault>
        requires { B.is_ready self.now.below }
        ensures { Reads (rules.field (B.rules self.now.below) cursor.old) result cursor.new }
    {
        let at = cursor.place();
        let kind = self.type_tree(cursor)?;
        let named = keep(kind, name(self.alloc, cursor))?;
        let ((kind, name), ()) = keep(named, cursor.expect_sign(Sign::Semicolon))?;
        Ok(FieldTree { at, kind, name })
    }

    /// `FIELD FIELD ..`
    #[tactic(auto, unfolding(opl_grammar::specs::Rules::fields))]
    pub fn fields(
        &self,
        cursor: &mut Cursor<'_>,
    ) -> Result<(FieldTree, Seq<FieldTree>), SyntaxFault>
        requires { B.is_ready self.now.below }
        ensures { Reads (rules.fields (B.rules self.now.below) cursor.old) result cursor.new }
    {
        let first = self.field(cursor)?;
        keep(first, many(self.alloc, cursor, self))
    }

    /// What a dimension that begins with this set at this place is.
    #[tactic(auto, unfolding(opl_grammar::specs::Rules::dim_of))]
    fn dim_of(
        &self,
        cursor: &mut Cursor<'_>,
        at: u32,
        set: Boxed<SetTree>,
    ) -> Result<DimTree, SyntaxFault>
        requires { B.is_ready self.now.below }
        ensures { Reads (rules.dim_of (B.rules self.now.below) at set cursor.old) result cursor.new }
    {
        if !cursor.sees_word(Keyword::In) {
            return Ok(DimTree {
                at,
                name: None,
                set: set.into_inner(),
            });
        }
        let Some(name) = into_name(set.into_inner()) else {
            return Err(cursor.refuse());
        };
        let (name, ()) = keep(name, cursor.expect_word(Keyword::In))?;
        let (name, set) = keep(name, self.set(cursor))?;
        Ok(DimTree {
            at,
            name: Some(name),
            set: set.into_inner(),
        })
    }

    /// `SET` or `NAME in SET`
    #[tactic(auto, unfolding(opl_grammar::specs::Rules::dim))]
    fn dim(&self, cursor: &mut Cursor<'_>) -> Result<DimTree, SyntaxFault>
        requires { B.is_ready self.now.below }
        ensures { Reads (rules.dim (B.rules self.now.below) cursor.old) result cursor.new }
    {
        let at = cursor.place();
        let set = self.set(cursor)?;
        self.dim_of(cursor, at, set)
    }

    /// `DIM, DIM, ..`
    #[tactic(auto, unfolding(opl_grammar::specs::Rules::dims))]
    pub fn dims(&self, cursor: &mut Cursor<'_>) -> Result<(DimTree, Seq<DimTree>), SyntaxFault>
        requires { B.is_ready self.now.below }
        ensures { Reads (rules.dims (B.rules self.now.below) cursor.old) result cursor.new }
    {
        let first = self.dim(cursor)?;
        keep(first, after_each(self.alloc, cursor, Sign::Comma, self))
    }
}

impl<B: Below> Phrase<KeyedTree> for Level<B> {
    ghost phrase = { λ l. rules.keyed_part (B.rules l.below) };

    ghost is_ready = { λ l. B.is_ready l.below };

    fn phrase(&self, cursor: &mut Cursor<'_>) -> Result<KeyedTree, SyntaxFault> {
        Ok(self.keyed_part(cursor)?.into_inner())
    }
}

impl<B: Below> Phrase<DimTree> for Level<B> {
    ghost phrase = { λ l. rules.dim (B.rules l.below) };

    ghost is_ready = { λ l. B.is_ready l.below };

    fn phrase(&self, cursor: &mut Cursor<'_>) -> Result<DimTree, SyntaxFault> {
        self.dim(cursor)
    }
}

impl<B: Below> Part<FieldTree> for Level<B> {
    ghost begins = { λ _. tables.starts_type };

    ghost part = { λ l. rules.field (B.rules l.below) };

    ghost is_ready = { λ l. B.is_ready l.below };

    fn starts(&self, cursor: &Cursor<'_>) -> bool {
        starts_type(cursor.look())
    }

    fn read(&self, cursor: &mut Cursor<'_>) -> Result<FieldTree, SyntaxFault> {
        self.field(cursor)
    }
}
