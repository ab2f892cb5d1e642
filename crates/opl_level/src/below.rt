//! What is read one level deeper, and the level above it.
ghost use Rattle.opl_grammar.specs.Input.{Reads};
ghost use Rattle.opl_grammar.specs.Rules.{Rules};

use opl_grammar::{Braced, Cursor, Operand};
use opl_list::{Boxed, Seq};
use opl_tree::{
    AddTree, DimTree, ExprTree, FieldTree, ImpTree, KeyedTree, MulTree, NameTree, NegTree,
    OrderedParamsTree, ParamsTree, PostTree, SyntaxFault, TypeTree,
};
use std::alloc::Global;

/// The phrases that stand behind a token that opens a level. Each is given the place of that token.
pub trait Below {
    ghost rules: { Self → Rules };

    ghost is_ready: { Self → Type 0 };

    /// Behind `(`.
    fn expr(&self, cursor: &mut Cursor<'_>, at: u32) -> Result<Boxed<ExprTree>, SyntaxFault>
        requires { is_ready self.now }
        ensures { Reads ((rules self.now).expr at cursor.old) result cursor.new };

    /// Behind `(`.
    fn add(&self, cursor: &mut Cursor<'_>, at: u32) -> Result<Boxed<AddTree>, SyntaxFault>
        requires { is_ready self.now }
        ensures { Reads ((rules self.now).add at cursor.old) result cursor.new };

    /// Behind `(`.
    fn post(&self, cursor: &mut Cursor<'_>, at: u32) -> Result<Boxed<PostTree>, SyntaxFault>
        requires { is_ready self.now }
        ensures { Reads ((rules self.now).post at cursor.old) result cursor.new };

    /// Behind `(`.
    fn params(&self, cursor: &mut Cursor<'_>, at: u32) -> Result<Boxed<ParamsTree>, SyntaxFault>
        requires { is_ready self.now }
        ensures { Reads ((rules self.now).params at cursor.old) result cursor.new };

    /// Behind `(`.
    fn ordered(
        &self,
        cursor: &mut Cursor<'_>,
        at: u32,
    ) -> Result<Boxed<OrderedParamsTree>, SyntaxFault>
        requires { is_ready self.now }
        ensures { Reads ((rules self.now).ordered at cursor.old) result cursor.new };

    /// Behind `(`.
    fn ends(
        &self,
        cursor: &mut Cursor<'_>,
        at: u32,
    ) -> Result<(Boxed<AddTree>, Option<Boxed<AddTree>>), SyntaxFault>
        requires { is_ready self.now }
        ensures { Reads ((rules self.now).ends at cursor.old) result cursor.new };

    /// Behind `=>`.
    fn imp(&self, cursor: &mut Cursor<'_>, at: u32) -> Result<Boxed<ImpTree>, SyntaxFault>
        requires { is_ready self.now }
        ensures { Reads ((rules self.now).imp at cursor.old) result cursor.new };

    /// Behind `not`.
    fn neg(&self, cursor: &mut Cursor<'_>, at: u32) -> Result<NegTree, SyntaxFault>
        requires { is_ready self.now }
        ensures { Reads ((rules self.now).neg at cursor.old) result cursor.new };

    /// Behind a sign.
    fn operand(&self, cursor: &mut Cursor<'_>, at: u32) -> Result<Operand, SyntaxFault>
        requires { is_ready self.now }
        ensures { Reads ((rules self.now).operand at cursor.old) result cursor.new };

    /// Behind the word of an aggregate.
    fn aggregate(
        &self,
        cursor: &mut Cursor<'_>,
        at: u32,
    ) -> Result<(Boxed<ParamsTree>, Boxed<MulTree>), SyntaxFault>
        requires { is_ready self.now }
        ensures { Reads ((rules self.now).aggregate at cursor.old) result cursor.new };

    /// Behind the `[` of subscripts and the `<` of a record.
    fn adds(
        &self,
        cursor: &mut Cursor<'_>,
        at: u32,
    ) -> Result<(Boxed<AddTree>, Seq<AddTree>), SyntaxFault>
        requires { is_ready self.now }
        ensures { Reads ((rules self.now).adds at cursor.old) result cursor.new };

    /// Behind the `[` of an array.
    fn listed(&self, cursor: &mut Cursor<'_>, at: u32) -> Result<Seq<AddTree>, SyntaxFault>
        requires { is_ready self.now }
        ensures { Reads ((rules self.now).listed at cursor.old) result cursor.new };

    /// Behind `#[`.
    fn keyed(&self, cursor: &mut Cursor<'_>, at: u32) -> Result<Seq<KeyedTree>, SyntaxFault>
        requires { is_ready self.now }
        ensures { Reads ((rules self.now).keyed at cursor.old) result cursor.new };

    /// Behind the `{` of a set.
    fn braced(&self, cursor: &mut Cursor<'_>, at: u32) -> Result<Braced, SyntaxFault>
        requires { is_ready self.now }
        ensures { Reads ((rules self.now).braced at cursor.old) result cursor.new };

    /// Behind the `<` of a pattern and the `{` of an enumeration.
    fn names(
        &self,
        cursor: &mut Cursor<'_>,
        at: u32,
    ) -> Result<(NameTree, Seq<NameTree>), SyntaxFault>
        requires { is_ready self.now }
        ensures { Reads ((rules self.now).names at cursor.old) result cursor.new };

    /// Behind the `{` of a type.
    fn type_tree(&self, cursor: &mut Cursor<'_>, at: u32) -> Result<TypeTree, SyntaxFault>
        requires { is_ready self.now }
        ensures { Reads ((rules self.now).type_tree at cursor.old) result cursor.new };

    /// Behind the `{` of a structure.
    fn fields(
        &self,
        cursor: &mut Cursor<'_>,
        at: u32,
    ) -> Result<(FieldTree, Seq<FieldTree>), SyntaxFault>
        requires { is_ready self.now }
        ensures { Reads ((rules self.now).fields at cursor.old) result cursor.new };

    /// Behind the `[` of dimensions.
    fn dims(&self, cursor: &mut Cursor<'_>, at: u32) -> Result<(DimTree, Seq<DimTree>), SyntaxFault>
        requires { is_ready self.now }
        ensures { Reads ((rules self.now).dims at cursor.old) result cursor.new };
}

/// The rules of one level.
#[derive(Drop)]
pub struct Level<B> {
    pub alloc: Global,
    /// The rules of the next deeper level.
    pub below: B,
}
