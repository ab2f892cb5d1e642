//! The walk over the search section.
ghost use Rattle.std.specs.Prelude.{◌≡◌, ◌∷◌, map, OnOk};
ghost use Rattle.std.specs.Option.{option_map};
ghost use Rattle.opl_fields.specs.Trees as spec;
ghost use Rattle.opl_fields.specs.Walk as walk;

use crate::walk::Walk;
use opl_tree::{
    DeclTree, OrderTree, OrderedParamsTree, SearchBlockTree, SearchTree, StatementTree,
    StatementsTree,
};
use std::alloc::{AllocError, Global};

impl<'a> Walk<'a> {
    /// Goes through the key of an order, where there is one.
    fn order(
        &mut self,
        alloc: Global,
        decls: &[DeclTree],
        t: &Option<OrderTree>,
    ) -> Result<(), AllocError>
        ensures { OnOk result (self.new ≡ spec.walk_order decls.now t.now self.old) }
    {
        match t {
            Some(t) => self.add(alloc, decls, &t.key),
            None => Ok(()),
        }
    }

    /// Goes through parameters and the key of their order.
    fn ordered_params(
        &mut self,
        alloc: Global,
        decls: &[DeclTree],
        t: &OrderedParamsTree,
    ) -> Result<(), AllocError>
        ensures { OnOk result (self.new ≡ spec.walk_order decls.now t.now.order (spec.walk_params decls.now t.now.params self.old)) }
    {
        self.params_tree(alloc, decls, &t.params)?;
        self.order(alloc, decls, &t.order)
    }

    /// Goes through a statement.
    #[cycle(statements)]
    #[tactic(auto, using(crate::proofs::Statements::statement_walks))]
    fn statement(
        &mut self,
        alloc: Global,
        decls: &[DeclTree],
        t: &StatementTree,
    ) -> Result<(), AllocError>
        ensures { OnOk result (self.new ≡ spec.walk_statement decls.now t.now self.old) }
    {
        match t {
            StatementTree::Block(t) => self.search_block(alloc, decls, t),
            StatementTree::Try(_, first, second, others) => {
                self.statements(alloc, decls, first)?;
                self.statements(alloc, decls, second)?;
                self.branches(alloc, decls, others.as_slice())
            }
            StatementTree::Branch(_, _, params, body) => {
                self.ordered_params(alloc, decls, params)?;
                self.statement(alloc, decls, body.get())
            }
            StatementTree::Once(_, body) => self.statement(alloc, decls, body.get()),
            StatementTree::While(_, test, body) => {
                self.expr(alloc, decls, test)?;
                self.statement(alloc, decls, body.get())
            }
            StatementTree::If(_, test, holds, fails) => {
                self.expr(alloc, decls, test)?;
                self.statements(alloc, decls, holds)?;
                self.statements_if_written(alloc, decls, fails)
            }
            StatementTree::Label(_, _, t) => self.post(alloc, decls, t),
            StatementTree::Precedes(_, first, second) => self.precedes(alloc, decls, first, second),
            StatementTree::Constraint(t) => self.expr(alloc, decls, t),
        }
    }

    /// Goes through the branches of a `try` in their order.
    #[cycle(statements)]
    #[tactic(auto, using(crate::proofs::Lists::lists))]
    fn branches(
        &mut self,
        alloc: Global,
        decls: &[DeclTree],
        parts: &[StatementsTree],
    ) -> Result<(), AllocError>
        ensures { OnOk result (self.new ≡ walk.each (map (spec.walk_statements decls.now) parts.now) self.old) }
    {
        for t in parts {
            self.statements(alloc, decls, t)?;
        }
        Ok(())
    }

    /// Goes through the statements of a part that may be left out.
    #[cycle(statements)]
    fn statements_if_written(
        &mut self,
        alloc: Global,
        decls: &[DeclTree],
        t: &Option<StatementsTree>,
    ) -> Result<(), AllocError>
        ensures { OnOk result (self.new ≡ walk.if_written (option_map (spec.walk_statements decls.now) t.now) self.old) }
    {
        match t {
            Some(t) => self.statements(alloc, decls, t),
            None => Ok(()),
        }
    }

    /// Goes through statements in their order.
    #[cycle(statements)]
    #[tactic(auto, using(crate::proofs::Lists::lists))]
    fn statement_list(
        &mut self,
        alloc: Global,
        decls: &[DeclTree],
        parts: &[StatementTree],
    ) -> Result<(), AllocError>
        ensures { OnOk result (self.new ≡ walk.each (map (spec.walk_statement decls.now) parts.now) self.old) }
    {
        for t in parts {
            self.statement(alloc, decls, t)?;
        }
        Ok(())
    }

    /// Goes through statements with `;` between them.
    #[cycle(statements)]
    #[tactic(auto, using(crate::proofs::Statements::statements_walks))]
    fn statements(
        &mut self,
        alloc: Global,
        decls: &[DeclTree],
        t: &StatementsTree,
    ) -> Result<(), AllocError>
        ensures { OnOk result (self.new ≡ spec.walk_statements decls.now t.now self.old) }
    {
        match t {
            StatementsTree::Empty(_) => Ok(()),
            StatementsTree::Several(_, first, rest, _) => {
                self.statement(alloc, decls, first.get())?;
                self.statement_list(alloc, decls, rest.as_slice())
            }
        }
    }

    /// Goes through a block of statements.
    #[cycle(statements)]
    #[tactic(auto, using(crate::proofs::Statements::search_block_walks))]
    fn search_block(
        &mut self,
        alloc: Global,
        decls: &[DeclTree],
        t: &SearchBlockTree,
    ) -> Result<(), AllocError>
        ensures { OnOk result (self.new ≡ spec.walk_search_block decls.now t.now self.old) }
    {
        self.statements(alloc, decls, &t.statements)
    }

    /// Goes through the search section, where there is one.
    pub(crate) fn search(
        &mut self,
        alloc: Global,
        decls: &[DeclTree],
        t: &Option<SearchTree>,
    ) -> Result<(), AllocError>
        ensures { OnOk result (self.new ≡ spec.walk_search decls.now t.now self.old) }
    {
        match t {
            Some(t) => self.search_block(alloc, decls, &t.block),
            None => Ok(()),
        }
    }
}
