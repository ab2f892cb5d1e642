//! The walk over the trees of expressions.
ghost use Rattle.std.specs.Prelude.{◌≡◌, OnOk};
ghost use Rattle.opl_fields.specs.Trees as spec;
ghost use Rattle.opl_fields.specs.Walk as walk;
ghost use Rattle.opl_term.specs.Terms as terms;

use crate::walk::Walk;
use opl_term::{
    ParamsTerm, add_term, expr_term, params_term, post_term, set_term, subscripts_terms,
};
use opl_tree::{AddTree, DeclTree, ExprTree, ParamsTree, PostTree, SetTree, SubscriptsTree};
use std::alloc::{AllocError, Global};

impl<'a> Walk<'a> {
    /// Goes through an expression.
    pub(crate) fn expr(
        &mut self,
        alloc: Global,
        decls: &[DeclTree],
        t: &ExprTree,
    ) -> Result<(), AllocError>
        ensures { OnOk result (self.new ≡ spec.walk_expr decls.now t.now self.old) }
    {
        self.term(decls, expr_term(alloc, t)?.get())
    }

    /// Goes through a sum.
    pub(crate) fn add(
        &mut self,
        alloc: Global,
        decls: &[DeclTree],
        t: &AddTree,
    ) -> Result<(), AllocError>
        ensures { OnOk result (self.new ≡ spec.walk_add decls.now t.now self.old) }
    {
        self.term(decls, add_term(alloc, t)?.get())
    }

    /// Goes through a sum, where there is one.
    pub(crate) fn add_if_written(
        &mut self,
        alloc: Global,
        decls: &[DeclTree],
        t: &Option<AddTree>,
    ) -> Result<(), AllocError>
        ensures { OnOk result (self.new ≡ spec.walk_if_written decls.now t.now self.old) }
    {
        match t {
            Some(t) => self.add(alloc, decls, t),
            None => Ok(()),
        }
    }

    /// Goes through a primary with what stands behind it.
    pub(crate) fn post(
        &mut self,
        alloc: Global,
        decls: &[DeclTree],
        t: &PostTree,
    ) -> Result<(), AllocError>
        ensures { OnOk result (self.new ≡ spec.walk_post decls.now t.now self.old) }
    {
        self.term(decls, post_term(alloc, t)?.get())
    }

    /// Goes through a set.
    pub(crate) fn set_tree(
        &mut self,
        alloc: Global,
        decls: &[DeclTree],
        t: &SetTree,
    ) -> Result<(), AllocError>
        ensures { OnOk result (self.new ≡ walk.walk_set decls.now (terms.set_term t.now) self.old) }
    {
        self.set(decls, &set_term(alloc, t)?)
    }

    /// Goes through the subscripts of a resource, where there are some.
    pub(crate) fn subscripts(
        &mut self,
        alloc: Global,
        decls: &[DeclTree],
        t: &Option<SubscriptsTree>,
    ) -> Result<(), AllocError>
        ensures { OnOk result (self.new ≡ spec.walk_subscripts decls.now t.now self.old) }
    {
        match t {
            Some(t) => {
                let ts = subscripts_terms(alloc, t)?;
                self.terms(decls, ts.as_slice())
            }
            None => Ok(()),
        }
    }

    /// Goes through the sets of parameters and their condition.
    fn params_term(&mut self, decls: &[DeclTree], t: &ParamsTerm) -> Result<(), AllocError>
        ensures { OnOk result (self.new ≡ spec.walk_params_term decls.now t.now self.old) }
    {
        self.groups(decls, t.groups.as_slice())?;
        self.condition(decls, &t.condition)
    }

    /// Goes through parameters.
    pub(crate) fn params_tree(
        &mut self,
        alloc: Global,
        decls: &[DeclTree],
        t: &ParamsTree,
    ) -> Result<(), AllocError>
        ensures { OnOk result (self.new ≡ spec.walk_params decls.now t.now self.old) }
    {
        let params = params_term(alloc, t)?;
        self.params_term(decls, &params)
    }
}
