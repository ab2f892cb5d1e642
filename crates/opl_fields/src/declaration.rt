//! The walk over declarations.
ghost use Rattle.std.specs.Prelude.{◌≡◌, ◌∷◌, map, OnOk};
ghost use Rattle.opl_fields.specs.Trees as spec;
ghost use Rattle.opl_fields.specs.Walk as walk;

use crate::walk::Walk;
use opl_tree::{
    ActivityTree, BoundsTree, DataDeclTree, DeclTree, DimTree, DimsTree, DiscreteTree, InitialTree,
    RangeTree, VariableTree,
};
use std::alloc::{AllocError, Global};

impl<'a> Walk<'a> {
    /// Goes through dimensions in their order.
    #[tactic(auto, using(crate::proofs::Lists::lists))]
    fn dim_list(
        &mut self,
        alloc: Global,
        decls: &[DeclTree],
        dims: &[DimTree],
    ) -> Result<(), AllocError>
        ensures { OnOk result (self.new ≡ walk.each (map (spec.walk_dim decls.now) dims.now) self.old) }
    {
        for t in dims {
            self.set_tree(alloc, decls, &t.set)?;
        }
        Ok(())
    }

    /// Goes through the dimensions of an item.
    fn dims(
        &mut self,
        alloc: Global,
        decls: &[DeclTree],
        t: &Option<DimsTree>,
    ) -> Result<(), AllocError>
        ensures { OnOk result (self.new ≡ spec.walk_dims decls.now t.now self.old) }
    {
        match t {
            Some(t) => {
                self.set_tree(alloc, decls, &t.first.set)?;
                self.dim_list(alloc, decls, t.rest.as_slice())
            }
            None => Ok(()),
        }
    }

    /// Goes through an initial value.
    fn initial(
        &mut self,
        alloc: Global,
        decls: &[DeclTree],
        t: &InitialTree,
    ) -> Result<(), AllocError>
        ensures { OnOk result (self.new ≡ spec.walk_initial decls.now t.now self.old) }
    {
        match t {
            InitialTree::External(_) => Ok(()),
            InitialTree::Written(t) => self.add(alloc, decls, t),
        }
    }

    /// Goes through the bounds of a variable.
    fn bounds(
        &mut self,
        alloc: Global,
        decls: &[DeclTree],
        t: &Option<BoundsTree>,
    ) -> Result<(), AllocError>
        ensures { OnOk result (self.new ≡ spec.walk_bounds decls.now t.now self.old) }
    {
        match t {
            Some(t) => {
                self.add(alloc, decls, &t.low)?;
                self.add(alloc, decls, &t.high)
            }
            None => Ok(()),
        }
    }

    /// Goes through an item of data.
    fn data(
        &mut self,
        alloc: Global,
        decls: &[DeclTree],
        t: &DataDeclTree,
    ) -> Result<(), AllocError>
        ensures { OnOk result (self.new ≡ spec.walk_initial decls.now t.now.initial (spec.walk_dims decls.now t.now.dims self.old)) }
    {
        self.dims(alloc, decls, &t.dims)?;
        self.initial(alloc, decls, &t.initial)
    }

    /// Goes through a range.
    fn range(&mut self, alloc: Global, decls: &[DeclTree], t: &RangeTree) -> Result<(), AllocError>
        ensures { OnOk result (self.new ≡ spec.walk_add decls.now t.now.high (spec.walk_add decls.now t.now.low self.old)) }
    {
        self.add(alloc, decls, &t.low)?;
        self.add(alloc, decls, &t.high)
    }

    /// Goes through a variable.
    fn variable(
        &mut self,
        alloc: Global,
        decls: &[DeclTree],
        t: &VariableTree,
    ) -> Result<(), AllocError>
        ensures { OnOk result (self.new ≡ spec.walk_bounds decls.now t.now.bounds (spec.walk_dims decls.now t.now.dims self.old)) }
    {
        self.dims(alloc, decls, &t.dims)?;
        self.bounds(alloc, decls, &t.bounds)
    }

    /// Goes through an activity.
    fn activity(
        &mut self,
        alloc: Global,
        decls: &[DeclTree],
        t: &ActivityTree,
    ) -> Result<(), AllocError>
        ensures { OnOk result (self.new ≡ spec.walk_if_written decls.now t.now.longest (spec.walk_add decls.now t.now.shortest (spec.walk_dims decls.now t.now.dims self.old))) }
    {
        self.dims(alloc, decls, &t.dims)?;
        self.add(alloc, decls, &t.shortest)?;
        self.add_if_written(alloc, decls, &t.longest)
    }

    /// Goes through a discrete resource.
    fn discrete(
        &mut self,
        alloc: Global,
        decls: &[DeclTree],
        t: &DiscreteTree,
    ) -> Result<(), AllocError>
        ensures { OnOk result (self.new ≡ spec.walk_add decls.now t.now.capacity (spec.walk_dims decls.now t.now.dims self.old)) }
    {
        self.dims(alloc, decls, &t.dims)?;
        self.add(alloc, decls, &t.capacity)
    }

    /// Goes through a declaration.
    fn decl(&mut self, alloc: Global, decls: &[DeclTree], t: &DeclTree) -> Result<(), AllocError>
        ensures { OnOk result (self.new ≡ spec.walk_decl decls.now t.now self.old) }
    {
        match t {
            DeclTree::Data(t) => self.data(alloc, decls, t),
            DeclTree::Range(t) => self.range(alloc, decls, t),
            DeclTree::Enumeration(_) | DeclTree::Structure(_) => Ok(()),
            DeclTree::Variable(t) => self.variable(alloc, decls, t),
            DeclTree::Activity(t) => self.activity(alloc, decls, t),
            DeclTree::Unary(t) => self.dims(alloc, decls, &t.dims),
            DeclTree::Discrete(t) => self.discrete(alloc, decls, t),
            DeclTree::Schedule(t) => self.add(alloc, decls, &t.value),
        }
    }

    /// Goes through declarations in their order.
    #[tactic(auto, using(crate::proofs::Lists::lists))]
    pub(crate) fn decls(
        &mut self,
        alloc: Global,
        decls: &[DeclTree],
        parts: &[DeclTree],
    ) -> Result<(), AllocError>
        ensures { OnOk result (self.new ≡ walk.each (map (spec.walk_decl decls.now) parts.now) self.old) }
    {
        for t in parts {
            self.decl(alloc, decls, t)?;
        }
        Ok(())
    }
}
