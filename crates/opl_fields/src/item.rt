//! The walk over the instruction and its items.
ghost use Rattle.std.specs.Prelude.{◌≡◌, ◌∷◌, map, OnOk};
ghost use Rattle.std.specs.Option.{option_map};
ghost use Rattle.opl_fields.specs.Trees as spec;
ghost use Rattle.opl_fields.specs.Walk as walk;

use crate::walk::Walk;
use opl_tree::{BlockTree, DeclTree, InstrTree, ItemTree, ItemsTree, PostTree, RequiresTree};
use std::alloc::{AllocError, Global};

impl<'a> Walk<'a> {
    /// Goes through two activities.
    pub(crate) fn precedes(
        &mut self,
        alloc: Global,
        decls: &[DeclTree],
        first: &PostTree,
        second: &PostTree,
    ) -> Result<(), AllocError>
        ensures { OnOk result (self.new ≡ spec.walk_post decls.now second.now (spec.walk_post decls.now first.now self.old)) }
    {
        self.post(alloc, decls, first)?;
        self.post(alloc, decls, second)
    }

    /// Goes through the use of a resource.
    fn requirement(
        &mut self,
        alloc: Global,
        decls: &[DeclTree],
        t: &RequiresTree,
    ) -> Result<(), AllocError>
        ensures { OnOk result (self.new ≡ spec.walk_requires decls.now t.now self.old) }
    {
        self.post(alloc, decls, &t.activity)?;
        self.add_if_written(alloc, decls, &t.demand)?;
        self.subscripts(alloc, decls, &t.subscripts)
    }

    /// Goes through an item.
    #[cycle(items)]
    #[tactic(auto, using(crate::proofs::Items::item_walks))]
    fn item(&mut self, alloc: Global, decls: &[DeclTree], t: &ItemTree) -> Result<(), AllocError>
        ensures { OnOk result (self.new ≡ spec.walk_item decls.now t.now self.old) }
    {
        match t {
            ItemTree::Block(t) => self.block(alloc, decls, t),
            ItemTree::ForAll(_, params, body) => {
                self.params_tree(alloc, decls, params)?;
                self.item(alloc, decls, body.get())
            }
            ItemTree::If(_, test, holds, fails) => {
                self.expr(alloc, decls, test)?;
                self.items(alloc, decls, holds)?;
                self.items_if_written(alloc, decls, fails)
            }
            ItemTree::Precedes(_, first, second) => self.precedes(alloc, decls, first, second),
            ItemTree::Requires(t) => self.requirement(alloc, decls, t),
            ItemTree::Constraint(t) => self.expr(alloc, decls, t),
        }
    }

    /// Goes through the items of a part that may be left out.
    #[cycle(items)]
    fn items_if_written(
        &mut self,
        alloc: Global,
        decls: &[DeclTree],
        t: &Option<ItemsTree>,
    ) -> Result<(), AllocError>
        ensures { OnOk result (self.new ≡ walk.if_written (option_map (spec.walk_items decls.now) t.now) self.old) }
    {
        match t {
            Some(t) => self.items(alloc, decls, t),
            None => Ok(()),
        }
    }

    /// Goes through items in their order.
    #[cycle(items)]
    #[tactic(auto, using(crate::proofs::Lists::lists))]
    fn item_list(
        &mut self,
        alloc: Global,
        decls: &[DeclTree],
        items: &[ItemTree],
    ) -> Result<(), AllocError>
        ensures { OnOk result (self.new ≡ walk.each (map (spec.walk_item decls.now) items.now) self.old) }
    {
        for t in items {
            self.item(alloc, decls, t)?;
        }
        Ok(())
    }

    /// Goes through items with `;` between them.
    #[cycle(items)]
    #[tactic(auto, using(crate::proofs::Items::items_walks))]
    fn items(&mut self, alloc: Global, decls: &[DeclTree], t: &ItemsTree) -> Result<(), AllocError>
        ensures { OnOk result (self.new ≡ spec.walk_items decls.now t.now self.old) }
    {
        match t {
            ItemsTree::Empty(_) => Ok(()),
            ItemsTree::Several(_, first, rest, _) => {
                self.item(alloc, decls, first.get())?;
                self.item_list(alloc, decls, rest.as_slice())
            }
        }
    }

    /// Goes through a block.
    #[cycle(items)]
    #[tactic(auto, using(crate::proofs::Items::block_walks))]
    fn block(&mut self, alloc: Global, decls: &[DeclTree], t: &BlockTree) -> Result<(), AllocError>
        ensures { OnOk result (self.new ≡ spec.walk_block decls.now t.now self.old) }
    {
        self.items(alloc, decls, &t.items)
    }

    /// Goes through the instruction.
    pub(crate) fn instr(
        &mut self,
        alloc: Global,
        decls: &[DeclTree],
        t: &InstrTree,
    ) -> Result<(), AllocError>
        ensures { OnOk result (self.new ≡ spec.walk_instr decls.now t.now self.old) }
    {
        match t {
            InstrTree::Solve(_, t) => self.block(alloc, decls, t),
            InstrTree::Optimize(_, _, objective, t) => {
                self.expr(alloc, decls, objective)?;
                self.block(alloc, decls, t)
            }
        }
    }
}
