// The statements of FORTRAN so far, and the labels that were made.
ghost use Rattle.std.specs.Prelude.{◌≡◌, [], Some, IfOk, OnOk};
ghost use Rattle.f66_tree.specs.Syntax.{unlabelled_line};
ghost use Rattle.f66_tree.specs.Views.{act_of, lines_of};
ghost use Rattle.routes.specs.Code.{here, jump};
ghost use Rattle.efl_emit.specs.Emitted.{Makes, Puts};
ghost use Rattle.efl_emit.specs.Names.{emission_of, made_of};

use crate::Naming;
use f66_tree::{Stmt, StmtKind};
use ground::{List, Place};
use std::alloc::{AllocError, Global};

/// The statements of FORTRAN so far, and how many labels were made: contracts see them by `emission_of`.
#[derive(Drop)]
pub struct Emitter {
    alloc: Global,
    code: List<Stmt>,
    made: u32,
}

impl Emitter {
    /// No statement, and no label.
    pub fn new(alloc: Global) -> Emitter
        ensures { emission_of result ≡ record { lines = []; made = 0 } }
    {
        Emitter {
            alloc,
            code: Vec::new(alloc),
            made: 0,
        }
    }

    pub fn alloc(&self) -> Global {
        self.alloc
    }

    /// The statements.
    pub fn into_code(self) -> List<Stmt>
        ensures { lines_of result.items ≡ (emission_of self).lines }
    {
        self.code
    }

    /// The next label that is made. More than a label may be are refused as want of memory.
    pub fn fresh_label(&mut self, naming: &Naming) -> Result<u32, AllocError>
        ensures { IfOk result (λ label. Makes (made_of naming.now) label (emission_of self.old) (emission_of self.new)) }
    {
        let Some(made) = self.made.checked_add(1) else {
            return Err(AllocError);
        };
        let Some(label) = naming.first.checked_add(self.made) else {
            return Err(AllocError);
        };
        self.made = made;
        Ok(label)
    }

    /// A statement without a label.
    pub fn put(&mut self, place: Place, kind: StmtKind) -> Result<(), AllocError>
        ensures { OnOk result (Puts (unlabelled_line place (act_of kind)) (emission_of self.old) (emission_of self.new)) }
    {
        self.put_line(None, place, kind)
    }

    /// A statement with this label.
    pub fn put_labelled(
        &mut self,
        label: u32,
        place: Place,
        kind: StmtKind,
    ) -> Result<(), AllocError>
        ensures { OnOk result (Puts (record { label = Some label; place = place; act = act_of kind }) (emission_of self.old) (emission_of self.new)) }
    {
        self.put_line(Some(label), place, kind)
    }

    /// GO TO label.
    pub fn put_jump(&mut self, place: Place, label: u32) -> Result<(), AllocError>
        ensures { OnOk result (Puts (jump place label) (emission_of self.old) (emission_of self.new)) }
    {
        self.put_line(None, place, StmtKind::Goto(label))
    }

    /// A CONTINUE with this label.
    pub fn put_here(&mut self, place: Place, label: u32) -> Result<(), AllocError>
        ensures { OnOk result (Puts (here label place) (emission_of self.old) (emission_of self.new)) }
    {
        self.put_line(Some(label), place, StmtKind::Continue)
    }

    fn put_line(
        &mut self,
        label: Option<u32>,
        place: Place,
        kind: StmtKind,
    ) -> Result<(), AllocError>
        ensures { OnOk result (Puts (record { label = label; place = place; act = act_of kind }) (emission_of self.old) (emission_of self.new)) }
    {
        self.code.push(Stmt { label, place, kind })?;
        Ok(())
    }
}
