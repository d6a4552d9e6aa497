ghost use Rattle.std.specs.Prelude.{◌≡◌, OnOk, OnErr};
ghost use Rattle.rvd_fact.specs.Program.{applied_all, reverted_all};
ghost use Rattle.rvd_undo.specs.Records.{Lead};

use rvd_fact::Change;
use rvd_program::Program;
use std::alloc::AllocError;
use std::marker::Model;

/// The changes of one transaction, in order.
#[derive(Drop)]
pub struct Changes {
    list: Vec<Change>,
}

impl Model for Changes {
    ghost use Rattle.std.specs.Prelude.{List};
    ghost use Rattle.rvd_fact.specs.declared.cells.Change.{Change};

    ghost Value = { List Change };

    ghost view = { λ c. c.list.items };
}

impl Changes {
    /// The changes of a list.
    pub fn of(list: Vec<Change>) -> Changes
        ensures { result ≡ list.items }
    {
        Changes { list }
    }

    /// Takes the changes back that led to a program. Only want of memory refuses it, and then the program is as before.
    #[tactic(auto, using(crate::proofs::Histories::can_undo))]
    pub fn undo_on(&self, program: &mut Program) -> Result<(), AllocError>
        requires { Lead (reverted_all program.old self.now) self.now program.old }
        ensures ok { OnOk result (Lead program.new self.now program.old) }
        ensures err { OnErr result (program.new ≡ program.old) }
    {
        program.revert(&self.list)
    }

    /// Applies the changes to a program that they lead on from. Only want of memory refuses it, and then the program is
    /// as before.
    pub fn redo_on(&self, program: &mut Program) -> Result<(), AllocError>
        requires { Lead program.old self.now (applied_all program.old self.now) }
        ensures ok { OnOk result (Lead program.old self.now program.new) }
        ensures err { OnErr result (program.new ≡ program.old) }
    {
        program.apply(&self.list)
    }
}
