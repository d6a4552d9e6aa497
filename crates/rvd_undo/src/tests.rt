use crate::{OutOfMemory, Undos};
use rvd_fact::{Cell, Change, Key, Kind, Source, Text, Value};
use rvd_program::Program;
use std::alloc::Global;
use std::marker::Model;
use std::test::Fail;

const AT: Key = Key {
    at: 0x10054,
    kind: Kind::Comment,
    sub: 0,
};

// A program with its records.
#[derive(Drop)]
struct Edited {
    program: Program,
    undos: Undos,
}

impl Model for Edited {
    ghost use Rattle.rvd_undo.specs.Records.{Contents, Stands};

    ghost Value = { Contents };

    ghost view = { λ e. e.undos };

    ghost invariant = { λ e. Stands e.program e.undos.records };
}

impl Edited {
    // An empty program, with nothing to undo.
    fn start(alloc: Global) -> Result<Edited, OutOfMemory> {
        let program = Program::empty(alloc)?;
        let undos = Undos::new(alloc)?;
        let _ = program.entries();
        Ok(Edited { program, undos })
    }

    // Applies changes and adds their record. False where they don't fit, and then all is as before.
    fn commit(&mut self, changes: Vec<Change>) -> Result<bool, OutOfMemory> {
        if !self.program.fits(&changes)? {
            return Ok(false);
        }
        self.undos.reserve()?;
        self.program.apply(&changes)?;
        self.undos.push(changes)?;
        Ok(true)
    }

    fn undo(&mut self) -> Result<bool, OutOfMemory> {
        self.undos.undo(&mut self.program)
    }

    fn redo(&mut self) -> Result<bool, OutOfMemory> {
        self.undos.redo(&mut self.program)
    }

    // How many transactions can be undone and redone.
    fn counts(&self) -> (u32, u32) {
        (self.undos.depth(), self.undos.height())
    }

    // What stands at AT.
    fn seen(&self) -> &'static str {
        match self.program.cell(AT) {
            None => "nothing",
            Some(cell) => match cell.value {
                Value::Gone => "gone",
                Value::Comment(_) => "a comment",
                _ => "else",
            },
        }
    }
}

// A comment of the imported file.
fn comment(alloc: Global) -> Result<Cell, OutOfMemory> {
    let text = Text::of(alloc, vec![in alloc; b'x']?)?;
    Ok(Cell {
        value: Value::Comment(text),
        source: Source::Imported,
    })
}

fn deleted() -> Cell {
    Cell {
        value: Value::Gone,
        source: Source::UserDefined,
    }
}

// The one change of the cell at AT.
fn change(
    alloc: Global,
    before: Option<Cell>,
    after: Option<Cell>,
) -> Result<Vec<Change>, OutOfMemory> {
    let change = Change {
        key: AT,
        before,
        after,
    };
    let mut list = Vec::with_capacity(alloc, 1)?;
    list.push(change)?;
    Ok(list)
}

fn crosses_threads<T: Send + Sync>() {}

#[test]
fn records_may_cross_threads() {
    crosses_threads::<Undos>();
}

#[test]
fn the_last_fifty_transactions_can_be_undone(rt: HostRuntime) -> Result<(), Fail> {
    let alloc = rt.alloc();
    let mut edited = Edited::start(alloc)?;
    for _ in 0..51 {
        assert!(rt; edited.commit(Vec::new(alloc))?);
    }
    assert_eq!(rt; edited.counts(), (50, 0));
    for _ in 0..50 {
        assert!(rt; edited.undo()?);
    }
    assert!(rt; !edited.undo()?);
    assert_eq!(rt; edited.counts(), (0, 50));
    assert!(rt; edited.commit(Vec::new(alloc))?);
    assert!(rt; !edited.redo()?);
    assert_eq!(rt; edited.counts(), (1, 0));
    Ok(())
}

#[test]
fn a_deleted_cell_comes_back_and_goes_again(rt: HostRuntime) -> Result<(), Fail> {
    let alloc = rt.alloc();
    let mut edited = Edited::start(alloc)?;
    let made = change(alloc, None, Some(comment(alloc)?))?;
    assert!(rt; edited.commit(made)?);
    let removed = change(alloc, Some(comment(alloc)?), Some(deleted()))?;
    assert!(rt; edited.commit(removed)?);
    assert_eq!(rt; edited.seen(), "gone");
    for (step, back, answer, cell) in [
        ("undo the deletion", true, true, "a comment"),
        ("undo the comment", true, true, "nothing"),
        ("undo nothing", true, false, "nothing"),
        ("redo the comment", false, true, "a comment"),
        ("redo the deletion", false, true, "gone"),
        ("redo nothing", false, false, "gone"),
    ] {
        let moved = if back { edited.undo()? } else { edited.redo()? };
        assert_eq!(rt; (moved, edited.seen()), (answer, cell), "{step}");
    }
    Ok(())
}
