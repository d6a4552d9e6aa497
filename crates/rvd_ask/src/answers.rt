ghost use Rattle.std.specs.Prelude.{◌≡◌, IfOk};
ghost use Rattle.rvd_ask.specs.Forms.{has_form};

use crate::asks::Ask;
use rvd_fact::{Addr, Bytes, Cell, RefClass};
use std::alloc::{AllocError, Global};
use std::marker::Model;

/// References from one address, each as slot, class and target.
#[derive(Debug, Drop)]
pub struct RefList {
    refs: Vec<(u8, RefClass, Addr)>,
}

impl Model for RefList {
    ghost use Rattle.std.specs.Prelude.{ℕ, List};
    ghost use Rattle.rvd_fact.specs.declared.values.RefClass.{RefClass};

    ghost Value = { List (ℕ × RefClass × ℕ) };

    ghost view = { λ list. list.refs.items };
}

impl RefList {
    /// These references.
    pub fn of(_alloc: Global, list: Vec<(u8, RefClass, Addr)>) -> Result<RefList, AllocError>
        ensures { IfOk result (λ refs. refs ≡ list.items) }
    {
        Ok(RefList { refs: list })
    }

    /// The references in order.
    pub fn list(&self) -> &[(u8, RefClass, Addr)]
        ensures { result.now ≡ self.now }
    {
        self.refs.as_slice()
    }

    /// An equal list.
    pub fn copy(&self) -> Result<RefList, AllocError>
        ensures { IfOk result (λ copy. copy ≡ self.now) }
    {
        let refs = self.refs.clone()?;
        Ok(RefList { refs })
    }
}

/// What a program answers to an ask.
#[derive(Debug, Drop)]
pub enum Answer {
    /// The cell at a key, where there is one.
    Cell(Option<Cell>),
    /// The start of a unit or a block, where there is one.
    At(Option<Addr>),
    /// The bytes of a range, where it lies in one initialised block.
    Bytes(Option<Bytes>),
    /// Whether it is so.
    Yes(bool),
    /// The references, in the order of their slots.
    Refs(RefList),
}

fn copy_cell(cell: &Option<Cell>) -> Result<Option<Cell>, AllocError>
    ensures { IfOk result (λ copy. copy ≡ cell.now) }
{
    match cell {
        None => Ok(None),
        Some(cell) => Ok(Some(cell.copy()?)),
    }
}

fn copy_bytes(bytes: &Option<Bytes>) -> Result<Option<Bytes>, AllocError>
    ensures { IfOk result (λ copy. copy ≡ bytes.now) }
{
    match bytes {
        None => Ok(None),
        Some(bytes) => Ok(Some(bytes.copy()?)),
    }
}

impl Answer {
    /// An equal answer.
    pub fn copy(&self) -> Result<Answer, AllocError>
        ensures { IfOk result (λ copy. copy ≡ self.now) }
    {
        match self {
            Answer::Cell(cell) => Ok(Answer::Cell(copy_cell(cell)?)),
            Answer::At(at) => Ok(Answer::At(*at)),
            Answer::Bytes(bytes) => Ok(Answer::Bytes(copy_bytes(bytes)?)),
            Answer::Yes(yes) => Ok(Answer::Yes(*yes)),
            Answer::Refs(refs) => Ok(Answer::Refs(refs.copy()?)),
        }
    }

    /// Whether it has the form of an ask's answer. For bytes these are nothing, or as many bytes as
    /// are asked for and at least one.
    pub fn has_form(&self, ask: &Ask) -> bool
        ensures { result ≡ has_form ask.now self.now }
    {
        match (ask, self) {
            (Ask::Cell(_), Answer::Cell(_)) => true,
            (Ask::Cover(_), Answer::At(_)) => true,
            (Ask::Block(_), Answer::At(_)) => true,
            (Ask::Bytes(_, _), Answer::Bytes(None)) => true,
            (Ask::Bytes(_, len), Answer::Bytes(Some(bytes))) => {
                *len > 0 && bytes.list().len() == usize::from(*len)
            }
            (Ask::To(_, _), Answer::Yes(_)) => true,
            (Ask::From(_), Answer::Refs(_)) => true,
            _ => false,
        }
    }
}

#[cfg(test)]
mod tests {
    use super::*;
    use crate::{Analyzer, Item, Items};
    use std::cmp::Ordering;
    use std::test::Fail;

    fn crosses_threads<T: Send + Sync>() {}

    #[test]
    fn asks_and_answers_may_cross_threads() {
        crosses_threads::<Analyzer>();
        crosses_threads::<Item>();
        crosses_threads::<Items>();
        crosses_threads::<Ask>();
        crosses_threads::<RefList>();
        crosses_threads::<Answer>();
    }

    #[test]
    fn lists_and_answers_are_copied_with_ample_memory(rt: HostRuntime) -> Result<(), Fail> {
        let body = Item {
            analyzer: Analyzer::Body,
            at: 0x10060,
        };
        let text = Item {
            analyzer: Analyzer::Strings,
            at: 0x10054,
        };
        assert_eq!(rt; body.order(&text), Ordering::Less);
        let items = Items::of(rt.alloc(), vec![in rt.alloc(); body, text]?)?;
        assert_eq!(rt; items.copy()?.list(), [body, text].as_slice());

        let call = (0, RefClass::Call, 0x10060);
        let refs = RefList::of(rt.alloc(), vec![in rt.alloc(); call]?)?;
        assert_eq!(rt; refs.copy()?.list(), [call].as_slice());
        let answer = Answer::Refs(refs).copy()?;
        assert!(rt; answer.has_form(&Ask::From(0x10058)));
        assert!(rt; !answer.has_form(&Ask::Cover(0x10058)));
        Ok(())
    }
}
