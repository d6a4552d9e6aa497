ghost use Rattle.std.specs.Prelude.{◌≡◌, IfOk};
ghost use Rattle.rvd_an_strings.specs.Sample.{sample, sample_block, sample_bytes, sample_reference};

use crate::StringsRule;
use rvd_ask::{RefList, Rule, View};
use rvd_fact::{Addr, Bytes, Cell, Form, Key, Kind, Perm, RefClass, Source, Value};
use std::alloc::{AllocError, Global};
use std::cmp::Ordering;
use std::test::Fail;

// Where the text is, and where it is referred to.
const TEXT: Addr = 0x12000;

const USER: Addr = 0x10000;

const TEXT_BYTES: [u8; 7] = *b"abcdef\0";

// A program with a text and a reference to it.
#[derive(Drop)]
struct Sample {
    reference: Cell,
    block: Cell,
    ghost reference_is: { reference ≡ sample_reference },
    ghost block_is: { block ≡ sample_block },
}

fn make_sample(alloc: Global) -> Result<Sample, AllocError> {
    let bytes = Bytes::of(alloc, Vec::from_array(alloc, TEXT_BYTES)?)?;
    let value = Value::Block {
        len: 7,
        perm: Perm {
            r: true,
            w: false,
            x: false,
        },
        bytes: Some(bytes),
    };
    Ok(Sample {
        reference: Cell {
            value: Value::Ref {
                to: TEXT,
                class: RefClass::Datum,
            },
            source: Source::Analysis,
        },
        block: Cell {
            value,
            source: Source::Imported,
        },
    })
}

impl View for Sample {
    ghost program = { λ _. sample };

    fn cell(&self, key: Key) -> Option<&Cell> {
        let reference = Key {
            at: USER,
            kind: Kind::Ref,
            sub: 1,
        };
        let block = Key {
            at: TEXT,
            kind: Kind::Block,
            sub: 0,
        };
        match key.order(&reference) {
            Ordering::Equal => Some(&self.reference),
            _ => match key.order(&block) {
                Ordering::Equal => Some(&self.block),
                _ => None,
            },
        }
    }

    fn cover(&self, _at: Addr) -> Option<Addr> {
        None
    }

    fn block(&self, at: Addr) -> Option<Addr> {
        if at >= TEXT && at < TEXT + 7 {
            Some(TEXT)
        } else {
            None
        }
    }

    fn bytes(&self, alloc: Global, at: Addr, len: u16) -> Result<Option<Bytes>, AllocError> {
        if at < TEXT || at >= TEXT + 7 || len == 0 || u32::from(len) > TEXT + 7 - at {
            return Ok(None);
        }
        let first = (at - TEXT) as usize;
        let part = TEXT_BYTES[first..first + usize::from(len)].to_vec(alloc)?;
        Ok(Some(Bytes::of(alloc, part)?))
    }

    fn has_ref_to(&self, at: Addr, class: RefClass) -> bool {
        at == TEXT && class == RefClass::Datum
    }

    fn refs_from(&self, alloc: Global, at: Addr) -> Result<RefList, AllocError> {
        let mut refs = Vec::new(alloc);
        if at == USER {
            refs.push((1, RefClass::Datum, TEXT))?;
        }
        RefList::of(alloc, refs)
    }
}

#[test]
fn a_text_that_is_referred_to_is_a_string(rt: HostRuntime) -> Result<(), Fail> {
    let alloc = rt.alloc();
    let sample = make_sample(alloc)?;
    let proposal = StringsRule.propose(alloc, &sample, TEXT)?;
    assert_eq!(rt; proposal.changes().len(), 1);
    let change = &proposal.changes()[0];
    assert!(rt; change.key.at == TEXT && change.key.kind == Kind::Unit && change.before.is_none());
    let is_string = match &change.after {
        Some(cell) => matches!(&cell.value, Value::Plain(Form::Str(7)))
            && cell.source == Source::Analysis,
        None => false,
    };
    assert!(rt; is_string);
    // The reference, the block and its cell, seven bytes, seven covers and the cell of the unit.
    assert_eq!(rt; proposal.reads().len(), 18);
    Ok(())
}

#[test]
fn a_text_that_nothing_refers_to_is_none(rt: HostRuntime) -> Result<(), Fail> {
    let alloc = rt.alloc();
    let sample = make_sample(alloc)?;
    let proposal = StringsRule.propose(alloc, &sample, TEXT + 1)?;
    assert_eq!(rt; proposal.changes().len(), 0);
    assert_eq!(rt; proposal.reads().len(), 2);
    Ok(())
}
