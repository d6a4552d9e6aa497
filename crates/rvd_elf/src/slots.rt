ghost use Rattle.std.specs.Prelude.{◌≡◌, Some, None, if◌then◌else◌, nat_lt, IfOk, OnOk};
ghost use Rattle.rvd_elf.specs.Facts.{TakesSlot, slot_at};

use rvd_fact::Addr;
use std::alloc::AllocError;
use std::collections::BTreeMap;

const SLOTS: u8 = 64;

/// Takes the next slot of an address, given how many are taken by address. There are 64.
pub fn take_slot(slots: &mut BTreeMap<Addr, u8>, at: Addr) -> Result<Option<u8>, AllocError>
    ensures slot { IfOk result (λ o. o ≡ (if nat_lt (slot_at slots.old at) 64 then Some (slot_at slots.old at) else None)) }
    ensures taken { OnOk result (TakesSlot slots.old slots.new at) }
{
    let slot = slots.get(&at).copied().unwrap_or(0);
    if slot >= SLOTS {
        return Ok(None);
    }
    slots.insert(at, slot + 1)?;
    Ok(Some(slot))
}
