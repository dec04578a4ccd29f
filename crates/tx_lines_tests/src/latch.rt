use std::process::Abort;
use std::test::Fail;
use tx_latch::*;
use tx_types::{Fault, Key};

// What the latches say of a command: whether it stands in the list, and whether it is granted.
fn said(latches: &Latches, cid: u64) -> (bool, bool) {
    let cid = Cid::new(cid);
    (latches.is_asked(cid), latches.is_granted(cid))
}

// What they say of each command of these tests.
fn all_said(latches: &Latches) -> [(bool, bool); 4] {
    [
        said(latches, 1),
        said(latches, 2),
        said(latches, 3),
        said(latches, 5),
    ]
}

// Asks for a command that must not stand in the list. Where memory was refused, no command has
// joined and no grant has changed, and it is asked for once more. So the tests pass whichever of
// their allocations is refused.
fn acquire(rt: &impl Abort, latches: &mut Latches, cid: u64, slots: &[Slot]) -> Result<bool, Fail> {
    let cid = Cid::new(cid);
    assert!(rt; !latches.is_asked(cid));
    let before = all_said(latches);
    match latches.acquire(cid, slots) {
        Ok(granted) => Ok(granted),
        Err(refused) => {
            assert!(rt; matches!(refused, Fault::OutOfMemory));
            assert_eq!(rt; all_said(latches), before);
            Ok(latches.acquire(cid, slots)?)
        }
    }
}

// Releases a command that must be granted, and asserts which commands become granted.
fn release(rt: &impl Abort, latches: &mut Latches, cid: u64, freed: &[Cid]) -> Result<(), Fail> {
    assert!(rt; latches.is_granted(Cid::new(cid)));
    assert_eq!(rt; latches.release(Cid::new(cid))?.as_slice(), freed);
    Ok(())
}

#[test]
fn commands_are_granted_in_asking_order(rt: HostRuntime) -> Result<(), Fail> {
    let mut latches = Latches::new(rt.alloc());
    let a = Slot::new(97);
    let b = Slot::new(33);
    assert!(rt; acquire(&rt, &mut latches, 1, &[a, b])?);
    assert!(rt; !acquire(&rt, &mut latches, 2, &[b])?);
    assert!(rt; !acquire(&rt, &mut latches, 3, &[a])?);
    assert!(rt; !acquire(&rt, &mut latches, 5, &[b, a, b])?);
    release(&rt, &mut latches, 1, &[Cid::new(2), Cid::new(3)])?;
    release(&rt, &mut latches, 3, &[])?;
    release(&rt, &mut latches, 2, &[Cid::new(5)])?;
    assert!(rt; latches.is_granted(Cid::new(5)));
    assert!(rt; !latches.is_asked(Cid::new(1)));
    Ok(())
}

#[test]
fn commands_that_stand_alone_go_before_one_that_waits(rt: HostRuntime) -> Result<(), Fail> {
    let mut latches = Latches::new(rt.alloc());
    let a = Slot::new(97);
    let b = Slot::new(33);
    assert!(rt; acquire(&rt, &mut latches, 1, &[a])?);
    assert!(rt; acquire(&rt, &mut latches, 2, &[b])?);
    assert!(rt; !acquire(&rt, &mut latches, 3, &[a])?);
    assert!(rt; !acquire(&rt, &mut latches, 5, &[b, a])?);
    release(&rt, &mut latches, 2, &[])?;
    release(&rt, &mut latches, 1, &[Cid::new(3)])?;
    release(&rt, &mut latches, 3, &[Cid::new(5)])?;
    release(&rt, &mut latches, 5, &[])?;
    assert!(rt; acquire(&rt, &mut latches, 1, &[b])?);
    release(&rt, &mut latches, 1, &[])
}

#[test]
fn a_command_of_no_slots_is_granted_at_once(rt: HostRuntime) -> Result<(), Fail> {
    let mut latches = Latches::new(rt.alloc());
    assert!(rt; acquire(&rt, &mut latches, 1, &[Slot::new(0)])?);
    assert!(rt; acquire(&rt, &mut latches, 2, &[])?);
    release(&rt, &mut latches, 2, &[])?;
    release(&rt, &mut latches, 1, &[])
}

#[test]
fn a_command_of_many_slots_stands_in_the_way_of_each(rt: HostRuntime) -> Result<(), Fail> {
    let mut latches = Latches::new(rt.alloc());
    let slots = [0, 1, 2, 3, 4, 5, 6, 7, 8, 9, 10, 11, 12, 13, 14, 15, 16].map(Slot::new);
    assert!(rt; acquire(&rt, &mut latches, 1, &slots)?);
    assert!(rt; !acquire(&rt, &mut latches, 2, &[Slot::new(16)])?);
    release(&rt, &mut latches, 1, &[Cid::new(2)])?;
    release(&rt, &mut latches, 2, &[])
}

// The key of these bytes, made once more where memory was refused.
fn key_of(rt: &HostRuntime, bytes: &[u8]) -> Result<Key, Fault> {
    match Key::new(rt.alloc(), bytes) {
        Err(Fault::OutOfMemory) => Key::new(rt.alloc(), bytes),
        made => made,
    }
}

#[test]
fn a_key_has_one_slot(rt: HostRuntime) -> Result<(), Fail> {
    assert_eq!(rt; slot_of(&key_of(&rt, b"a")?).get(), 97);
    assert_eq!(rt; slot_of(&key_of(&rt, b"ab")?).get(), 33);
    Ok(())
}
