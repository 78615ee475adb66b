//! Each guest once.

use crate::{Arena, Echo, Mirror};
use canon_memory::{Event, Guest, GuestFault, Journaled, Memory, Step, ValRaw, Watched};
use std::test::Fail;

#[test]
fn an_echo_returns_its_words(rt: HostRuntime) -> Result<(), Fail> {
    let alloc = rt.alloc();
    let mut memory = Memory::new(alloc, 65_536)?;
    let mut guest = Echo::new(alloc);
    let step = guest.start(&mut memory, 0, &[ValRaw::u32(7)])?;
    let Step::Return(words) = &step else {
        return Err(Fail::from("no return"));
    };
    assert!(rt; words.as_slice() == [ValRaw::u32(7)].as_slice());
    let fault = guest.realloc(&mut memory, 0, 0, 1, 5).err();
    assert!(rt; fault == Some(GuestFault::Trap));
    Ok(())
}

#[test]
fn a_journal_has_what_an_echo_did(rt: HostRuntime) -> Result<(), Fail> {
    let alloc = rt.alloc();
    let mut memory = Memory::new(alloc, 65_536)?;
    let mut guest = Journaled::new(alloc, Echo::new(alloc));
    let _step = guest.start(&mut memory, 0, &[ValRaw::u32(7)])?;
    let events = guest.take_journal();
    assert!(rt;
        matches!(
            events.as_slice(),
            [Event::Start { .. }, Event::Return { .. }]
        )
    );
    Ok(())
}

#[test]
fn an_arena_gives_each_block_behind_the_others(rt: HostRuntime) -> Result<(), Fail> {
    let alloc = rt.alloc();
    let mut memory = Memory::new(alloc, 65_536)?;
    let mut guest = Arena::new(alloc, 1);
    assert!(rt; guest.realloc(&mut memory, 0, 0, 1, 5)? == 1);
    assert!(rt; guest.realloc(&mut memory, 0, 0, 4, 8)? == 8);
    let fault = guest.realloc(&mut memory, 0, 0, 4, 65_521).err();
    assert!(rt; fault == Some(GuestFault::Trap));
    let step = guest.start(&mut memory, 0, &[ValRaw::u32(1), ValRaw::u32(5)])?;
    let Step::Return(words) = &step else {
        return Err(Fail::from("no return"));
    };
    assert!(rt; words.as_slice() == [ValRaw::u32(5)].as_slice());
    Ok(())
}

#[test]
fn the_answers_of_a_guest_are_tested(rt: HostRuntime) -> Result<(), Fail> {
    let alloc = rt.alloc();
    let mut memory = Memory::new(alloc, 65_536)?;
    let mut guest = Journaled::new(alloc, Watched::new(alloc, Arena::new(alloc, 8)));
    assert!(rt; guest.realloc(&mut memory, 0, 0, 4, 8)? == 8);
    let [mark] = guest.guest().marks() else {
        return Err(Fail::from("not one mark"));
    };
    assert!(rt; mark.lawful && mark.tidy);
    guest.guest_mut().clear_marks();
    Ok(())
}

#[test]
fn a_mirror_returns_where_the_list_that_it_was_passed_stands(rt: HostRuntime) -> Result<(), Fail> {
    let alloc = rt.alloc();
    let mut memory = Memory::new(alloc, 65_536)?;
    let mut guest = Mirror::new(alloc);
    assert!(rt; guest.realloc(&mut memory, 0, 0, 4, 8)? == 8);
    let step = guest.start(&mut memory, 0, &[ValRaw::u32(8), ValRaw::u32(2)])?;
    let Step::Return(words) = &step else {
        return Err(Fail::from("no return"));
    };
    assert!(rt; words.as_slice() == [ValRaw::u32(0)].as_slice());
    assert!(rt; memory.as_slice().get(0..8) == Some([8, 0, 0, 0, 2, 0, 0, 0].as_slice()));
    Ok(())
}
