use crate::asks::{Ask, Rows, asked, library, symbol};
use bucket_core::Bucket;
use bucket_shared::Shared;
use std::alloc::Global;
use std::sync::Wait;
use std::test::Fail;

// The numbers of the clients of a store, of which two were split off.
fn split_numbers<R: Wait>(rt: &R, alloc: Global) -> Result<[u32; 3], Fail> {
    let mut pass = Shared::make(alloc, 1_000, 1)?;
    let second = pass.split(rt)?;
    let third = pass.split(rt)?;
    Ok([pass.client(), second.client(), third.client()])
}

#[test]
fn split_passes_are_of_clients_of_their_own(rt: HostRuntime) -> Result<(), Fail> {
    assert!(rt; split_numbers(&rt, rt.alloc())? == [1, 2, 3]);
    Ok(())
}

// The number of a client that is split off when another one was joined.
fn number_behind_a_join<R: Wait>(rt: &R, alloc: Global) -> Result<u32, Fail> {
    let mut pass = Shared::make(alloc, 1_000, 1)?;
    let second = pass.split(rt)?;
    pass.join(rt, second);
    Ok(pass.split(rt)?.client())
}

#[test]
fn the_number_of_a_joined_pass_is_not_given_again(rt: HostRuntime) -> Result<(), Fail> {
    assert!(rt; number_behind_a_join(&rt, rt.alloc())? == 3);
    Ok(())
}

// Whether S has surely no reference for client 2, before client 1 writes it and behind that, and how many events client 2 has seen.
fn told_of_a_refer<R: Wait>(rt: &R, alloc: Global) -> Result<(bool, bool, u64), Fail> {
    let symbol = symbol(alloc)?;
    let mut pass = Shared::make(alloc, 1_000, 1)?;
    let mut second = pass.split(rt)?;
    let before = second.unchanged(&symbol, 0);
    let mut first = library(pass, 5, false);
    let _ = asked(rt, alloc, &mut first, Ask::Write(Rows::Five))?;
    let seen = second.place();
    Ok((before, second.unchanged(&symbol, 0), seen))
}

#[test]
fn a_pass_is_told_of_a_refer_that_it_has_not_seen(rt: HostRuntime) -> Result<(), Fail> {
    assert!(rt; told_of_a_refer(&rt, rt.alloc())? == (true, false, 0));
    Ok(())
}
