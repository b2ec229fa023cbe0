use base_types::{Items, NoMemory};
use std::alloc::Global;
use std::test::Fail;
use turn_tally::{add, add_each, open, total, two};

// For each amount a job that adds it twice.
fn twice_each(alloc: Global, amounts: &[u64]) -> Result<Items<Items<u64>>, NoMemory> {
    let mut jobs = Items::new(alloc);
    for amount in amounts {
        let mut job = Items::new(alloc);
        job.push(*amount)?;
        job.push(*amount)?;
        jobs.push(job)?;
    }
    Ok(jobs)
}

#[test]
fn two_threads_add_by_turns(rt: HostRuntime) -> Result<(), Fail> {
    let (cell, mut seat, first, second) = two(&rt, rt.alloc(), &[1, 2, 3], &[40, 50])?;
    assert!(rt; first == 3 && second == 2);
    assert!(rt; total(&rt, &cell, &mut seat) == 96);
    Ok(())
}

#[test]
fn three_more_threads_add_by_turns(rt: HostRuntime) -> Result<(), Fail> {
    let jobs = twice_each(rt.alloc(), &[100, 200, 300])?;
    let (cell, seat, _, _) = two(&rt, rt.alloc(), &[1, 2, 3], &[40, 50])?;
    let (mut seat, all) = add_each(&rt, &cell, seat, jobs.items());
    assert!(rt; all);
    assert!(rt; total(&rt, &cell, &mut seat) == 1296);
    Ok(())
}

#[test]
fn a_row_is_changed_once_another_seat_adds_to_it(rt: HostRuntime) -> Result<(), Fail> {
    let (cell, mut one, mut two) = open(&rt, rt.alloc())?;
    assert!(rt; cell.unchanged(&mut one, 7, 0));
    assert!(rt; add(&rt, &cell, &mut two, Some(7), 5));
    assert!(rt; !cell.unchanged(&mut one, 7, 0));
    assert!(rt; cell.unchanged(&mut one, 8, 0));
    assert!(rt; cell.unchanged(&mut one, 7, 1));
    Ok(())
}
