// Examples of flat and joined registers.
use crate::flat::Flat;
use crate::joined::Joined;
use crate::register::Register;
use std::alloc::Global;
use std::process::Abort;
use std::test::Fail;

// A flat register over that many sevens has that many plots, takes a put at the last, and refuses one past it.
fn check_flat(rt: &impl Abort, heap: Global, length: usize, plots: u32) -> Result<(), Fail> {
    let mut numbers = vec![in heap; 7; length]?;
    let mut ground = Flat::new(numbers.as_mut_slice());
    assert_eq!(rt; ground.plots(), plots);
    assert_eq!(rt; ground.look(plots), None);
    assert_eq!(rt; ground.put(plots, 9), None);
    if plots > 0 {
        let last = plots - 1;
        assert_eq!(rt; ground.put(last, 9), Some(7));
        assert_eq!(rt; ground.look(last), Some(9));
    }
    let numbers = ground.into_numbers();
    let written = numbers.iter().filter(|number| **number == 9).count();
    assert_eq!(rt; written, plots.min(1) as usize);
    Ok(())
}

#[test]
fn flat_lengths(rt: HostRuntime) -> Result<(), Fail> {
    for (length, plots) in [
        (0, 0),
        (1, 1),
        (65535, 65535),
        (65536, 65535),
        (70000, 65535),
    ] {
        check_flat(&rt, rt.alloc(), length, plots)?;
    }
    Ok(())
}

#[test]
fn both_sides_of_the_seam(rt: HostRuntime) {
    let mut old = [1, 2, 3];
    let mut extension = [4, 5];
    let mut ground = Joined::new(Flat::new(&mut old), Flat::new(&mut extension));
    assert_eq!(rt; ground.plots(), 5);
    assert_eq!(rt; ground.put(2, 70), Some(3));
    assert_eq!(rt; ground.put(3, 71), Some(4));
    assert_eq!(rt; ground.put(5, 72), None);
    assert_eq!(rt; ground.look(5), None);
    let (first, second) = ground.into_parts();
    assert_eq!(rt; first.look(2), Some(70));
    assert_eq!(rt; second.look(0), Some(71));
    assert_eq!(rt; second.look(1), Some(5));
}

#[test]
fn joined_of_joined(rt: HostRuntime) {
    let mut a = [1];
    let mut b = [2];
    let mut c = [3];
    let inner = Joined::new(Flat::new(&mut b), Flat::new(&mut c));
    let mut ground = Joined::new(Flat::new(&mut a), inner);
    assert_eq!(rt; ground.plots(), 3);
    assert_eq!(rt; ground.put(2, 70), Some(3));
    assert_eq!(rt; ground.look(2), Some(70));
    assert_eq!(rt; ground.look(1), Some(2));
    assert_eq!(rt; ground.put(3, 71), None);
}

#[test]
fn joined_past_the_most(rt: HostRuntime) -> Result<(), Fail> {
    let mut numbers = vec![in rt.alloc(); 7; 65534]?;
    let mut extension = [8, 9, 10];
    let mut ground = Joined::new(Flat::new(numbers.as_mut_slice()), Flat::new(&mut extension));
    assert_eq!(rt; ground.plots(), 65535);
    assert_eq!(rt; ground.put(65534, 70), Some(8));
    assert_eq!(rt; ground.put(65535, 71), None);
    let (_, second) = ground.into_parts();
    assert_eq!(rt; second.look(0), Some(70));
    assert_eq!(rt; second.look(1), Some(9));
    Ok(())
}
