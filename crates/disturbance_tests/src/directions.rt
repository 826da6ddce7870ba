//! Dip and push in either direction.
use disturbance::direction::{Direction, dip, push};

#[test]
fn a_dip_counts_on_the_side_of_the_disturbance(rt: HostRuntime) {
    assert_eq!(rt; dip(Direction::Low, 49_750), 250);
    assert_eq!(rt; dip(Direction::High, 50_250), 250);
    assert_eq!(rt; dip(Direction::Low, 50_250), -250);
    assert_eq!(rt; dip(Direction::High, 49_750), -250);
    assert_eq!(rt; dip(Direction::Low, 50_000), 0);
    assert_eq!(rt; dip(Direction::High, 50_000), 0);
}

#[test]
fn a_push_works_against_the_disturbance(rt: HostRuntime) {
    assert_eq!(rt; push(Direction::Low, 1_000), 1_000);
    assert_eq!(rt; push(Direction::Low, -1_000), -1_000);
    assert_eq!(rt; push(Direction::High, 1_000), -1_000);
    assert_eq!(rt; push(Direction::High, -1_000), 1_000);
    assert_eq!(rt; push(Direction::High, 0), 0);
}

#[test]
fn the_widest_numbers_have_a_dip_and_a_push(rt: HostRuntime) {
    assert_eq!(rt; dip(Direction::Low, u32::MAX), -4_294_917_295);
    assert_eq!(rt; dip(Direction::High, u32::MAX), 4_294_917_295);
    assert_eq!(rt; dip(Direction::High, 0), -50_000);
    assert_eq!(rt; push(Direction::High, i32::MIN), 2_147_483_648);
    assert_eq!(rt; push(Direction::High, i32::MAX), -2_147_483_647);
}
