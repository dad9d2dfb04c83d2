use draws::Draws;
use std::test::*;

/// The first draws of the number 1.
#[test]
fn the_number_one(rt: HostRuntime) {
    let mut draws = Draws::new(1);
    for expected in [16838, 5758, 10113, 17515, 31051, 5627, 23010, 7419] {
        assert!(rt; draws.draw() == expected);
    }
}
