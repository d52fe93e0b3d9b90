use crate::{Attrs, Cats};
use std::test::Fail;

#[test]
fn pairs_rise(rt: HostRuntime) {
    let given = [
        (Some(7), 1_000_000_000_000),
        (Some(2), -1_000_000_000_000),
        (Some(31), 0),
    ];
    match Attrs::new(&given) {
        Ok(attrs) => {
            assert_eq!(rt; attrs.pairs().len(), 3);
            assert_eq!(rt; attrs.get(7), Some(1_000_000_000_000));
            assert_eq!(rt; attrs.get(3), None);
        }
        Err(_) => panic!(rt; "good pairs"),
    }
}

#[test]
fn the_first_bad_pair_is_named(rt: HostRuntime) {
    match Attrs::new(&[(Some(0), 1), (None, 1), (Some(1), 1_000_000_000_001)]) {
        Ok(_) => panic!(rt; "an unknown name"),
        Err(bad) => assert_eq!(rt; bad.place, 1),
    }
}

#[test]
fn categories(rt: HostRuntime) -> Result<(), Fail> {
    assert!(rt; Cats(5).has(2));
    assert!(rt; !Cats(5).has(1));
    Ok(())
}
