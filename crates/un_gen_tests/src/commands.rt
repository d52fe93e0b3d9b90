//! The commands of a network with one joint in its second row.
//!
//! Of 21 joints the first alone has one above it, so there is one draw. That of seed 7 is 4: 7 * 1,103,515,245 + 12,345 leaves 1,282,168,116 by
//! 2^31, of which 65,536 is 19,564 times a part, and 19,564 leaves 4 by 8. Of seed 9 the numbers are 1,341,714,958 and 20,472, and the draw is 0.

use std::test::*;
use un_ask::{Command, Edit};
use un_gen::commands;

/// The insert adds a feature of the kind at these points, with no terminal chosen at its ends.
fn inserts(command: Option<&Command>, kind: &str, points: &[[i64; 3]]) -> bool {
    let Some(
        Command::Edit(
            Edit::Insert {
                kind: made,
                points: placed,
                attrs: _,
                flow: _,
                ends,
                note: _,
            },
        ),
    ) = command
    else {
        return false;
    };
    made.text() == kind && placed.as_slice() == points && *ends == [0, 0]
}

fn in_first_row(place: u32) -> [i64; 3] {
    [1000 * i64::from(place), 0, 0]
}

#[test]
fn joints_then_pipes_then_a_validation(rt: HostRuntime) -> Result<(), Fail> {
    let made = commands(rt.alloc(), 7, 21)?;
    assert_eq!(rt; made.len(), 42);
    for place in 0..20u32 {
        assert!(rt; inserts(made.get(place as usize), "joint", &[in_first_row(place)]));
    }
    assert!(rt; inserts(made.get(20), "joint", &[[0, 1000, 0]]));
    assert!(rt; inserts(made.get(21), "pipe", &[[0, 0, 0], [1000, 0, 0]]));
    assert!(rt; inserts(made.get(22), "pipe", &[[0, 0, 0], [0, 1000, 0]]));
    for place in 1..19u32 {
        let pipe = [in_first_row(place), in_first_row(place + 1)];
        assert!(rt; inserts(made.get(place as usize + 22), "pipe", &pipe));
    }
    assert!(rt; matches!(made.get(41), Some(Command::Validate { .. })));
    Ok(())
}

#[test]
fn a_draw_of_nothing(rt: HostRuntime) -> Result<(), Fail> {
    let made = commands(rt.alloc(), 9, 21)?;
    assert_eq!(rt; made.len(), 41);
    Ok(())
}
