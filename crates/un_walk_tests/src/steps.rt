//! Counts of steps.
ghost use Rattle.std.specs.Prelude.{◌≡◌, ◌+◌, length};

use un_steps::Steps;

struct Additions;

// A function whose steps are its additions.
fn sum<L>(numbers: &[u8], steps: &mut Steps<L>) -> u64
    ensures { steps.new ≡ steps.old + length numbers.now }
{
    let mut total = 0u64;
    for number in numbers {
        steps.tick();
        total = total.wrapping_add(u64::from(*number));
    }
    total
}

// Its condition is proved at the call: the program holds no count that it could test.
fn expect_four<L>(steps: &Steps<L>)
    requires { steps.now ≡ 4 }
{
    let _ = steps;
}

#[test]
fn counts_each_addition(rt: HostRuntime) {
    let mut steps = Steps::<Additions>::new();
    assert_eq!(rt; sum(&[1, 2, 3], &mut steps), 6);
    assert_eq!(rt; sum(&[4], &mut steps), 4);
    expect_four(&steps);
}
