// A counter of steps, handed down to code that is generic in the mark.
ghost use Rattle.std.specs.Prelude.{◌≡◌, ◌≤◌, ◌+◌};

use pd_base::Steps;

fn tick_twice<L>(steps: &mut Steps<L>)
    requires { steps.old + 2 ≤ u64.MAX }
    ensures { steps.new ≡ steps.old + 2 }
{
    steps.tick();
    steps.tick();
}

#[test]
fn each_tick_counts_one_whatever_the_mark_is(rt: HostRuntime) {
    let mut steps = Steps::start("mark");
    assert!(rt; steps.count() == 0);
    tick_twice(&mut steps);
    assert!(rt; steps.count() == 2);
}
