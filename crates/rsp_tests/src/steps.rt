// The counter of steps.
ghost use Rattle.std.specs.Prelude.{◌≡◌, ◌+◌, ◌<◌};

use rsp_steps::Steps;
use std::marker::Brand;
use std::sync::ledger::{Blank, Ledger};

// ---- Laws

fn nothing_counted<L: Ledger>(blank: Blank) -> Steps<L>
    requires name { blank.name ≡ L.name }
    requires parts { blank.parts ≡ L.parts }
    requires some { 0 < blank.parts }
    ensures { result ≡ 0 }
{
    Steps::new(blank)
}

fn ticks_twice<L: Ledger>(steps: &mut Steps<L>)
    ensures { steps.new ≡ steps.old + 2 }
{
    steps.tick();
    steps.tick();
}

// ---- Cases

// what a function that counts from nothing looks like
fn two_ticks<L: Ledger>(blank: Blank)
    requires name { blank.name ≡ L.name }
    requires parts { blank.parts ≡ L.parts }
    requires some { 0 < blank.parts }
{
    let mut steps: Steps<L> = nothing_counted(blank);
    ticks_twice(&mut steps);
}

#[test]
fn counts_over_brand() {
    two_ticks::<Brand>(Blank::new(1));
}
