// The worked examples hold for the definitions that the calls promise.
#![tactic(auto)]

ghost use Rattle.std.specs.Prelude.{◌≡◌, length};
ghost use Rattle.worked.specs.Table.{ExamplesHold, three_events_sheet};

pub fn examples_hold()
    ensures each { ExamplesHold }
    ensures long { length three_events_sheet ≡ 71 }
{}
