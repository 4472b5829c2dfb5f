// What the computed distances, contradictions, times and windows are, as contracts.
#![tactic(auto)]

ghost use Rattle.walks.specs.Claims.{ContradictionIsLoop, DistanceIsLeast, DistanceHasRoute, DistancesAreMetric, DistancesAreSmall, ContradictionIsNoSchedule, TimesAreSchedule, WindowsAreExact};

pub fn contradiction_is_a_loop()
    ensures { ContradictionIsLoop }
{}

pub fn distance_is_least()
    ensures { DistanceIsLeast }
{}

pub fn distance_has_a_route()
    ensures { DistanceHasRoute }
{}

pub fn distances_are_a_metric()
    ensures { DistancesAreMetric }
{}

pub fn distances_are_small()
    ensures { DistancesAreSmall }
{}

pub fn contradiction_leaves_no_schedule()
    ensures { ContradictionIsNoSchedule }
{}

pub fn times_are_a_schedule()
    ensures { TimesAreSchedule }
{}

pub fn windows_are_exact()
    ensures { WindowsAreExact }
{}
