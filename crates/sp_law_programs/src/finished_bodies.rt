// What bodies mean is finished with fuel enough. These functions do nothing.
ghost use Rattle.sp_law_programs.specs.finished_bodies.Laws.{FuelSuffices, MoreFuelIsTheSame, TurnsAreEnough};

/// More fuel changes nothing that is finished.
pub fn more_fuel_is_the_same()
    ensures { MoreFuelIsTheSame }
{}

/// No fuel does more than one above the turns that are left, whatever the bodies are.
pub fn turns_are_enough()
    ensures { TurnsAreEnough }
{}

/// With such a fuel what fits and is built of what has a meaning is finished, and ends as it may.
pub fn fuel_suffices()
    ensures { FuelSuffices }
{}
