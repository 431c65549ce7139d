//! What a front does, over whole histories.
ghost use Rattle.hc_front.specs.Laws.{SatisfiedGetNothing, ConditionsGoOn, IsPlainElse};

/// Whoever is told that its copy holds is given nothing, before and later.
pub fn satisfied_get_nothing()
    ensures { SatisfiedGetNothing }
{}

/// A request on condition of a copy that isn't watched goes to the origin as it is.
pub fn conditions_go_on()
    ensures { ConditionsGoOn }
{}

/// Where nobody asks on condition of a copy that it has, the front changes nothing.
pub fn fronts_change_nothing_else()
    ensures { IsPlainElse }
{}
