// Bodies that end well. This function does nothing.
ghost use Rattle.sp_law_rules.specs.Ends.{BodiesGiveResults};

/// Whatever a body that ends well does when it is run, it doesn't go on behind its last statement.
pub fn bodies_give_results()
    ensures { BodiesGiveResults }
{}
