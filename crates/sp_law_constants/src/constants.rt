// What constant expressions mean in bodies. This function does nothing.
ghost use Rattle.sp_law_constants.specs.Constants.{ValuesAreMeant, ErrorsAreMeant};

/// Where a constant expression has a value by the checker, evaluating it in a body gives that value, whatever the state, and changes
/// nothing. Where its value is an error, evaluating it fails, by one error in whatever state, and changes nothing.
pub fn constants_are_meant()
    ensures values { ValuesAreMeant }
    ensures errors { ErrorsAreMeant }
{}
