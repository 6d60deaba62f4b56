// What a typed list tells of its constants and its labels. This function does nothing.
ghost use Rattle.sp_law_constants.specs.Lists.{ListsAgree};

/// What a typed list tells the checker of its constants and labels is what bodies of the list have for them.
pub fn lists_agree()
    ensures { ListsAgree }
{}
