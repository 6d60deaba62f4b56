// What holds of every list of operations: each law is the contract of a function that does nothing.
ghost use Rattle.sp_reasm.specs.Laws.{OwnersStay, HeadStays, BelowStays, HeadIsFree, NoHole, DeliveredOnce, RunsApart, RunsFind};

/// A position has one owner at most and keeps it: later data never win.
pub fn owner_is_kept()
    ensures { OwnersStay }
{}

/// The head never goes back.
pub fn head_never_falls()
    ensures { HeadStays }
{}

/// What lies below the head never changes.
pub fn nothing_below_the_head()
    ensures { BelowStays }
{}

/// The head stands before a position that no operation has covered.
pub fn head_has_no_owner()
    ensures { HeadIsFree }
{}

/// The head goes over no position without an owner, but for those that a skip gives up.
pub fn skips_no_hole()
    ensures { NoHole }
{}

/// What is delivered or told as a gap is each position once, in order, as it is owned.
pub fn delivered_once()
    ensures { DeliveredOnce }
{}

/// A run of data ends only where something else comes: the runs are as long as they can be.
pub fn runs_are_maximal()
    ensures apart { RunsApart }
    ensures complete { RunsFind }
{}
