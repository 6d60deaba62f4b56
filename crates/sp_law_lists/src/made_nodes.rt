// What is true of each node that typing makes.
ghost use Rattle.sp_law_lists.specs.made_nodes.Laws.{NodesHold};

/// A test that holds of what is named, and of each node that is made round parts, holds at each node of what is typed, whatever literals
/// take the types of their places and whatever is widened.
pub fn nodes_hold()
    ensures { NodesHold }
{}
