//! A host that notes what it holds on its way is the host that it is without its notes.
#![tactic(auto)]

ghost use Rattle.noting_laws.specs.Laws.{NotesAreMore};

/// With its settings a host that notes hears, says and tells what the host does that notes nothing.
pub fn notes_are_more<S>()
    ensures { NotesAreMore S }
{}
