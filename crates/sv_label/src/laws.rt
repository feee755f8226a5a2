//! What the definition of a dictionary promises.

ghost use Rattle.sv_label.specs.Laws.{FindsAdded};

/// What was added is found, and all else as before.
pub fn finds_added()
    ensures { FindsAdded }
{}
