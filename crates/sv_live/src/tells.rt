//! What a world's reader is told of it.

ghost use Rattle.sv_core.specs.Laws.{IsLawful};
ghost use Rattle.sv_core.specs.Legal.{Legal};
ghost use Rattle.sv_core.specs.Document.{document_of};
ghost use Rattle.sv_core.specs.Mediums.{doc_of};
ghost use Rattle.sv_core.specs.Mediums.{AreNextCalls};
ghost use Rattle.sv_core.specs.Sound.{SoundDoc};

use sv_core::World;

/// Reads the history, which is legal.
pub(crate) fn tell_lawful(w: &World)
    ensures lawful { IsLawful (doc_of w.now.medium) w.now.medium.history }
    ensures legal { Legal (document_of w.now.medium.doc) w.now.medium.history }
{
    let _entries = w.history();
}

/// Reads the document, which is sound.
pub(crate) fn tell_sound(w: &World)
    ensures { SoundDoc w.now.medium.doc }
{
    let _doc = w.doc();
}

/// Reads what waits: what is next of its session.
pub(crate) fn tell_waiting(w: &World)
    ensures { AreNextCalls w.now.medium }
{
    let _waits = w.pending(1);
}
