ghost use Rattle.mbj_gcm.specs.Laws.{UnsealingUndoesSealing};

/// A law: under each key, and with each IV and each `aad`, unsealing brings back each text that was
/// sealed, and gives the tag that sealing gave.
pub fn unsealing_undoes_sealing()
    ensures { UnsealingUndoesSealing }
{}
