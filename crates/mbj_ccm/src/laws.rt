ghost use Rattle.mbj_ccm.specs.Laws.{OpeningUndoesSealing};

/// A law: under each key, and with each nonce, each `aad` and each length of tag, opening brings back each text that
/// was sealed, and gives the tag that sealing gave.
pub fn opening_undoes_sealing()
    ensures { OpeningUndoesSealing }
{}
