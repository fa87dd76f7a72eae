ghost use Rattle.mbj_cbc.specs.Laws.{DecryptionUndoesCbc};

/// A law: under each key and from each IV, decryption brings back each text of whole blocks that was encrypted.
pub fn decryption_undoes_encryption()
    ensures { DecryptionUndoesCbc }
{}
