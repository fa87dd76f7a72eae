ghost use Rattle.mbj_direct.specs.Laws.{AnyCuttingGivesOneTag, AnyCuttingGivesOneText, EquivalentCipherDeciphers};

/// A law: under each key, the equivalent inverse cipher (FIPS 197, 5.3.5) by the round keys of `inverse_schedule` deciphers each
/// block.
pub fn equivalent_cipher_deciphers()
    ensures { EquivalentCipherDeciphers }
{}

/// A law: under each key and with each IV, a text by GCM that is cut into parts in any way becomes, part by part, what the whole text
/// becomes.
pub fn any_cutting_gives_one_text()
    ensures { AnyCuttingGivesOneText }
{}

/// A law: under each key and with each IV, data whose GMAC is made in parts, however it is cut, gets the tag of the whole.
pub fn any_cutting_gives_one_tag()
    ensures { AnyCuttingGivesOneTag }
{}
