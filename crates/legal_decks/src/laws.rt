// The laws of legal decks. The functions do nothing: their contracts are the laws.
ghost use Rattle.legal_decks.specs.Laws.{LegalHasLinkage, LegalIsSound, LegalIsWell, LegalIsWhole};

/// The units of a legal deck have a linkage, by which they run.
pub fn legal_has_linkage()
    ensures { LegalHasLinkage }
{}

/// Each of them breaks no rule of its own, none is bad by itself, and they break no rule of linking.
pub fn legal_is_whole()
    ensures sound { LegalIsSound }
    ensures well { LegalIsWell }
    ensures whole { LegalIsWhole }
{}
