// What an entry is: a digest, an HMAC under a key, or an HMAC from stored states.
ghost use Rattle.std.specs.Prelude.{◌≡◌};
ghost use Rattle.mbj_hmac.specs.Forms.{made_rounds_of, outer_rounds_of};

/// The forms of an entry.
#[derive(Clone, Copy)]
pub(crate) enum Form {
    /// The digest of a message.
    Plain,
    /// HMAC under a key.
    Keyed,
    /// HMAC from stored states.
    States,
}

impl Form {
    /// The rounds of the outer hash. Under a key they are the outer pad and the block that holds the inner digest, and from states that
    /// block alone. A digest has no outer hash.
    #[inline(always)]
    pub(crate) fn outer_rounds(self) -> u32
        ensures { result ≡ outer_rounds_of self }
    {
        match self {
            Form::Plain => 0,
            Form::Keyed => 2,
            Form::States => 1,
        }
    }

    /// The rounds whose block is made in the vectors of the lanes: that of an HMAC's inner digest.
    #[inline(always)]
    pub(crate) fn made_rounds(self) -> u32
        ensures { result ≡ made_rounds_of self }
    {
        match self {
            Form::Plain => 0,
            Form::Keyed | Form::States => 1,
        }
    }
}
