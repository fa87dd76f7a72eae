//! Who keeps the keys that a party shares with others.
ghost use Rattle.std.specs.Prelude.{◌≡◌};
ghost use Rattle.mbj_work.specs.Knowing.{keys_at};

use mbj_keys::Keys;
use std::sync::Arc;

/// Keys that are borrowed from their owner, or one share of several.
#[derive(Drop)]
pub(crate) enum Lender<'k> {
    Owner(&'k Keys),
    Share(Arc<Keys>),
}

impl<'k> Lender<'k> {
    pub(crate) fn keys(&self) -> &Keys
        ensures { result.now ≡ keys_at self.now }
    {
        match self {
            Lender::Owner(keys) => keys,
            Lender::Share(keys) => keys,
        }
    }
}
