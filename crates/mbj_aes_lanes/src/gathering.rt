//! The entries of busy slots move to the first slots, and back.
ghost use Rattle.std.specs.Prelude.{◌≡◌, ℕ, ◌<◌, ◌≤◌, None, length, slice_index};
ghost use Rattle.mbj_types.specs.declared.kind.TheConstants.{AES_LANES};
ghost use Rattle.mbj_aes_lanes.specs.Slots.{slot_at};
ghost use Rattle.mbj_aes_lanes.specs.Inside.Gathered.{gathered, ungathered, AreLanes};

use mbj_types::AES_LANES;

/// Which slots the first `many` entries come from.
#[derive(Drop)]
pub struct Origins {
    pub from: [usize; AES_LANES],
    pub many: usize,
}

/// How many slots have an entry.
pub fn busy_in<E: Drop>(slots: &[Option<E>]) -> usize
    requires { length slots.now ≡ AES_LANES }
    ensures { result ≤ AES_LANES }
{
    let mut many = 0;
    'busy: for i in 0..AES_LANES {
        many += slots[i].is_some() as usize;
    }
    many
}

/// Moves the entries to the first slots.
pub fn gather<E: Drop>(slots: &mut [Option<E>]) -> Origins
    requires { length slots.old ≡ AES_LANES }
    ensures most { result.many ≤ AES_LANES }
    ensures lanes { AreLanes (slice_index result.from) result.many }
    ensures moved { slots.new ≡ gathered (slice_index result.from) result.many slots.old }
    ensures idle { (i : ℕ) → result.many ≤ i → i < AES_LANES → slot_at slots.new i ≡ None }
{
    let mut from = [0; AES_LANES];
    let mut many = 0;
    'slots: for i in 0..AES_LANES {
        if slots[i].is_some() {
            slots.swap(many, i);
            from[many] = i;
            many += 1;
        }
    }
    Origins { from, many }
}

/// Moves them back.
pub fn scatter<E: Drop>(slots: &mut [Option<E>], origins: &Origins)
    requires size { length slots.old ≡ AES_LANES }
    requires most { origins.now.many ≤ AES_LANES }
    requires lanes { AreLanes (slice_index origins.now.from) origins.now.many }
    ensures { slots.new ≡ ungathered (slice_index origins.now.from) origins.now.many slots.old }
{
    'entries: for p in (0..origins.many).rev() {
        slots.swap(p, origins.from[p]);
    }
}
