ghost use Rattle.std.specs.Prelude.{◌≡◌, ℕ, ◌<◌, replicate};
ghost use Rattle.mbj_types.specs.Blocks.{xor_lists};
ghost use Rattle.mbj_aes_lanes.specs.Inside.Wide.{word_lane, state_lane, tower_word};

use mbj_types::Lane8;

/// A word of FIPS 197 in each lane, a vector for each of its bytes.
#[derive(Clone, Copy)]
pub struct Word<V>(pub V, pub V, pub V, pub V);

/// The state of AES (FIPS 197, 3.4) of the block in each lane, column by column.
#[derive(Clone, Copy)]
pub struct State<V>(pub Word<V>, pub Word<V>, pub Word<V>, pub Word<V>);

/// The same byte in each place of every lane.
#[inline(always)]
#[tactic(auto, unfolding(crate::specs::Inside::Wide::state_lane))]
pub fn splat_state<V: Lane8>(byte: u8) -> State<V>
    ensures { (i : ℕ) → i < V.LANES → state_lane V.lane result i ≡ replicate 16 byte }
{
    let byte = V::splat(byte);
    let word = Word(byte, byte, byte, byte);
    State(word, word, word, word)
}

/// The sum of two words, byte by byte, whether they are plain or in the tower's basis.
#[inline(always)]
pub fn xor_words<V: Lane8>(a: Word<V>, b: Word<V>) -> Word<V>
    ensures plain { (i : ℕ) → i < V.LANES → word_lane V.lane result i ≡ xor_lists (word_lane V.lane a i) (word_lane V.lane b i) }
    ensures tower { (i : ℕ) → i < V.LANES → tower_word V.lane result i ≡ xor_lists (tower_word V.lane a i) (tower_word V.lane b i) }
{
    Word(
        a.0.xored(b.0),
        a.1.xored(b.1),
        a.2.xored(b.2),
        a.3.xored(b.3),
    )
}

/// ADDROUNDKEY (5.1.4): the sum of two states, byte by byte.
#[inline(always)]
#[tactic(auto, unfolding(crate::specs::Inside::Wide::state_lane))]
pub fn add_round_key<V: Lane8>(s: State<V>, key: State<V>) -> State<V>
    ensures { (i : ℕ) → i < V.LANES → state_lane V.lane result i ≡ xor_lists (state_lane V.lane s i) (state_lane V.lane key i) }
{
    State(
        xor_words(s.0, key.0),
        xor_words(s.1, key.1),
        xor_words(s.2, key.2),
        xor_words(s.3, key.3),
    )
}
