ghost use Rattle.std.specs.Prelude.{◌≡◌, ℕ, ◌-◌, ◌≤◌, List};
ghost use Rattle.mbj_types.specs.Aes.{encipher, key_schedule};
ghost use Rattle.mbj_types.specs.Blocks.{zero_block};
ghost use Rattle.mbj_aes.specs.Bytes.{IsRoundCount};
ghost use Rattle.mbj_aes_lanes.specs.KeyBytes.{IsKeyArray, key_of_array};

/// Blocks that are chained under a key (SP 800-38A, 6.2): the next block is xored with the chaining value and
/// enciphered, which gives the next chaining value. The keys of all entries of a type have as many rounds.
///
/// In a run the chaining values stand beside the entries. An entry advances by each, and keeps the last one.
pub trait ChainedEntry: Drop {
    /// The rounds of the key.
    ghost key_rounds: { ℕ };

    /// The schedule of the key.
    ghost key_of: { Self → List ℕ };

    /// How many blocks are left.
    ghost rest_of: { Self → ℕ };

    /// The next block.
    ghost block_of: { Self → List ℕ };

    /// The chaining value.
    ghost chain_of: { Self → List ℕ };

    /// What an entry is once its next block gave the chaining value, which it doesn't keep.
    ghost advanced: { Self → List ℕ → Self };

    /// An entry with another chaining value.
    ghost kept: { Self → List ℕ → Self };

    /// The rounds of the key: 10, 12 or 14.
    fn rounds(&self) -> usize
        ensures value { result ≡ key_rounds }
        ensures count { IsRoundCount key_rounds };

    /// The bytes of the key, and zeros behind them.
    fn key_bytes(&self) -> &[u8; 32]
        ensures array { IsKeyArray key_rounds result.now }
        ensures schedule { key_schedule (key_of_array key_rounds result.now) ≡ key_of self.now };

    /// How many blocks are left.
    fn rest(&self) -> u32
        ensures { result ≡ rest_of self.now };

    /// Whether the entry needs L of CMAC before its next `m` blocks: the zero block enciphered under the key (SP 800-38B, 6.1).
    fn needs_cmac_l(&self, m: u32) -> bool;

    /// The entry takes L of CMAC. What contracts see of it stays.
    fn set_cmac_l(&mut self, l: &[u8; 16])
        requires { l.now ≡ encipher (key_of self.old) zero_block }
        ensures { self.new ≡ self.old };

    /// The next block.
    fn block(&self) -> [u8; 16]
        requires { 1 ≤ rest_of self.now }
        ensures { result ≡ block_of self.now };

    /// The chaining value.
    fn chain(&self) -> &[u8; 16]
        ensures { result.now ≡ chain_of self.now };

    /// The next block gave the chaining value, which the entry doesn't keep.
    fn advance(&mut self, chain: &[u8; 16])
        requires { 1 ≤ rest_of self.old }
        ensures { self.new ≡ advanced self.old chain.now };

    /// The entry keeps the chaining value.
    fn keep(&mut self, chain: &[u8; 16])
        ensures { self.new ≡ kept self.old chain.now };

    /// The chaining value is the one that was kept last.
    ghost takes: { (e : Self) (chain : List ℕ) → chain_of (kept e chain) ≡ chain };

    /// An entry that keeps its own one is as it was.
    ghost keeps_own: { (e : Self) → kept e (chain_of e) ≡ e };

    /// One that was kept before is gone.
    ghost keeps_last: { (e : Self) (before chain : List ℕ) → kept (kept e before) chain ≡ kept e chain };

    /// It changes nothing else: what is done, the key, the block, or how many are left.
    ghost advances_rest: { (e : Self) (before chain last : List ℕ) → kept (advanced (kept e before) chain) last ≡ kept (advanced e chain) last };

    ghost keeps_key: { (e : Self) (chain : List ℕ) → key_of (kept e chain) ≡ key_of e };

    ghost keeps_block: { (e : Self) (chain : List ℕ) → block_of (kept e chain) ≡ block_of e };

    ghost keeps_rest: { (e : Self) (chain : List ℕ) → rest_of (kept e chain) ≡ rest_of e };

    /// The key stays.
    ghost advances_key: { (e : Self) (chain : List ℕ) → key_of (advanced e chain) ≡ key_of e };

    /// One block fewer is left.
    ghost falls: { (e : Self) (chain : List ℕ) → rest_of (advanced e chain) ≡ rest_of e - 1 };
}
