//! A small generator for tests and simulations, with a state of 64 bits. It is not a source of
//! secrets.

ghost use Rattle.std.specs.Prelude.{◌≡◌, ◌<◌, ◌^◌, ◌%◌, ℕ, false, length};
ghost use Rattle.std.specs.Int.{w64, from_le_bytes, to_le_bytes};
ghost use Rattle.rand_core.specs.Stream.{next_u32, next_u64, fill_bytes};
ghost use Rattle.rapidhash_portable.specs.Multiply.{mix};
ghost use Rattle.rapidhash_portable.specs.Secrets.{s1, v1_number};
ghost use Rattle.rapidhash.specs.Generator.{state_after, word_at, next_word, generator_stream, words_for, first_bytes_of, seed_at_moment, word_at_moment};

use rand_core::utils::NextWord;
use rand_core::{Rng, SeedableRng, utils};
use rapidhash_portable::util::rapid_mix;
use rapidhash_portable::v3::DEFAULT_RAPID_SECRETS;
use std::marker::Model;

/// What a step adds to the state. It is odd, so all 2^64 states lie on one cycle.
const STEP: u64 = DEFAULT_RAPID_SECRETS.secrets[0];

/// The step's inverse: their product is 1 modulo 2^64.
const INVERSE: u64 = 0x32e2_5c49_d2be_af2d;

/// What a word mixes its state with.
const MASK: u64 = DEFAULT_RAPID_SECRETS.secrets[1];

/// What a time is mixed with to seed the generator.
const MOMENT_MASK: u64 = DEFAULT_RAPID_SECRETS.secrets[2];

/// The seed that a generator seeded from a time starts with.
const MOMENT_SEED: u64 = 0xbdd8_9aa9_8270_4029;

/// Steps the state, and returns the word of the new one.
///
/// ```
/// use rapidhash::rng::rapidrng_fast;
///
/// let mut state = 42;
/// let first = rapidrng_fast(&mut state);
/// let second = rapidrng_fast(&mut state);
/// assert_ne!(first, second);
/// ```
#[inline(always)]
pub fn rapidrng_fast(state: &mut u64) -> u64
    ensures state { state.new ≡ state_after state.old 1 }
    ensures word { result ≡ word_at state.old 1 }
{
    let next = state.wrapping_add(STEP);
    *state = next;
    rapid_mix::<false>(next, next ^ MASK)
}

/// Steps the state in the same way, and returns another word of the new one. It has the crate's
/// name: the crate may compute another word on other machines, here all compute the same.
///
/// ```
/// use rapidhash::rng::rapidrng_fast_not_portable;
///
/// let mut state = 42;
/// let word = rapidrng_fast_not_portable(&mut state);
/// ```
#[inline(always)]
pub fn rapidrng_fast_not_portable(state: &mut u64) -> u64
    ensures state { state.new ≡ state_after state.old 1 }
    ensures word { result ≡ mix false (state_after state.old 1) s1 }
{
    let next = state.wrapping_add(STEP);
    *state = next;
    rapid_mix::<false>(next, MASK)
}

/// Makes a new seed from the old one and a time, and returns the new seed's word. The caller passes
/// the time, as seconds and nanoseconds since a start of its choice; only the low 32 bits of the
/// seconds are used.
///
/// ```
/// use rapidhash::rng::rapidrng_time;
///
/// let mut seed = 42;
/// let word = rapidrng_time(&mut seed, 1_700_000_000, 123_456_789);
/// ```
///
/// # Panics
///
/// In Rust, if the nanoseconds are a second or more. Rattle's checker refuses such a call.
pub fn rapidrng_time(seed: &mut u64, secs: u64, nanos: u32) -> u64
    requires { nanos < 1000000000 }
    ensures seed { seed.new ≡ seed_at_moment seed.old secs nanos }
    ensures word { result ≡ word_at_moment seed.old secs nanos }
{
    prove!(
        nanos < 1_000_000_000,
        "the nanoseconds must be less than a second"
    );
    let entropy = secs % 0x1_0000_0000 * 0x1_0000_0000 + nanos as u64;
    let moment = rapid_mix::<false>(entropy ^ STEP, *seed ^ MASK);
    let made = rapid_mix::<false>(moment ^ STEP, MOMENT_MASK);
    *seed = made;
    rapid_mix::<false>(made, made ^ MASK)
}

/// A generator with a state of 64 bits, one of 2^64 on a single cycle.
///
/// ```
/// use rapidhash::rng::RapidRng;
///
/// let mut rng = RapidRng::new(42);
/// let dice = rng.next() % 6 + 1;
/// ```
#[derive(Clone, Copy, Debug, PartialEq, Eq, PartialOrd, Ord, Hash)]
pub struct RapidRng {
    seed: u64,
}

impl Model for RapidRng {
    ghost Value = { ℕ };

    ghost view = { λ rng. rng.seed };

    ghost inverse = { λ state. record { seed = state } };
}

impl RapidRng {
    /// Returns a generator whose state is `seed`. All generators share one cycle.
    #[inline]
    pub const fn new(seed: u64) -> RapidRng
        ensures { result ≡ seed }
    {
        RapidRng { seed }
    }

    /// Returns a generator whose state is what [`rapidrng_time`] returns for a time and a fixed
    /// seed.
    ///
    /// # Panics
    ///
    /// In Rust, if the nanoseconds are a second or more. Rattle's checker refuses such a call.
    pub fn from_moment(secs: u64, nanos: u32) -> RapidRng
        requires { nanos < 1000000000 }
        ensures { result ≡ word_at_moment v1_number secs nanos }
    {
        let mut seed = MOMENT_SEED;
        RapidRng::new(rapidrng_time(&mut seed, secs, nanos))
    }

    /// Returns the state as a number.
    const fn number(&self) -> u64
        ensures { result ≡ self.now }
    {
        self.seed
    }

    /// Returns the state as little-endian bytes.
    #[inline]
    pub const fn state(&self) -> [u8; 8]
        ensures { result ≡ to_le_bytes w64 self.now }
    {
        self.number().to_le_bytes()
    }

    /// Returns the next word.
    #[inline]
    pub fn next(&mut self) -> u64
        ensures state { self.new ≡ state_after self.old 1 }
        ensures word { result ≡ word_at self.old 1 }
    {
        rapidrng_fast(&mut self.seed)
    }

    /// Returns how many steps lead from this state to the other's. There is always such a number
    /// below 2^64, and any other number of steps that leads there is equal to it modulo 2^64.
    ///
    /// ```
    /// use rapidhash::rng::RapidRng;
    ///
    /// let start = RapidRng::new(42);
    /// let mut later = start;
    /// later.next();
    /// assert_eq!(start.steps_to(&later), 1);
    /// ```
    pub const fn steps_to(&self, other: &RapidRng) -> u64
        ensures below { result < 2 ^ 64 }
        ensures leads { state_after self.now result ≡ other.now }
        ensures only { (steps : ℕ) → state_after self.now steps ≡ other.now →
            steps % 2 ^ 64 ≡ result }
    {
        let distance = other.seed.wrapping_sub(self.seed);
        distance.wrapping_mul(INVERSE)
    }
}

impl SeedableRng for RapidRng {
    type Seed = [u8; 8];

    ghost of_seed = { from_le_bytes w64 };

    ghost seed_of_u64 = { to_le_bytes w64 };

    /// Returns the generator whose [`RapidRng::state`] is `seed`.
    #[inline]
    fn from_seed(seed: [u8; 8]) -> RapidRng {
        RapidRng::new(u64::from_le_bytes(seed))
    }

    /// Returns the generator of [`RapidRng::new`].
    #[inline]
    fn seed_from_u64(state: u64) -> RapidRng
        ensures seeded { result ≡ from_le_bytes w64 (to_le_bytes w64 state) }
        ensures same { result ≡ state }
    {
        RapidRng::from_seed(state.to_le_bytes())
    }
}

impl NextWord<u64> for RapidRng {
    ghost step = { next_word };

    #[inline]
    fn next_word(&mut self) -> u64 {
        RapidRng::next(self)
    }
}

impl Rng for RapidRng {
    ghost stream = { generator_stream };

    /// Returns the low half of the next word.
    #[inline]
    fn next_u32(&mut self) -> u32
        ensures stream { (result, generator_stream self.new)
            ≡ next_u32 (generator_stream self.old) }
        ensures low { result ≡ word_at self.old 1 % 2 ^ 32 }
        ensures state { self.new ≡ state_after self.old 1 }
    {
        (self.next() % 0x1_0000_0000) as u32
    }

    /// Returns the next word.
    #[inline]
    fn next_u64(&mut self) -> u64
        ensures stream { (result, generator_stream self.new)
            ≡ next_u64 (generator_stream self.old) }
        ensures word { result ≡ word_at self.old 1 }
        ensures state { self.new ≡ state_after self.old 1 }
    {
        self.next()
    }

    /// Writes the first bytes of the next words, each in little-endian order. One word is drawn per
    /// 8 bytes, rounded up; the rest of the last word is dropped.
    #[inline]
    fn fill_bytes(&mut self, dst: &mut [u8])
        ensures stream { (dst.new, generator_stream self.new)
            ≡ fill_bytes (length dst.old) (generator_stream self.old) }
        ensures bytes { dst.new ≡ first_bytes_of self.old (length dst.old) }
        ensures state { self.new ≡ state_after self.old (words_for (length dst.old)) }
    {
        let _state = self.number();
        utils::fill_bytes_via_u64(self, dst)
    }
}
