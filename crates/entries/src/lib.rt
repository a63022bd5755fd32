// Entries that wait (document 02, #108): movements of pallets that dispatchers enter before any block has them. Their numbers; the
// definitions and what holds of them are in specs/.
#![tactic(auto)]

ghost use Rattle.std.specs.Prelude.{◌≡◌, [], ◌∷◌};
ghost use Rattle.entries.specs.Entries.{
  max_waiting,
  waiting_count_at,
  takers_at,
  taker_words,
  entries_at,
  entry_width,
  identity_at,
  entry_giver_at,
  entry_taker_at,
  entry_pallets_at,
  places_at,
  waiting_words,
};

use movements::Transfer;

// The identity that its dispatcher gave it, the replica whose firm gives, the one whose firm takes, how many.
#[derive(Clone, Copy)]
pub struct Entry {
    pub identity: u32,
    pub giver: u32,
    pub taker: u32,
    pub pallets: u32,
}

impl Entry {
    pub fn transfer(self) -> Transfer
        ensures { result ≡ record { giver = self.giver; taker = self.taker; pallets = self.pallets } }
    {
        Transfer {
            giver: self.giver,
            taker: self.taker,
            pallets: self.pallets,
        }
    }
}

// C lends the slice as words, and a store keeps them: so where each stands is a number.
pub const MAX_WAITING: u32 = 512;

pub const WAITING_COUNT_AT: usize = 0;

pub const TAKERS_AT: usize = 1;

pub const TAKER_WORDS: usize = 2;

pub const ENTRIES_AT: usize = 123;

pub const ENTRY_WIDTH: usize = 4;

pub const IDENTITY_AT: usize = 0;

pub const ENTRY_GIVER_AT: usize = 1;

pub const ENTRY_TAKER_AT: usize = 2;

pub const ENTRY_PALLETS_AT: usize = 3;

pub const PLACES_AT: usize = 2171;

pub const WAITING_WORDS: usize = 4219;

// The numbers are those of the definitions: nothing calls these three.
pub fn most_waiting() -> u32
    ensures { result ≡ max_waiting }
{
    MAX_WAITING
}

pub fn layout() -> [usize; 7]
    ensures { result
        ≡ waiting_count_at ∷ takers_at ∷ taker_words ∷ entries_at ∷ entry_width ∷ places_at ∷ waiting_words ∷ [] }
{
    [
        WAITING_COUNT_AT,
        TAKERS_AT,
        TAKER_WORDS,
        ENTRIES_AT,
        ENTRY_WIDTH,
        PLACES_AT,
        WAITING_WORDS,
    ]
}

pub fn offsets() -> [usize; ENTRY_WIDTH]
    ensures { result ≡ identity_at ∷ entry_giver_at ∷ entry_taker_at ∷ entry_pallets_at ∷ [] }
{
    [
        IDENTITY_AT,
        ENTRY_GIVER_AT,
        ENTRY_TAKER_AT,
        ENTRY_PALLETS_AT,
    ]
}
