// Movements of pallets (document 02, #101): their numbers, how one is read from the words lent, and which are allowed.
#![tactic(auto)]

ghost use Rattle.std.specs.Prelude.{◌≡◌, true, [], ◌∷◌, ◌+◌, ◌≤◌, length};
ghost use Rattle.protocol.specs.Form.{all_hold, all_below};
ghost use Rattle.movements.specs.Movements.{
  movement_words,
  movement_block_at,
  giver_at,
  taker_at,
  pallets_at,
  max_pallets,
  max_movements,
  movement_at,
  movement,
  movement_count,
  transfer_tests,
  movement_allowed,
  is_movement_list as is_movement_list_rule,
};

// The block that it stands in, the replica whose firm gave, the one whose firm took, how many.
#[derive(Clone, Copy)]
pub struct Movement {
    pub block: u32,
    pub giver: u32,
    pub taker: u32,
    pub pallets: u32,
}

// What changes hands, whoever enters it and whichever block has it.
#[derive(Clone, Copy, PartialEq, Eq)]
pub struct Transfer {
    pub giver: u32,
    pub taker: u32,
    pub pallets: u32,
}

impl Transfer {
    // Whether it keeps the rules, where there are so many replicas.
    pub fn is_allowed(self, replicas: u32) -> bool
        ensures { result ≡ all_hold (transfer_tests replicas self.giver self.taker self.pallets) }
    {
        (self.giver < replicas)
            & (self.taker < replicas)
            & (self.giver != self.taker)
            & (1 <= self.pallets)
            & (self.pallets <= MAX_PALLETS)
    }
}

impl Movement {
    // The definitions name the three words of a movement and of an entry; so each has them, and not a transfer.
    pub fn transfer(self) -> Transfer
        ensures { result ≡ record { giver = self.giver; taker = self.taker; pallets = self.pallets } }
    {
        Transfer {
            giver: self.giver,
            taker: self.taker,
            pallets: self.pallets,
        }
    }
}

// C lends movements as words: so where each word of one stands is a number.
pub const MOVEMENT_WORDS: usize = 4;

pub const MOVEMENT_BLOCK_AT: usize = 0;

pub const GIVER_AT: usize = 1;

pub const TAKER_AT: usize = 2;

pub const PALLETS_AT: usize = 3;

pub const MAX_PALLETS: u32 = 10000;

pub const MAX_MOVEMENTS: usize = 2048;

// The numbers are those of the definitions: nothing calls these three.
pub fn most_pallets() -> u32
    ensures { result ≡ max_pallets }
{
    MAX_PALLETS
}

pub fn width_and_most() -> [usize; 2]
    ensures { result ≡ movement_words ∷ max_movements ∷ [] }
{
    [MOVEMENT_WORDS, MAX_MOVEMENTS]
}

pub fn offsets() -> [usize; MOVEMENT_WORDS]
    ensures { result ≡ movement_block_at ∷ giver_at ∷ taker_at ∷ pallets_at ∷ [] }
{
    [MOVEMENT_BLOCK_AT, GIVER_AT, TAKER_AT, PALLETS_AT]
}

// Whole movements, and not too many.
pub fn is_movement_list(movements: &[u32]) -> bool
    ensures { result ≡ is_movement_list_rule movements.now }
{
    (movements.len() % MOVEMENT_WORDS == 0) & (movements.len() <= MOVEMENT_WORDS * MAX_MOVEMENTS)
}

// The movement at a place of the list.
pub fn movement_in(movements: &[u32], place: usize) -> Movement
    requires { movement_at place + movement_words ≤ length movements.now }
    ensures { result ≡ movement movements.now place }
{
    let at = MOVEMENT_WORDS * place;
    Movement {
        block: movements[at + MOVEMENT_BLOCK_AT],
        giver: movements[at + GIVER_AT],
        taker: movements[at + TAKER_AT],
        pallets: movements[at + PALLETS_AT],
    }
}

// Whether a movement keeps the rules, where there are so many replicas and so many blocks are added: two words of the table.
pub fn is_allowed(x: Movement, replicas: u32, added: u32) -> bool
    ensures { result ≡ movement_allowed replicas added x }
{
    (x.block != 0) & (x.block < added) & x.transfer().is_allowed(replicas)
}

// Whether every movement of a list does, up to the first that does not.
pub fn all_allowed(movements: &[u32], replicas: u32, added: u32) -> bool
    requires { is_movement_list_rule movements.now ≡ true }
    ensures { result
        ≡ all_below (movement_count movements.now) (λ k. movement_allowed replicas added (movement movements.now k)) }
{
    (0..movements.len() / MOVEMENT_WORDS).all(|place| is_allowed(
        movement_in(movements, place),
        replicas,
        added,
    ))
}
