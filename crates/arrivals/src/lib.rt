// The further slice's words (document 02, #108): its form; finding an entry, appending one and taking one out; the two words of a taker.
#![tactic(auto)]

ghost use Rattle.std.specs.Prelude.{◌≡◌, [], ◌∷◌, ◌++◌, ◌+◌, ◌*◌, ◌≤◌, ◌<◌, length, replicate};
ghost use Rattle.std.proofs.lemmas.List.Edits.{sets};
ghost use Rattle.protocol.specs.Form.{all_below};
ghost use Rattle.protocol.specs.inner.Groups.{any_holds};
ghost use Rattle.movements.specs.Movements.{max_pallets};
ghost use Rattle.entries.specs.Entries.{
  max_waiting,
  waiting_words,
  waiting_count,
  entry_at,
  kept_pallets_at,
  place_at as place_at_rule,
  entry,
  entries,
  entry_allowed,
  waiting_formed,
  words_of,
  holding,
  refreshed,
};
ghost use Rattle.arrivals.specs.inner.Found.{HasSlot, HasSlots, Found, has_identity, closed_up, Removable, Refreshable, tallied, tally_of};

use entries::{
    ENTRIES_AT, ENTRY_GIVER_AT, ENTRY_PALLETS_AT, ENTRY_TAKER_AT, ENTRY_WIDTH, Entry, IDENTITY_AT,
    MAX_WAITING, PLACES_AT, TAKER_WORDS, TAKERS_AT, WAITING_COUNT_AT, WAITING_WORDS,
};

// How many entries a search looks at in one turn.
const GROUP: usize = 4;

// Where an entry's words start, where a taker's, and where a place's word stands.
fn entry_at(slot: usize) -> usize
    requires { entry_at slot ≤ waiting_words }
    ensures { result ≡ entry_at slot }
{
    ENTRIES_AT + ENTRY_WIDTH * slot
}

pub fn taker_at(taker: u32) -> usize
    ensures { result ≡ kept_pallets_at taker }
{
    TAKERS_AT + TAKER_WORDS * (taker as usize)
}

pub fn place_at(place: u32) -> usize
    ensures { result ≡ place_at_rule place }
{
    PLACES_AT + (place as usize)
}

// The entry of a slot.
pub fn entry_in(waiting: &[u32], slot: usize) -> Entry
    requires { HasSlot waiting.now slot }
    ensures { result ≡ entry waiting.now slot }
{
    let at = entry_at(slot);
    Entry {
        identity: waiting[at + IDENTITY_AT],
        giver: waiting[at + ENTRY_GIVER_AT],
        taker: waiting[at + ENTRY_TAKER_AT],
        pallets: waiting[at + ENTRY_PALLETS_AT],
    }
}

// Whether an entry keeps the rules, where there are so many replicas.
pub fn is_allowed(e: Entry, replicas: u32) -> bool
    ensures { result ≡ entry_allowed replicas e }
{
    (e.identity != 0) & e.transfer().is_allowed(replicas)
}

// Every entry below a count. Without a branch: leaving at the first that fails is slower.
fn entries_formed(waiting: &[u32], count: usize, replicas: u32) -> bool
    requires { HasSlots waiting.now count }
    ensures { result ≡ all_below count (λ k. entry_allowed replicas (entry waiting.now k)) }
{
    (0..count).fold(true, |formed, slot| {
        formed & is_allowed(entry_in(waiting, slot), replicas)
    })
}

// The form of the slice, where there are so many replicas.
pub fn is_formed(waiting: &[u32], replicas: u32) -> bool
    ensures { result ≡ waiting_formed replicas waiting.now }
{
    waiting.len() == WAITING_WORDS
        && waiting[WAITING_COUNT_AT] <= MAX_WAITING
        && entries_formed(waiting, waiting[WAITING_COUNT_AT] as usize, replicas)
}

// The identity of the entry in a slot.
fn identity_in(waiting: &[u32], slot: usize) -> u32
    requires { HasSlot waiting.now slot }
    ensures { result ≡ (entry waiting.now slot).identity }
{
    waiting[entry_at(slot) + IDENTITY_AT]
}

// Whether one of four entries, from a slot on, has an identity: four tests in four lines, as few as a loop would take.
fn four_have(waiting: &[u32], identity: u32, slot: usize) -> bool
    requires { HasSlots waiting.now (slot + 4) }
    ensures { result ≡ any_holds (has_identity waiting.now identity slot ∷ has_identity waiting.now identity (slot + 1)
        ∷ has_identity waiting.now identity (slot + 2) ∷ has_identity waiting.now identity (slot + 3) ∷ []) }
{
    (identity_in(waiting, slot) == identity)
        | (identity_in(waiting, slot + 1) == identity)
        | (identity_in(waiting, slot + 2) == identity)
        | (identity_in(waiting, slot + 3) == identity)
}

// The slot of the first entry of an identity: four entries a turn, and from the first four that have it one by one, which is quicker than
// one by one from the start.
pub fn find(waiting: &[u32], identity: u32, count: usize) -> Option<usize>
    requires { HasSlots waiting.now count }
    ensures { Found waiting.now identity count result }
{
    let groups = count / GROUP;
    let passed = (0..groups)
        .find(|group| four_have(waiting, identity, GROUP * *group))
        .unwrap_or(groups);
    (GROUP * passed..count).find(|slot| identity_in(waiting, *slot) == identity)
}

// Writes an entry into a slot.
pub fn set_entry(waiting: &mut [u32], slot: usize, e: Entry)
    requires { HasSlot waiting.old slot }
    ensures { waiting.new ≡ sets waiting.old (entry_at slot) (words_of e) }
{
    let at = entry_at(slot);
    waiting[at + IDENTITY_AT] = e.identity;
    waiting[at + ENTRY_GIVER_AT] = e.giver;
    waiting[at + ENTRY_TAKER_AT] = e.taker;
    waiting[at + ENTRY_PALLETS_AT] = e.pallets;
}

// One entry more, after the last.
pub fn append(waiting: &mut [u32], e: Entry)
    requires { (length waiting.old ≡ waiting_words) × (waiting_count waiting.old < max_waiting) }
    ensures { waiting.new ≡ holding waiting.old (entries waiting.old ++ (e ∷ [])) }
{
    let count = waiting[WAITING_COUNT_AT];
    set_entry(waiting, count as usize, e);
    waiting[WAITING_COUNT_AT] = count + 1;
}

// The entry of a slot leaves, and those after it move up.
pub fn take_out(waiting: &mut [u32], slot: usize)
    requires { Removable waiting.old slot }
    ensures { waiting.new ≡ holding waiting.old (closed_up waiting.old slot) }
{
    let count = waiting[WAITING_COUNT_AT];
    waiting.copy_within(entry_at(slot + 1)..entry_at(count as usize), entry_at(slot));
    waiting[WAITING_COUNT_AT] = count - 1;
}

// What some entries, up to the last, tell of a taker: the pallets waiting, and the identity of the earliest arrival.
#[derive(Clone, Copy)]
struct TakerTally {
    pallets: u32,
    // 0 where there is none, as the kept word is
    earliest: u32,
}

// The same with the entry before them.
fn with_entry(later: TakerTally, e: Entry, taker: u32) -> TakerTally
    requires { later.pallets + e.pallets ≤ max_waiting * max_pallets }
    ensures { result ≡ tallied later e taker }
{
    if e.taker == taker {
        return TakerTally {
            pallets: e.pallets + later.pallets,
            earliest: e.identity,
        };
    }
    later
}

// Of all entries: from the last to the first, so that the earliest is the last that is kept.
fn tally(waiting: &[u32], taker: u32) -> TakerTally
    requires { Refreshable waiting.now taker }
    ensures { result ≡ tally_of taker (entries waiting.now) }
{
    let mut so_far = TakerTally {
        pallets: 0,
        earliest: 0,
    };
    for slot in (0..waiting[WAITING_COUNT_AT] as usize).rev() {
        so_far = with_entry(so_far, entry_in(waiting, slot), taker);
    }
    so_far
}

// Writes the two words of a taker anew.
pub fn refresh(waiting: &mut [u32], taker: u32)
    requires { Refreshable waiting.old taker }
    ensures { waiting.new ≡ refreshed waiting.old taker }
{
    let kept = tally(waiting, taker);
    let at = taker_at(taker);
    waiting[at] = kept.pallets;
    waiting[at + 1] = kept.earliest;
}

// Every word 0.
pub fn clear(waiting: &mut [u32])
    ensures { waiting.new ≡ replicate (length waiting.old) 0 }
{
    waiting.fill(0);
}
