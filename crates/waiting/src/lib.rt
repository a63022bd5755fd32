// Movements that wait (document 02, #108): dispatchers enter movements before any block has them, and strike them out. Its four slices are
// four parameters, as C lends them: three of the five calls change the fourth.
#![tactic(auto)]

ghost use Rattle.std.specs.Prelude.{◌≡◌, ◌≤◌, length, IfOk};
ghost use Rattle.protocol.specs.Memory.{memory, replica_count, fault_bound};
ghost use Rattle.protocol.specs.Outcome.{number_in, first_refusal};
ghost use Rattle.entries.specs.Entries.{waiting_words, max_waiting, waiting_count, entries};
ghost use Rattle.entries.specs.Waiting.{
  lent,
  form_needs,
  departure_needs,
  Open,
  Enter,
  Withdraw,
  Ask,
  waiting_step,
  waiting_outcome,
  matching,
};
ghost use Rattle.arrivals.specs.inner.Found.{FirstWith};
ghost use Rattle.waiting.specs.inner.Parts.{listed_needs, Leavable, left_by, Fitting, movement_fits};

use checks::{accepted, need};
use entries::{Entry, MAX_WAITING, WAITING_COUNT_AT, WAITING_WORDS};
use movements::{MOVEMENT_WORDS, Movement};
use protocol::{Answer, Refusal};
use table::{BLOCK_COUNT_AT, FAULT_BOUND_AT};

// A place's word, once the place has taken an entry out: a word of the slice that C lends.
const USED: u32 = 1;

// The form of the ledger's slices, and of the further one (1); then how many replicas there are.
#[tactic(auto, unfolding(protocol::specs::Outcome::first_refusal))]
fn test_form(table: &[u32], log: &[u32], blocks: &[u32], waiting: &[u32]) -> Result<u32, Refusal>
    ensures refusal { number_in result
        ≡ first_refusal (form_needs (lent (memory table.now log.now blocks.now) waiting.now)) }
    ensures counted { IfOk result (λ n. n ≡ replica_count (fault_bound (memory table.now log.now blocks.now))) }
{
    need(form::is_well_formed(table, log, blocks), Refusal::WrongForm)?;
    let replicas = table::replica_count(table[FAULT_BOUND_AT]);
    need(arrivals::is_formed(waiting, replicas), Refusal::WrongForm)?;
    Ok(replicas)
}

// A ledger for f with nothing waiting, whatever the memory held: opening, with the further slice's length tested last. Where it is another,
// nothing may be written, so the two tests that come before it are made here.
pub fn open_waiting(
    table: &mut [u32],
    log: &mut [u32],
    blocks: &mut [u32],
    waiting: &mut [u32],
    f: u32,
    steps: &[u32],
) -> Answer
    ensures { waiting_outcome result table.new log.new blocks.new waiting.new
        ≡ waiting_step (lent (memory table.old log.old blocks.old) waiting.old)
        (Open f steps.now) }
{
    if waiting.len() != WAITING_WORDS {
        need(form::is_fault_bound(f), Refusal::OutOfRange)?;
        need(counter::steps_allowed(steps), Refusal::WrongSteps)?;
        return Err(Refusal::WrongForm);
    }
    let values = opening::open_ledger(table, log, blocks, f, steps)?;
    arrivals::clear(waiting);
    Ok(values)
}

// A movement that no block has yet begins to wait.
pub fn enter(table: &[u32], log: &[u32], blocks: &[u32], waiting: &mut [u32], e: Entry) -> Answer
    ensures { waiting_outcome result table.now log.now blocks.now waiting.new
        ≡ waiting_step (lent (memory table.now log.now blocks.now) waiting.old) (Enter e) }
{
    let replicas = test_form(table, log, blocks, waiting)?;
    need(arrivals::is_allowed(e, replicas), Refusal::WrongMovement)?;
    let count = waiting[WAITING_COUNT_AT];
    let same = arrivals::find(waiting, e.identity, count as usize);
    need(same.is_none(), Refusal::WrongIdentity)?;
    need(count < MAX_WAITING, Refusal::WaitingFull)?;
    arrivals::append(waiting, e);
    arrivals::refresh(waiting, e.taker);
    accepted(0, 0)
}

// The slot of the entry of an identity (13).
#[tactic(auto, unfolding(protocol::specs::Outcome::first_refusal), using(arrivals::proofs::Finding::waits))]
fn find_slot(waiting: &[u32], identity: u32) -> Result<usize, Refusal>
    requires { (length waiting.now ≡ waiting_words) × (waiting_count waiting.now ≤ max_waiting) }
    ensures refusal { number_in result ≡ first_refusal (departure_needs (entries waiting.now) identity) }
    ensures found { IfOk result (λ slot. FirstWith waiting.now identity (waiting_count waiting.now) slot) }
{
    let count = waiting[WAITING_COUNT_AT] as usize;
    arrivals::find(waiting, identity, count).ok_or(Refusal::WrongIdentity)
}

// The entry of a slot leaves.
#[tactic(auto, using(crate::proofs::Leaving::left_refreshable))]
fn leave(waiting: &mut [u32], slot: usize)
    requires { Leavable waiting.old slot }
    ensures { waiting.new ≡ left_by waiting.old slot }
{
    let taker = arrivals::entry_in(waiting, slot).taker;
    arrivals::take_out(waiting, slot);
    arrivals::refresh(waiting, taker);
}

// The entry of an identity is struck out.
pub fn withdraw(
    table: &[u32],
    log: &[u32],
    blocks: &[u32],
    waiting: &mut [u32],
    identity: u32,
) -> Answer
    ensures { waiting_outcome result table.now log.now blocks.now waiting.new
        ≡ waiting_step (lent (memory table.now log.now blocks.now) waiting.old)
        (Withdraw identity) }
{
    test_form(table, log, blocks, waiting)?;
    let slot = find_slot(waiting, identity)?;
    leave(waiting, slot);
    accepted(0, 0)
}

// The needs of a match before its identity: forms (1), replica (2), place (3), every movement of the list (11).
#[tactic(auto, unfolding(protocol::specs::Outcome::first_refusal))]
fn test_movements(
    table: &[u32],
    log: &[u32],
    blocks: &[u32],
    waiting: &[u32],
    movements: &[u32],
    replica: u32,
    place: u32,
) -> Result<(), Refusal>
    ensures { number_in result
        ≡ first_refusal (listed_needs (lent (memory table.now log.now blocks.now) waiting.now)
        movements.now replica place) }
{
    need(movements::is_movement_list(movements), Refusal::WrongForm)?;
    let replicas = test_form(table, log, blocks, waiting)?;
    need(replica < replicas, Refusal::OutOfRange)?;
    let listed = movements.len() / MOVEMENT_WORDS;
    need((place as usize) < listed, Refusal::UnknownNumber)?;
    let allowed = movements::all_allowed(movements, replicas, table[BLOCK_COUNT_AT]);
    need(allowed, Refusal::WrongMovement)
}

// Whether a movement is of the entry in a slot, its place unused, and its block in the line of a replica's decided block.
#[tactic(auto, unfolding(protocol::specs::Form::all_hold))]
fn fits(
    table: &[u32],
    blocks: &[u32],
    waiting: &[u32],
    x: Movement,
    replica: u32,
    slot: usize,
    place: u32,
) -> bool
    requires { Fitting table.now blocks.now waiting.now replica slot place }
    ensures { result ≡ movement_fits table.now blocks.now waiting.now x replica slot place }
{
    let e = arrivals::entry_in(waiting, slot);
    x.transfer() == e.transfer()
        && waiting[arrivals::place_at(place)] == 0
        && ancestry::is_ancestor(
            blocks,
            x.block,
            records::replica_in(table, replica).decided_block,
        )
}

// The entry of an identity leaves for the movement at a place of the list, and the place is used.
pub fn match_entry(
    table: &[u32],
    log: &[u32],
    blocks: &[u32],
    waiting: &mut [u32],
    movements: &[u32],
    replica: u32,
    identity: u32,
    place: u32,
) -> Answer
    ensures { record {
      outcome = waiting_outcome result table.now log.now blocks.now waiting.new;
      movements = movements.now;
    }
        ≡ matching (lent (memory table.now log.now blocks.now) waiting.old)
        movements.now replica identity place }
{
    test_movements(table, log, blocks, waiting, movements, replica, place)?;
    let slot = find_slot(waiting, identity)?;
    let x = movements::movement_in(movements, place as usize);
    let fitting = fits(table, blocks, waiting, x, replica, slot, place);
    need(fitting, Refusal::WrongCertificate)?;
    leave(waiting, slot);
    waiting[arrivals::place_at(place)] = USED;
    accepted(0, 0)
}

// The pallets waiting for a taker, and the identity of the earliest arrival: the two words that are kept of it.
pub fn ask(table: &[u32], log: &[u32], blocks: &[u32], waiting: &[u32], taker: u32) -> Answer
    ensures { waiting_outcome result table.now log.now blocks.now waiting.now
        ≡ waiting_step (lent (memory table.now log.now blocks.now) waiting.now) (Ask taker) }
{
    let replicas = test_form(table, log, blocks, waiting)?;
    need(taker < replicas, Refusal::OutOfRange)?;
    let at = arrivals::taker_at(taker);
    accepted(waiting[at], waiting[at + 1])
}
