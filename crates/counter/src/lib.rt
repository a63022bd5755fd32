// The steps of the monotonic counter (document 01: the meter): those of document 01 or a pool's own, kept in the table.
#![tactic(auto)]

ghost use Rattle.std.specs.Prelude.{◌≡◌, true, List, ℕ, ◌+◌, ◌≤◌, length, get_or};
ghost use Rattle.std.proofs.lemmas.List.Edits.{sets};
ghost use Rattle.protocol.specs.Memory.{memory, step_count, step_at, row_start};
ghost use Rattle.protocol.specs.Form.{max_step, steps_formed as steps_formed_rule};
ghost use Rattle.protocol.specs.Counter.{steps_from, steps_allowed as steps_allowed_rule, counter_step as counter_step_rule};
ghost use Rattle.counter.specs.inner.Rising.{step_in};

use table::{ROW_START, STEP_COUNT, STEPS_AT};

pub const MAX_STEP: u32 = 4096;

const LAST_STEP: u32 = 7;

const DEFAULT_STEPS: [u32; STEP_COUNT] = [64, 64, 128, 128, 256, 256, 512, 1024];

// It is the definition's: nothing calls this.
pub fn largest_step() -> u32
    ensures { result ≡ max_step }
{
    MAX_STEP
}

// The step of a boot; later boots have the last.
pub fn counter_step(table: &[u32], boot: u32) -> u32
    requires { row_start ≤ length table.now }
    ensures { (l b : List ℕ) → result ≡ counter_step_rule (memory table.now l b) boot }
{
    table[STEPS_AT + boot.min(LAST_STEP) as usize]
}

// Eight steps, from an index on, by which the definition goes too. As none is smaller than the one before, it is enough that the first is at
// least 1 and the last at most 4,096.
pub fn steps_formed(words: &[u32], start: usize) -> bool
    requires { start + step_count ≤ length words.now }
    ensures { result ≡ steps_formed_rule (step_in words.now start) }
{
    let steps = &words[start..start + STEP_COUNT];
    steps.is_sorted() & (1 <= steps[0]) & (steps[STEP_COUNT - 1] <= MAX_STEP)
}

// Whether a ledger may be opened with this list: of no steps, or of eight that have their form.
pub fn steps_allowed(list: &[u32]) -> bool
    ensures { result ≡ steps_allowed_rule list.now }
{
    list.is_empty() || (list.len() == STEP_COUNT && steps_formed(list, 0))
}

// The steps that a ledger is opened with, given this list.
fn opening_steps(list: &[u32]) -> &[u32]
    ensures { result.now ≡ steps_from list.now }
{
    if list.is_empty() {
        &DEFAULT_STEPS
    } else {
        list
    }
}

// Writes the steps that a ledger is opened with, and gives the first.
pub fn open_steps(table: &mut [u32], list: &[u32]) -> u32
    requires { (row_start ≤ length table.old) × (steps_allowed_rule list.now ≡ true) }
    ensures { (table.new ≡ sets table.old (step_at 0) (steps_from list.now))
        × (result ≡ get_or (steps_from list.now) 0 0) }
{
    let steps = opening_steps(list);
    // Of a length that the compiler knows, so that it copies without the C library.
    table[STEPS_AT..ROW_START].copy_from_slice(&steps[..STEP_COUNT]);
    steps[0]
}
