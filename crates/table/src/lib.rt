// The table (document 01, "Memory"): its numbers, and where a replica's words stand, how they are read and written. The numbers have the
// names of protocol/specs/, in upper case, and so have those of the log, the blocks, the counter and filing, each beside what it describes;
// the movements' those of movements/specs/. A function for each group, that nothing calls, holds them to the definitions, and an enum's
// method its numbers: where one differs, the check names it there, before it looks at any crate above.
#![tactic(auto)]

ghost use Rattle.std.specs.Prelude.{◌≡◌, [], ◌∷◌, ◌+◌, ◌≤◌, ◌<◌, length, get_or, set};
ghost use Rattle.protocol.specs.Memory.{
  max_fault_bound,
  replica_count as replica_count_rule,
  ceiling,
  header_words,
  fault_bound_at,
  certificate_count_at,
  block_count_at,
  steps_at,
  step_count,
  row_start,
  row_at as row_at_rule,
  replica_words,
  status_at,
  boot_at,
  min_view_at,
  view_limit_at,
  flag_at,
  stored_view_at,
  stored_block_at,
  decided_view_at,
  decided_block_at,
};
ghost use Rattle.table.specs.inner.Words.{status_word, flag_word};

pub const MAX_FAULT_BOUND: u32 = 30;

pub const MAX_REPLICAS: usize = 61;

// The largest view, view limit and boot.
pub const CEILING: u32 = 1000000;

// The table's header.
pub const HEADER_WORDS: usize = 3;

pub const FAULT_BOUND_AT: usize = 0;

pub const CERTIFICATE_COUNT_AT: usize = 1;

pub const BLOCK_COUNT_AT: usize = 2;

// The counter's steps.
pub const STEPS_AT: usize = HEADER_WORDS;

pub const STEP_COUNT: usize = 8;

// The replicas' rows.
pub const ROW_START: usize = STEPS_AT + STEP_COUNT;

pub const REPLICA_WORDS: usize = 9;

pub const STATUS_AT: usize = 0;

pub const BOOT_AT: usize = 1;

pub const MIN_VIEW_AT: usize = 2;

pub const VIEW_LIMIT_AT: usize = 3;

pub const FLAG_AT: usize = 4;

pub const STORED_VIEW_AT: usize = 5;

pub const STORED_BLOCK_AT: usize = 6;

pub const DECIDED_VIEW_AT: usize = 7;

pub const DECIDED_BLOCK_AT: usize = 8;

#[derive(Clone, Copy, PartialEq, Eq)]
pub enum Status {
    Live = 0,
    Recovering = 1,
    Retired = 2,
}

impl Status {
    // The word of a row that says it.
    pub fn word(self) -> u32
        ensures { result ≡ status_word self }
    {
        self as u32
    }
}

#[derive(Clone, Copy, PartialEq, Eq)]
pub enum Flag {
    Lowered = 0,
    Raised = 1,
}

impl Flag {
    // The word of a row that says it.
    pub fn word(self) -> u32
        ensures { result ≡ flag_word self }
    {
        self as u32
    }
}

// The numbers are those of the definitions: nothing calls these functions.
pub fn limits() -> [u32; 2]
    ensures { result ≡ max_fault_bound ∷ ceiling ∷ [] }
{
    [MAX_FAULT_BOUND, CEILING]
}

pub fn most_replicas() -> usize
    ensures { result ≡ replica_count_rule max_fault_bound }
{
    MAX_REPLICAS
}

pub fn widths() -> [usize; 3]
    ensures { result ≡ header_words ∷ step_count ∷ replica_words ∷ [] }
{
    [HEADER_WORDS, STEP_COUNT, REPLICA_WORDS]
}

pub fn header_offsets() -> [usize; HEADER_WORDS]
    ensures { result ≡ fault_bound_at ∷ certificate_count_at ∷ block_count_at ∷ [] }
{
    [FAULT_BOUND_AT, CERTIFICATE_COUNT_AT, BLOCK_COUNT_AT]
}

pub fn starts() -> [usize; 2]
    ensures { result ≡ steps_at ∷ row_start ∷ [] }
{
    [STEPS_AT, ROW_START]
}

pub fn row_offsets() -> [usize; REPLICA_WORDS]
    ensures { result
        ≡ status_at ∷ boot_at ∷ min_view_at ∷ view_limit_at ∷ flag_at ∷ stored_view_at ∷ stored_block_at ∷ decided_view_at ∷ decided_block_at ∷ [] }
{
    [
        STATUS_AT,
        BOOT_AT,
        MIN_VIEW_AT,
        VIEW_LIMIT_AT,
        FLAG_AT,
        STORED_VIEW_AT,
        STORED_BLOCK_AT,
        DECIDED_VIEW_AT,
        DECIDED_BLOCK_AT,
    ]
}

// The number of replicas. f is a word of the table: for a type with its bound, the bound would have to be shown wherever that word is read.
pub fn replica_count(f: u32) -> u32
    requires { f ≤ max_fault_bound }
    ensures { result ≡ replica_count_rule f }
{
    2 * f + 1
}

// Where a replica's row starts.
pub fn row_at(replica: u32) -> usize
    ensures { result ≡ row_at_rule replica }
{
    ROW_START + REPLICA_WORDS * (replica as usize)
}

// A word of a replica, by its index in the row. The table stays a plain slice: a view of a row would have the same bound, and to write it
// would hold a `&mut`.
pub fn replica_word(table: &[u32], replica: u32, at: usize) -> u32
    requires { row_at_rule replica + at < length table.now }
    ensures { result ≡ get_or table.now (row_at_rule replica + at) 0 }
{
    table[row_at(replica) + at]
}

pub fn set_replica_word(table: &mut [u32], replica: u32, at: usize, value: u32)
    requires { row_at_rule replica + at < length table.old }
    ensures { table.new ≡ set table.old (row_at_rule replica + at) value }
{
    table[row_at(replica) + at] = value;
}
