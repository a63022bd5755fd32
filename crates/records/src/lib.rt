// Replicas read whole, as records, so that each word is read once; and words of a replica set together.
#![tactic(auto)]

ghost use Rattle.std.specs.Prelude.{◌≡◌, [], ◌+◌, ◌≤◌, eqb, length};
ghost use Rattle.protocol.specs.Memory.{
  memory,
  row_at,
  replica_words,
  replica as replica_at,
  assign,
};
ghost use Rattle.table.specs.inner.Words.{status_word, flag_word};
ghost use Rattle.records.specs.inner.Replicas.{replica_from, assignments, Settable};

use table::{Flag, Status, replica_word, set_replica_word};

// The words of a row as they stand there: which of them are a status or a flag, the form says.
#[derive(Clone, Copy)]
pub struct Replica {
    pub status: u32,
    pub boot: u32,
    pub min_view: u32,
    pub view_limit: u32,
    pub flag: u32,
    pub stored_view: u32,
    pub stored_block: u32,
    pub decided_view: u32,
    pub decided_block: u32,
}

impl Replica {
    pub fn is(self, status: Status) -> bool
        ensures { result ≡ eqb self.status (status_word status) }
    {
        self.status == status.word()
    }

    pub fn has(self, flag: Flag) -> bool
        ensures { result ≡ eqb self.flag (flag_word flag) }
    {
        self.flag == flag.word()
    }
}

pub fn replica_in(table: &[u32], replica: u32) -> Replica
    requires { row_at replica + replica_words ≤ length table.now }
    ensures { result ≡ replica_from (replica_at (memory table.now [] []) replica) }
{
    Replica {
        status: replica_word(table, replica, table::STATUS_AT),
        boot: replica_word(table, replica, table::BOOT_AT),
        min_view: replica_word(table, replica, table::MIN_VIEW_AT),
        view_limit: replica_word(table, replica, table::VIEW_LIMIT_AT),
        flag: replica_word(table, replica, table::FLAG_AT),
        stored_view: replica_word(table, replica, table::STORED_VIEW_AT),
        stored_block: replica_word(table, replica, table::STORED_BLOCK_AT),
        decided_view: replica_word(table, replica, table::DECIDED_VIEW_AT),
        decided_block: replica_word(table, replica, table::DECIDED_BLOCK_AT),
    }
}

// Sets words of a replica, each by its offset in the row.
pub fn set_words(table: &mut [u32], replica: u32, words: &[(usize, u32)])
    requires replica_words_in_bounds { row_at replica + replica_words ≤ length table.old }
    requires settable { Settable words.now }
    ensures { table.new ≡ assign table.old (row_at replica) (assignments words.now) }
{
    for &(offset, value) in words {
        set_replica_word(table, replica, offset, value);
    }
}
