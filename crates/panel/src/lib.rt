// The front panel of a box.
#![tactic(auto)]

ghost use Rattle.std.specs.Prelude.{◌≡◌};
ghost use Rattle.protocol.specs.Memory.{memory};
ghost use Rattle.protocol.specs.Outcome.{told};
ghost use Rattle.panel.specs.Panel.{panel_answer};

use checks::accepted;
use protocol::Answer;

// What the front panel of a replica's box shows: the height of its decided block.
pub fn panel(table: &[u32], log: &[u32], blocks: &[u32], replica: u32) -> Answer
    ensures { told result ≡ panel_answer (memory table.now log.now blocks.now) replica }
{
    let r = checks::find_replica(table, log, blocks, replica)?;
    accepted(blocks::height(blocks, r.decided_block), 0)
}
