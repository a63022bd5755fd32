// Accumulate makes an ACC of a quorum of NEWVIEWs; decide makes a decision of a quorum of COMMITs.
#![tactic(auto)]

ghost use Rattle.std.specs.Prelude.{◌≡◌};
ghost use Rattle.protocol.specs.Outcome.{outcome, outcome_by};
ghost use Rattle.protocol.specs.Calls.{accumulate as accumulate_rule, decide as decide_rule};

use certificate_log::{Certificate, Kind, VIEW_AT, certificate_in, certificate_word};
use checks::{accepted, need};
use issuing::issue;
use protocol::{Answer, Refusal};
use table::{DECIDED_BLOCK_AT, DECIDED_VIEW_AT, Status};

// A quorum of NEWVIEWs of one view gives an ACC of the greatest of-view.
pub fn accumulate(
    table: &mut [u32],
    log: &mut [u32],
    blocks: &mut [u32],
    replica: u32,
    list: &[u32],
) -> Answer
    ensures { outcome result table.new log.new blocks.new
        ≡ outcome_by (λ m. accumulate_rule m replica list.now) table.old log.old blocks.old }
{
    let r = checks::find_replica(table, log, blocks, replica)?;
    checks::test_list(table, list)?;
    need(r.is(Status::Live), Refusal::WrongStatus)?;
    let view = certificate_word(log, list[0], VIEW_AT);
    let agreed = quorum::is_new_view_quorum(log, list, view);
    need(agreed, Refusal::WrongCertificate)?;
    let best = quorum::greatest(log, list);
    let c = certificate_in(log, list[best]);
    let acc = Certificate {
        view,
        block: c.block,
        of_view: c.of_view,
        ..Certificate::signed(Kind::Acc, replica, r.boot)
    };
    issue(table, log, replica, &[], acc)
}

// A quorum of COMMITs of one view and block decides the block; the replica shows it where its view is above the decided view.
pub fn decide(
    table: &mut [u32],
    log: &mut [u32],
    blocks: &mut [u32],
    replica: u32,
    list: &[u32],
) -> Answer
    ensures { outcome result table.new log.new blocks.new
        ≡ outcome_by (λ m. decide_rule m replica list.now) table.old log.old blocks.old }
{
    let r = checks::find_replica(table, log, blocks, replica)?;
    checks::test_list(table, list)?;
    let c = certificate_in(log, list[0]);
    let matching = quorum::is_commit_quorum(log, list, c.view, c.block);
    need(matching, Refusal::WrongCertificate)?;
    if r.decided_view < c.view {
        let words = [(DECIDED_VIEW_AT, c.view), (DECIDED_BLOCK_AT, c.block)];
        records::set_words(table, replica, &words);
    }
    accepted(c.block, c.view)
}
