// The calls of a restarted replica and of those that help it (document 01, "Calls"): request, reply, recover.
#![tactic(auto)]

ghost use Rattle.std.specs.Prelude.{◌≡◌};
ghost use Rattle.protocol.specs.Certificates.{req_of, reply_of};
ghost use Rattle.protocol.specs.Outcome.{number_in, first_refusal, outcome, outcome_by};
ghost use Rattle.protocol.specs.Calls.{
  reply_needs,
  request as request_rule,
  reply as reply_rule,
  recover as recover_rule,
};
ghost use Rattle.certificate_log.specs.inner.Certificates.{certificate_of};
ghost use Rattle.records.specs.inner.Replicas.{replica_of};

use certificate_log::{Certificate, Kind};
use checks::{accepted, need};
use issuing::issue;
use protocol::{Answer, Refusal};
use records::Replica;
use table::{FLAG_AT, Flag, MIN_VIEW_AT, STATUS_AT, STORED_BLOCK_AT, STORED_VIEW_AT, Status};

// What a restarted replica asks the others with.
fn req(replica: u32, r: Replica) -> Certificate
    ensures { certificate_of result ≡ req_of replica r.boot r.min_view }
{
    Certificate {
        view: r.min_view,
        subject: replica,
        subject_boot: r.boot,
        ..Certificate::signed(Kind::Req, replica, r.boot)
    }
}

// A restarted replica asks the others.
pub fn request(table: &mut [u32], log: &mut [u32], blocks: &mut [u32], replica: u32) -> Answer
    ensures { outcome result table.new log.new blocks.new
        ≡ outcome_by (λ m. request_rule m replica) table.old log.old blocks.old }
{
    let r = checks::find_replica(table, log, blocks, replica)?;
    need(r.is(Status::Recovering), Refusal::WrongStatus)?;
    issue(table, log, replica, &[], req(replica, r))
}

// The needs of reply that are its own.
#[tactic(auto, unfolding(protocol::specs::Outcome::first_refusal))]
fn test_reply(replica: u32, r: Replica, q: Certificate) -> Result<(), Refusal>
    ensures { number_in result ≡ first_refusal (reply_needs replica (replica_of r) (certificate_of q)) }
{
    need(r.is(Status::Live), Refusal::WrongStatus)?;
    need(q.is(Kind::Req), Refusal::WrongCertificate)?;
    need(q.signer != replica, Refusal::WrongCertificate)?;
    need(q.view <= r.view_limit, Refusal::CounterLimit)
}

// What a replica answers: its stored block, for the one that asked.
fn reply_to(replica: u32, r: Replica, q: Certificate) -> Certificate
    ensures { certificate_of result
        ≡ reply_of replica r.boot q.view r.stored_block r.stored_view q.signer q.subject_boot }
{
    Certificate {
        view: q.view,
        block: r.stored_block,
        of_view: r.stored_view,
        subject: q.signer,
        subject_boot: q.subject_boot,
        ..Certificate::signed(Kind::Reply, replica, r.boot)
    }
}

// Another replica tells what it has stored, and proposes, stores and enters no more below the view that was asked for.
pub fn reply(
    table: &mut [u32],
    log: &mut [u32],
    blocks: &mut [u32],
    replica: u32,
    number: u32,
) -> Answer
    ensures { outcome result table.new log.new blocks.new
        ≡ outcome_by (λ m. reply_rule m replica number) table.old log.old blocks.old }
{
    let r = checks::find_replica(table, log, blocks, replica)?;
    // Document 01 names this form for a certificate that is looked for.
    let found = checks::find_certificate(table, log, number);
    let Ok(q) = found else {
        return Err(found.unwrap_err());
    };
    test_reply(replica, r, q)?;
    let answer = reply_to(replica, r, q);
    if r.min_view < q.view {
        let words = [(MIN_VIEW_AT, q.view), (FLAG_AT, Flag::Lowered.word())];
        return issue(table, log, replica, &words, answer);
    }
    issue(table, log, replica, &[], answer)
}

// A restarted replica is live again, with the stored block of greatest of-view in f+1 replies.
pub fn recover(
    table: &mut [u32],
    log: &mut [u32],
    blocks: &mut [u32],
    replica: u32,
    list: &[u32],
) -> Answer
    ensures { outcome result table.new log.new blocks.new
        ≡ outcome_by (λ m. recover_rule m replica list.now) table.old log.old blocks.old }
{
    let r = checks::find_replica(table, log, blocks, replica)?;
    checks::test_list(table, list)?;
    need(r.is(Status::Recovering), Refusal::WrongStatus)?;
    let replied = quorum::is_reply_quorum(log, list, replica, r.boot, r.min_view);
    need(replied, Refusal::WrongCertificate)?;
    let best = quorum::greatest(log, list);
    let c = certificate_log::certificate_in(log, list[best]);
    let min_view = r.min_view.max(c.of_view + 1);
    need(min_view <= r.view_limit, Refusal::CounterLimit)?;
    let words = [
        (STATUS_AT, Status::Live.word()),
        (MIN_VIEW_AT, min_view),
        (STORED_VIEW_AT, c.of_view),
        (STORED_BLOCK_AT, c.block),
    ];
    records::set_words(table, replica, &words);
    accepted(min_view, c.of_view)
}
