// Quorums: what the calls with a list of certificate numbers ask of it, each in one pass over the list (document 01, "Calls").
#![tactic(auto)]

ghost use Rattle.std.specs.Prelude.{◌^◌, ◌<◌, ◌≡◌, ltb, length};
ghost use Rattle.std.specs.Int.Bits.{bit_or};
ghost use Rattle.protocol.specs.Quorum.{every, is_quorum as is_quorum_rule, is_commit_quorum as is_commit_quorum_rule, is_new_view_quorum as is_new_view_quorum_rule, is_reply_quorum as is_reply_quorum_rule};
ghost use Rattle.quorum.specs.inner.Lists.{
  certificates_in,
  max_signers,
  Listed,
  Tests,
  Greatest,
};
ghost use Rattle.quorum.specs.inner.Signers.{holds};

use certificate_log::{Certificate, Kind, OF_VIEW_AT, certificate_in, certificate_word};

// Whether a signer is among those seen: one bit for each.
fn is_seen(seen: u64, signer: u32) -> bool
    requires { signer < max_signers }
    ensures { result ≡ holds seen signer }
{
    ((seen >> signer) & 1) == 1
}

fn with_signer(seen: u64, signer: u32) -> u64
    requires { signer < max_signers }
    ensures { result ≡ bit_or seen (2 ^ signer) }
{
    seen | (1u64 << signer)
}

// Each certificate is as wanted, and the signers are different.
fn is_quorum<W: Fn(Certificate) -> bool>(log: &[u32], list: &[u32], wanted: W) -> bool
    requires listed { Listed log.now list.now }
    requires callable { W.IsAlwaysCallable wanted }
    ensures { (test : _) → Tests (W.post wanted) test
        → result ≡ is_quorum_rule test (certificates_in log.now list.now) }
{
    let mut ok = true;
    let mut seen = 0;
    for &number in list {
        let c = certificate_in(log, number);
        ok = ok & wanted(c) & !is_seen(seen, c.signer);
        seen = with_signer(seen, c.signer);
    }
    ok
}

// The log and the list stay two parameters: each caller has them apart and asks once or twice, and clauses over a struct of both grow.
pub fn is_commit_quorum(log: &[u32], list: &[u32], view: u32, block: u32) -> bool
    requires { Listed log.now list.now }
    ensures { result ≡ is_commit_quorum_rule view block (certificates_in log.now list.now) }
{
    is_quorum(
        log,
        list,
        |c| c.is(Kind::Commit) & (c.view == view) & (c.block == block),
    )
}

pub fn is_new_view_quorum(log: &[u32], list: &[u32], view: u32) -> bool
    requires { Listed log.now list.now }
    ensures { result ≡ is_new_view_quorum_rule view (certificates_in log.now list.now) }
{
    is_quorum(log, list, |c| c.is(Kind::NewView) & (c.view == view))
}

pub fn is_reply_quorum(log: &[u32], list: &[u32], replica: u32, boot: u32, view: u32) -> bool
    requires { Listed log.now list.now }
    ensures { result ≡ is_reply_quorum_rule replica boot view (certificates_in log.now list.now) }
{
    is_quorum(log, list, |c| {
        c.is(Kind::Reply)
            & (c.subject == replica)
            & (c.subject_boot == boot)
            & (c.view == view)
            & (c.signer != replica)
    })
}

// Every number of the list is below the count of issued certificates.
pub fn all_issued(list: &[u32], count: u32) -> bool
    ensures { result ≡ every (λ x. ltb x count) list.now }
{
    list.iter().all(|&number| number < count)
}

// Which of the list has the greatest of-view, the first if there are several.
pub fn greatest(log: &[u32], list: &[u32]) -> usize
    requires { Listed log.now list.now × (0 < length list.now) }
    ensures { Greatest log.now list.now result }
{
    let mut best = 0;
    let mut best_view = certificate_word(log, list[0], OF_VIEW_AT);
    for (i, &number) in list.iter().enumerate() {
        let of_view = certificate_word(log, number, OF_VIEW_AT);
        if best_view < of_view {
            best = i;
            best_view = of_view;
        }
    }
    best
}
