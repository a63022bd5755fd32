// Call codes, as script lines and the C interface have them: a code, a replica, a number and a list give a call, or are refused.
#![tactic(auto)]

ghost use Rattle.std.specs.Prelude.{◌≡◌, [], get_or};
ghost use Rattle.protocol.specs.Memory.{memory, view_at, proposed_block_at};
ghost use Rattle.codes.specs.Codes.{is_plain, is_short as is_short_rule, claimed_word, when, coded_call as coded_call_rule};

use certificate_log::{PROPOSED_BLOCK_AT, VIEW_AT};
use protocol::{Call, Justification, Refusal};
use table::CERTIFICATE_COUNT_AT;

// The most numbers that a list may have.
const MAX_LIST: usize = 31;

// A call without a list, whose unused argument is 0. The two tests are the definitions'.
fn is_plain(unused: u32, list: &[u32]) -> bool
    ensures { result ≡ is_plain unused list.now }
{
    (unused == 0) & list.is_empty()
}

// A call with a list, whose unused argument is 0.
fn is_short(unused: u32, list: &[u32]) -> bool
    ensures { result ≡ is_short_rule unused list.now }
{
    (unused == 0) & (list.len() <= MAX_LIST)
}

// A call where its test holds, as the definition `when` has it.
#[tactic(auto, unfolding(crate::specs::Codes::when))]
fn coded_when(test: bool, call: Call) -> Result<Call, Refusal>
    ensures { result ≡ when test call }
{
    if test {
        Ok(call)
    } else {
        Err(Refusal::Unreadable)
    }
}

// The view and the block that a prepare on commits claims.
#[derive(Clone, Copy)]
struct Claim {
    view: u32,
    block: u32,
}

// A word of a slice, 0 past its end.
fn word_at(words: &[u32], index: usize) -> u32
    ensures { result ≡ get_or words.now index 0 }
{
    *words.get(index).unwrap_or(&0)
}

// Those of the list's first certificate, each where the certificate is issued and the word is there; else 0, as the definition has it.
fn claimed(table: &[u32], log: &[u32], list: &[u32]) -> Claim
    ensures view { result.view ≡ claimed_word (memory table.now log.now []) list.now view_at }
    ensures block { result.block ≡ claimed_word (memory table.now log.now []) list.now proposed_block_at }
{
    let none = Claim { view: 0, block: 0 };
    let Some(&number) = list.first() else {
        return none;
    };
    let Some(&count) = table.get(CERTIFICATE_COUNT_AT) else {
        return none;
    };
    if count <= number {
        return none;
    }
    let start = certificate_log::certificate_at(number);
    Claim {
        view: word_at(log, start + VIEW_AT),
        block: word_at(log, start + PROPOSED_BLOCK_AT),
    }
}

// The call of a code: a `match` on the number, as document 01 names the form, and as the C interface has the codes.
pub fn coded_call(
    table: &[u32],
    log: &[u32],
    code: u32,
    replica: u32,
    number: u32,
    list: &[u32],
) -> Result<Call, Refusal>
    ensures { result ≡ coded_call_rule (memory table.now log.now []) code replica number list.now }
{
    match code {
        0 => coded_when(is_short(number, list), Call::Open(replica)),
        1 => coded_when(is_plain(replica, list), Call::Block(number)),
        2 => coded_when(
            list.len() == 1,
            Call::Prepare(replica, number, Justification::Acc(word_at(list, 0))),
        ),
        3 => {
            let c = claimed(table, log, list);
            coded_when(
                is_short(0, list),
                Call::Prepare(replica, number, Justification::Commits(c.view, c.block)),
            )
        }
        4 => coded_when(is_plain(0, list), Call::Store(replica, number)),
        5 => coded_when(is_plain(0, list), Call::View(replica, number)),
        6 => coded_when(is_short(number, list), Call::Accumulate(replica)),
        7 => coded_when(is_short(number, list), Call::Decide(replica)),
        8 => coded_when(is_plain(number, list), Call::Reboot(replica)),
        9 => coded_when(is_plain(number, list), Call::Reserve(replica)),
        10 => coded_when(is_plain(number, list), Call::Request(replica)),
        11 => coded_when(is_plain(0, list), Call::Reply(replica, number)),
        12 => coded_when(is_short(number, list), Call::Recover(replica)),
        _ => Err(Refusal::Unreadable),
    }
}
