// What the code and the definitions share: a call, the answer to it, and what lets a leader propose.
#![tactic(auto)]

ghost use Rattle.std.specs.Prelude.{◌≡◌};
ghost use Rattle.protocol.specs.Outcome.{number_of, number_in as number_in_rule, values_in as values_in_rule};

// The two values of an accepted call.
#[derive(Clone, Copy)]
pub struct Values {
    pub first: u32,
    pub second: u32,
}

// Why a call is refused, with the number that it returns: the rows of the table under "Calls" in document 01, then those of document 02.
// The names are those of the definitions in specs/Outcome.antt.
#[derive(Clone, Copy, PartialEq, Eq)]
pub enum Refusal {
    WrongForm = 1,
    OutOfRange = 2,
    UnknownNumber = 3,
    WrongStatus = 4,
    WrongCertificate = 5,
    WrongBlock = 6,
    WrongView = 7,
    CounterLimit = 8,
    NoRoom = 9,
    // "script line unreadable": for a line or a code that gives no call.
    Unreadable = 10,
    // "a movement outside these rules" (document 02, #101): for a netting, and for entries that wait.
    WrongMovement = 11,
    // "steps that break these rules or aren't eight" (document 02, #104): for an opening.
    WrongSteps = 12,
    // "an identity already waiting, or not waiting when it should leave or be matched", "512 waiting" (document 02, #108).
    WrongIdentity = 13,
    WaitingFull = 14,
}

impl Refusal {
    // The number that document 01 gives it.
    pub fn number(self) -> u32
        ensures { result ≡ number_of self }
    {
        self as u32
    }
}

// What a call answers.
pub type Answer = Result<Values, Refusal>;

// The number that an accepted call returns.
pub const ACCEPTED: u32 = 0;

// The number that a call returns, whatever it gives: that of its refusal, where it is refused.
pub fn number_in<T: Copy>(given: Result<T, Refusal>) -> u32
    ensures { result ≡ number_in_rule given }
{
    match given {
        Ok(_) => ACCEPTED,
        Err(refusal) => refusal.number(),
    }
}

// The two values that it returns: zeros, where it is refused.
pub fn values_in(answer: Answer) -> Values
    ensures { result ≡ values_in_rule answer }
{
    answer.unwrap_or(Values {
        first: 0,
        second: 0,
    })
}

// What lets a leader propose (document 01: the ground of a proposal): the number of an ACC, or the view and the block of a
// commit quorum, whose numbers are the list beside the call.
#[derive(Clone, Copy)]
pub enum Justification {
    Acc(u32),
    Commits(u32, u32),
}

// The twelve calls of document 01. A replica comes first, where the call has one. The list that some calls have stands beside the call: a
// pool's own steps at an Open, certificate numbers at a Prepare on commits, Accumulate, Decide and Recover. Any other call, and a Prepare
// on an ACC, passes over what stands there.
#[derive(Clone, Copy)]
pub enum Call {
    // f
    Open(u32),
    // the parent
    Block(u32),
    // replica, block, what lets it propose
    Prepare(u32, u32, Justification),
    // replica, the number of a PROP
    Store(u32, u32),
    // replica, view
    View(u32, u32),
    // replica
    Accumulate(u32),
    Decide(u32),
    Reboot(u32),
    Reserve(u32),
    Request(u32),
    // replica, the number of a REQ
    Reply(u32, u32),
    // replica
    Recover(u32),
}
