// The leader of a view: the one place that says which replica it is.
#![tactic(auto)]

ghost use Rattle.std.specs.Prelude.{◌≡◌, ◌≤◌};
ghost use Rattle.protocol.specs.Memory.{max_fault_bound};
ghost use Rattle.protocol.specs.Leader.{leads as leads_rule};

// The lowest view that a replica can enter, and the first that has a leader.
pub const FIRST_VIEW: u32 = 1;

// Whether, with this f, a replica leads a view.
pub fn leads(f: u32, view: u32, replica: u32) -> bool
    requires { f ≤ max_fault_bound }
    ensures { result ≡ leads_rule f view replica }
{
    if view < FIRST_VIEW {
        return false;
    }
    replica == (view - FIRST_VIEW) % table::replica_count(f)
}
