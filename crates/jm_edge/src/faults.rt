// The count of faults that each object of the outside keeps.
ghost use Rattle.std.specs.Prelude.{◌≡◌, ◌≤◌};
ghost use Rattle.jm_edge.specs.Faults.{Rose, one_more};

// One more fault. The count stays at its last value once it is there.
pub fn count_fault(faults: &mut u64)
    ensures count { faults.new ≡ one_more faults.old }
    ensures counted { faults.old ≤ faults.new }
    ensures rose { Rose faults.old faults.new }
{
    *faults = faults.saturating_add(1);
}
