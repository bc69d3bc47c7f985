//! What holds under the rules. The functions do nothing: what they say are their contracts.

ghost use Rattle.orders_rules.specs.Forgets.{ChildFirstForgets, EarlyReadForgets, IsOurs};
ghost use Rattle.orders_rules.specs.Forgets.{LinuxForgets, NoSecondReadForgets, NoSequenceForgets};

use core_facts::row_stale_run;

/// Under our own rule a step makes what it makes.
pub fn law_ours()
    ensures { IsOurs }
{}

/// Under Linux's rule a timer is forgotten: two CPUs of a leaf go idle at once, and in one order of
/// their steps nobody answers for the first one's timer when all walks are over.
pub fn law_linux_forgets()
    ensures { LinuxForgets }
{
    row_stale_run();
}

/// Where the words are read before the locks are taken a timer is forgotten, in the same case.
pub fn law_early_read_forgets()
    ensures { EarlyReadForgets }
{
    row_stale_run();
}

/// Without the sequence of a group's word a timer is forgotten: the last CPU of a leaf goes idle
/// while another one of that leaf wakes, and an exchange at the top takes the leaf out that is
/// awake, so that nobody answers for what the top knows.
pub fn law_no_sequence_forgets()
    ensures { NoSequenceForgets }
{}

/// Where a failed exchange doesn't read the child again a timer is forgotten, in the same case.
pub fn law_no_second_read_forgets()
    ensures { NoSecondReadForgets }
{}

/// Where the child is read before the group a timer is forgotten, in the same case.
pub fn law_child_first_forgets()
    ensures { ChildFirstForgets }
{}
