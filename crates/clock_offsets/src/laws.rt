//! Laws over the definitions alone: each function does nothing, and its contract is the law.
ghost use Rattle.std.specs.Prelude.{◌≡◌, ℕ, ℤ, pos, ◌+ℤ◌, ◌≤ℤ◌, List};
ghost use Rattle.trace_types.specs.declared.event.Event.{Event};
ghost use Rattle.clock_offsets.specs.declared.machine_clock.MachineClock.{MachineClock};
ghost use Rattle.clock_offsets.specs.MachineClocks.{AreMachineClocks};
ghost use Rattle.clock_offsets.specs.Messages.{IsOneWayDelay, IsLeastDelay};
ghost use Rattle.clock_offsets.specs.Offsets.{IsParent, IsOffset, adjusted_time};

use trace_types::laws::a_list_is_told_in_one_way;

/// States that the clocks of the machines of a trace are told in one way.
pub fn a_trace_has_its_clocks_in_one_way()
    ensures { (events : List Event) (a b : List MachineClock) → AreMachineClocks events a
        → AreMachineClocks events b → a ≡ b }
{
    a_list_is_told_in_one_way::<usize>();
}

/// States that a machine has one offset.
pub fn a_machine_has_one_offset()
    ensures { (events : List Event) (m : List ℕ) (a b : ℤ) → IsOffset events m a
        → IsOffset events m b → a ≡ b }
{}

/// States that no message between a parent and a machine is received, by adjusted times, before it
/// was sent, where the round trip of their least delays is not negative.
pub fn a_message_is_received_after_it_was_sent()
    ensures there { (events : List Event) (k : ℕ) (p m : List ℕ) (a o f g : ℤ)
        → IsParent events k p m → IsOffset events p a → IsOffset events m o
        → IsLeastDelay events p m f → IsLeastDelay events m p g → pos 0 ≤ℤ (f +ℤ g)
        → (d : ℤ) (t : IsOneWayDelay events p m d)
        → adjusted_time t.sender.time a ≤ℤ adjusted_time t.receiver.time o }
    ensures back { (events : List Event) (k : ℕ) (p m : List ℕ) (a o f g : ℤ)
        → IsParent events k p m → IsOffset events p a → IsOffset events m o
        → IsLeastDelay events p m f → IsLeastDelay events m p g → pos 0 ≤ℤ (f +ℤ g)
        → (d : ℤ) (t : IsOneWayDelay events m p d)
        → adjusted_time t.sender.time o ≤ℤ adjusted_time t.receiver.time a }
{}
