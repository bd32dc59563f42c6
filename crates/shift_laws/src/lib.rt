//! The laws of kernels that are equal but for their tick counts: no step but a delay until a tick
//! count tells them apart. Each function does nothing: its contract is the laws, one a clause.
#![tactic(auto)]

ghost use Rattle.shift_laws.specs.ShiftLaws.{SameShiftedStaysSo, ShiftedStaysShifted, ShiftedRunAlike, MetRunShifted, SameShiftedIsShifted, ShiftedIsSameShifted, SameShiftedIsTested, SameIsSameTick, SameIsUnshifted, MetIsTested, SameShiftedIsAlike, ShiftsAddUp, ShiftByNoTicks, ShiftIsUntimed, LaterIsShifted, LaterIsSound, ShiftedStandsForLater, ShiftedStandsForShifted};

/// Steps of kernels that are equal but for their tick counts.
pub fn laws_of_shifted_steps()
    // Such tables reply equally to every checked step but a delay until a tick count, and stay so.
    ensures same_shifted_stays_so { SameShiftedStaysSo }
    // The ticks between the two stay as many.
    ensures shifted_stays_shifted { ShiftedStaysShifted }
    // Checked steps, none of which is such a delay, have equal replies, running tasks and tallies
    // from both, and lead to states as many ticks apart at each place.
    ensures shifted_run_alike { ShiftedRunAlike }
    // So it is from any two tables that the test of a meeting finds met.
    ensures met_run_shifted { MetRunShifted }
{}

/// Equality but for the tick counts.
pub fn laws_of_shifted_equality()
    // It is a shift by the ticks from the one tick count to the other, and each shift leaves it.
    ensures same_shifted_is_shifted { SameShiftedIsShifted }
    ensures shifted_is_same_shifted { ShiftedIsSameShifted }
    // The tests that compute, of it and of a meeting, tell just whether it holds.
    ensures same_shifted_is_tested { SameShiftedIsTested }
    ensures met_is_tested { MetIsTested }
    // With equal tick counts it is equality, which is a shift by no ticks.
    ensures same_is_same_tick { SameIsSameTick }
    ensures same_is_unshifted { SameIsUnshifted }
    // What can be seen of two sound tables is so equal exactly where the tables are alike pair by
    // pair, but for the tick counts.
    ensures same_shifted_is_alike { SameShiftedIsAlike }
{}

/// Shifts of what can be seen, and tables that are moved in time.
pub fn laws_of_shifts()
    // Shifts add up, one by no ticks changes nothing, and each changes the tick count alone.
    ensures shifts_add_up { ShiftsAddUp }
    ensures shift_by_no_ticks { ShiftByNoTicks }
    ensures shift_is_untimed { ShiftIsUntimed }
    // A table whose tick count, wakes and deadlines are so many ticks later shows the shift, and is
    // sound where the table is: so a shifted kernel stands for it, and for each sound table that
    // shows the same.
    ensures later_is_shifted { LaterIsShifted }
    ensures later_is_sound { LaterIsSound }
    ensures shifted_stands_for_later { ShiftedStandsForLater }
    ensures shifted_stands_for_shifted { ShiftedStandsForShifted }
{}
