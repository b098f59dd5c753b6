//! What holds of the definitions, whatever the calls. These functions do nothing: their clauses are
//! the laws.
ghost use Rattle.gc_free.specs.Laws.{FreeRunsAreTheRest, FreeRunsAreMaximal, BytesAddUp, AllBackLeavesOneRun, CurrentRunIsFree, UsedUpRunStandsApart, EveryListOfCallsIsSound, OrderOfGivingBackIsNothing};

/// A place is free exactly where it is managed and no held block covers it.
pub fn free_runs_are_the_rest()
    ensures { FreeRunsAreTheRest }
{}

/// Between two free runs there is always a place that isn't free.
pub fn free_runs_are_maximal()
    ensures { FreeRunsAreMaximal }
{}

/// Free and held bytes add up to the managed bytes.
pub fn bytes_add_up()
    ensures { BytesAddUp }
{}

/// Once all blocks are back, there is at most one free run.
pub fn all_back_leaves_one_run()
    ensures { AllBackLeavesOneRun }
{}

/// A current run with places is one of the free runs.
pub fn current_run_is_free()
    ensures { CurrentRunIsFree }
{}

/// No free run touches the place of a current run that was used up whole.
pub fn used_up_run_stands_apart()
    ensures { UsedUpRunStandsApart }
{}

/// Every list of calls keeps what is true of a new free list, so the laws above always hold.
pub fn every_list_of_calls_is_sound()
    ensures { EveryListOfCallsIsSound }
{}

/// The order in which a batch of blocks is given back changes neither the free runs nor the current
/// one.
pub fn order_of_giving_back_is_nothing()
    ensures { OrderOfGivingBackIsNothing }
{}
