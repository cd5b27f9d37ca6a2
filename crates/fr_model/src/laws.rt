//! Laws of the definitions: each is the contract of a function that does nothing.
ghost use Rattle.fr_model.specs.Agree.{MachineAgrees, StartIsRelated, StepKeepsRelated};
ghost use Rattle.fr_model.specs.DefaultLaws.{DefaultIsThreeCalls};
ghost use Rattle.fr_model.specs.DueNotes.{NotesLieApart, NotesWhatIsDue, StuckOrNoted};
ghost use Rattle.fr_model.specs.FailingLaws.{EachFailureHasItsPlace, EachFailureOfATreeHasItsPlace, FailuresLieThere, FinishesOrRefuses, FinishOfDone, FirstByWalkIs, LackingFails, NothingFailsOfDone};
ghost use Rattle.fr_model.specs.FinishLaws.{ClosingKeepsCompletion, ClosingKeepsFailures, ClosingKeepsFailuresOff, ClosingKeepsFinish};
ghost use Rattle.fr_model.specs.GatheringLaws.{DistinctEntriesStay, DistinctItemsStay, NoEntryIsLeftOut, NoItemIsLeftOut, SameIsThere};
ghost use Rattle.fr_model.specs.Laws.{BuildKeepsTokens, CompletesOrFails, CompletesOrLacks, CompletingFits, CompletingKeepsTokens, StartIsWell, StepKeepsConversions, StepKeepsDistinct, StepKeepsOrder, StepKeepsRest, StepKeepsTokens};
ghost use Rattle.fr_model.specs.PathLaws.{ChangingKeepsThePath, EnteringAddsAStep, EnteringAddsItsStep, FinishingKeepsThePath, KeptIsAdmitted, LeavingDropsAStep, PathIsAsDeep};

/// For every field script of fitting values over a table that is plain for the root, whatever the
/// hooks mean, the run of the commands gives a value exactly where the journal completes, and the
/// same one. At the start, and after each fitting call of a field script that is admitted, what
/// stands at each place of the tree is what the journal holds of it.
#[tactic(auto, using(crate::proofs::Runs::machine_agrees, crate::proofs::Runs::start_is_related, crate::proofs::Runs::step_keeps_related))]
pub fn law_agree()
    ensures agree { MachineAgrees }
    ensures start { StartIsRelated }
    ensures step { StepKeepsRelated }
{}

/// Where a place makes a value and becomes whole with it, the tree still makes what it made and what
/// fails in it still fails; and the end of deferred mode is what it was, where the place lies off the
/// way, or the builder works there and it is a conversion.
#[tactic(auto, using(crate::proofs::Closing::closing_keeps_completion, crate::proofs::Closing::closing_keeps_failures, crate::proofs::Closing::closing_keeps_finish, crate::proofs::Closing::closing_keeps_failures_off))]
pub fn law_closing()
    ensures completion { ClosingKeepsCompletion }
    ensures failures { ClosingKeepsFailures }
    ensures finish { ClosingKeepsFinish }
    ensures failures_off { ClosingKeepsFailuresOff }
{}

/// In strict mode a place completes unless it lacks something, and at the end of deferred mode
/// unless it or a place beneath it fails. Over a checked table and with lawful hooks, what completes
/// of a tree that suits its shape fits that shape and keeps its tokens.
#[tactic(auto, using(crate::proofs::CompletedFits::completes_or_lacks, crate::proofs::Failing::completes_or_fails))]
pub fn law_completes()
    ensures or_lacks { CompletesOrLacks }
    ensures or_fails { CompletesOrFails }
    ensures fits { CompletingFits }
    ensures tokens { CompletingKeepsTokens }
{}

/// In a state that is in order, setting a field to its default is entering it, setting it to that
/// and leaving it, made as one call. In any state it is refused just where no field can be named,
/// there is no such field, or the field has no default: with the refusal of the first of these that
/// is so.
#[tactic(auto, using(crate::proofs::Defaulting::sets_to_default))]
pub fn law_default()
    ensures default { DefaultIsThreeCalls }
{}

/// Places are completed one by one at the end of deferred mode, each at its turn: a conversion at
/// that of its source, any other place at its own. What fails is half done and lies off the way, or
/// is a conversion at which the builder works; and such a place that lacks something by itself, its
/// children being whole or holes, fails, at the path of its turn. Each failure is that of such a
/// place, which lacks its kind and has only children that complete or are holes; of a tree that lies
/// off the way as a whole, each is that of a place in it. That end is refused exactly where something
/// fails, or the place at which the builder works lacks something. Once every place off the way is
/// whole or a hole, only that place is left to be finished.
#[tactic(auto, using(crate::proofs::FailingPlaces::each_failure_of_a_tree_has_its_place, crate::proofs::FailingPlaces::finish_of_done, crate::proofs::FailingPlaces::nothing_fails_of_done, crate::proofs::Finishes::finishes_or_refuses))]
pub fn law_failing()
    ensures lie { FailuresLieThere }
    ensures lacking { LackingFails }
    ensures places { EachFailureHasItsPlace }
    ensures places_of_tree { EachFailureOfATreeHasItsPlace }
    ensures first { FirstByWalkIs }
    ensures refuses { FinishesOrRefuses }
    ensures nothing { NothingFailsOfDone }
    ensures done { FinishOfDone }
{}

/// Items of which no two are the same make a set of just these, and entries with distinct keys a
/// map of just these; nothing is left out. Among whole places a value has its like exactly where it
/// has one among their values.
#[tactic(auto, using(crate::proofs::GatheredParts::same_is_there))]
pub fn law_gathering()
    ensures items { DistinctItemsStay }
    ensures items_out { NoItemIsLeftOut }
    ensures entries { DistinctEntriesStay }
    ensures entries_out { NoEntryIsLeftOut }
    ensures same { SameIsThere }
{}

/// What the end of deferred mode notes, and when it can't end, is what the three rules on places
/// say; and no two of these notes cover each other.
#[tactic(auto, using(crate::proofs::FinishNotes::stuck_or_noted))]
pub fn law_finishing()
    ensures stuck { StuckOrNoted }
    ensures noted { NotesWhatIsDue }
    ensures apart { NotesLieApart }
{}

/// The path of the place at which a builder works depends only on the places above it, and has a
/// step for each place on the way: entering a child adds a step, which each way on that is admitted
/// tells, going up takes the last one away, and the end of deferred mode keeps the path. What the
/// commands keep of an option, of a side, of what a pointer points to or of a source is admitted so.
#[tactic(auto, using(crate::proofs::Paths::enter_way_adds, crate::proofs::Paths::as_deep, crate::proofs::Paths::enter_adds, crate::proofs::Finishes::finish_keeps_path))]
pub fn law_paths()
    ensures change { ChangingKeepsThePath }
    ensures enter { EnteringAddsAStep }
    ensures enter_way { EnteringAddsItsStep }
    ensures kept { KeptIsAdmitted }
    ensures leave { LeavingDropsAStep }
    ensures finish { FinishingKeepsThePath }
    ensures deep { PathIsAsDeep }
{}

/// Over a checked table, in a state that is in order: the tokens that the builder held and a
/// command brought are those that it then holds (none after a refusal) and those that the command
/// dropped, whatever the hooks mean, if they are lawful; and so it is of `build`.
#[tactic(auto, using(crate::proofs::Moves::step_keeps_tokens, crate::proofs::Moves::build_keeps_tokens))]
pub fn law_removed()
    ensures step { StepKeepsTokens }
    ensures build { BuildKeepsTokens }
{}

/// A builder begins in a well state, whatever its table and its root. Over a checked table and with
/// lawful hooks an admitted command keeps its state in order, if the command is fitting, and well,
/// if it is fresh besides: what lies around the cursor rests, whatever the hooks mean, each conversion
/// suits its place, and no token stands twice.
#[tactic(auto, using(crate::proofs::Moves::step_keeps_rest, crate::proofs::Moves::step_keeps_conversions, crate::proofs::Moves::step_keeps_distinct, crate::proofs::Moves::start_is_well))]
pub fn law_well()
    ensures start { StartIsWell }
    ensures in_order { StepKeepsOrder }
    ensures rests { StepKeepsRest }
    ensures conversions { StepKeepsConversions }
    ensures distinct { StepKeepsDistinct }
{}
