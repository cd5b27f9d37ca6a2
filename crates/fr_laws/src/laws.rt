//! Laws of the definitions: each is the contract of a function that does nothing.
ghost use Rattle.fr_laws.specs.CollectionExamples.{MapExamples, SetExamples};
ghost use Rattle.fr_laws.specs.ContentExamples.{OptionExamples, PointerExamples, ResultExamples, SelectionExamples, VariantExamples};
ghost use Rattle.fr_laws.specs.Covering.{ScanAgrees, WaysAgree};
ghost use Rattle.fr_laws.specs.DefaultExamples.{DefaultExamples, ValidatorExamples};
ghost use Rattle.fr_laws.specs.DynamicExamples.{ConversionExamples, DynamicExamples};
ghost use Rattle.fr_laws.specs.Examples.{EndRunsValidators};
ghost use Rattle.fr_laws.specs.FinishExamples.{FinishExamples};
ghost use Rattle.fr_laws.specs.HookExamples.{InvariantExamples, ParsingExamples};
ghost use Rattle.fr_laws.specs.ListExamples.{ArrayExamples, ListExamples, SliceExamples};
ghost use Rattle.fr_laws.specs.Passage.{DeferredPasses, StrictPasses};
ghost use Rattle.fr_laws.specs.PassageExamples.{PassageExamples};
ghost use Rattle.fr_laws.specs.SourceExamples.{SourceExamples};
ghost use Rattle.fr_laws.specs.SwapExamples.{SwapExamples};
ghost use Rattle.fr_laws.specs.SwapLaws.{EnteringAgainKeeps, ExcursionsSwap, SwappedScriptsAgree, TriedScriptsAgree};
ghost use Rattle.fr_laws.specs.WellExamples.{WellExamples};

/// What a journal holds of a place is what the rules on covering notes say.
#[tactic(auto, using(crate::proofs::Covering::scan_agrees))]
pub fn law_covering()
    ensures scan { ScanAgrees }
    ensures ways { WaysAgree }
{}

/// Scripts computed through the definitions, and states that are well and such as aren't.
pub fn law_examples()
    ensures validators { EndRunsValidators }
    ensures variants { VariantExamples }
    ensures selection { SelectionExamples }
    ensures options { OptionExamples }
    ensures results { ResultExamples }
    ensures pointers { PointerExamples }
    ensures defaults { DefaultExamples }
    ensures checks { ValidatorExamples }
    ensures finishes { FinishExamples }
    ensures lists { ListExamples }
    ensures arrays { ArrayExamples }
    ensures slices { SliceExamples }
    ensures sets { SetExamples }
    ensures maps { MapExamples }
    ensures conversions { ConversionExamples }
    ensures dynamics { DynamicExamples }
    ensures well { WellExamples }
    ensures parsing { ParsingExamples }
    ensures invariants { InvariantExamples }
    ensures sources { SourceExamples }
    ensures swaps { SwapExamples }
    ensures passage { PassageExamples }
{}

/// Where no reached shape, field or variant field has a proxy, and none has a conversion or is
/// dynamic, an orderly run of a script without mode calls gives the same value in strict mode and in
/// deferred mode, whatever the hooks mean: in either direction, and where the run that is known is
/// orderly.
pub fn law_passage()
    ensures strictly { StrictPasses }
    ensures deferred { DeferredPasses }
{}

/// In a deferred state whose cursor is at a struct, an array or a selected variant: an excursion into
/// one child of that place and one into another may be swapped, with the same state after both and
/// the same tokens dropped, whatever the hooks mean. So scripts in which they are swapped give the
/// same value or the same refusal; and where commands of them are refused, still the same value, or
/// both are refused. A child that is left may be entered again, which comes to the same.
pub fn law_swap()
    ensures swaps { ExcursionsSwap }
    ensures scripts { SwappedScriptsAgree }
    ensures tried { TriedScriptsAgree }
    ensures again { EnteringAgainKeeps }
{}
