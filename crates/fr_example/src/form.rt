//! A form: fields that come as texts and are parsed, of which every bad one is named.
ghost use Rattle.std.specs.Prelude.{◌≡◌, ℕ, true, IfErr, IfOk};
ghost use Rattle.std.specs.Result.{result_err};
ghost use Rattle.fr_shape.specs.Checked.{IsChecked};
ghost use Rattle.fr_shape.specs.Fits.{fits};
ghost use Rattle.fr_shape.specs.Look.{IsIn};
ghost use Rattle.fr_shape.specs.Numbered.{IsNumbered};
ghost use Rattle.fr_plan.specs.TypePlan.{IsPlanOf};
ghost use Rattle.fr_model.specs.Run.{alloc_refusal, full_run, run_from};
ghost use Rattle.fr_partial.specs.Builder.{holds, IsStepTo};
ghost use Rattle.fr_work.specs.Starting.{IsPlanFrom};
ghost use Rattle.fr_example.specs.Forms.{bad_fields, fills_field, form_script, parses_field, FailsFilling, FailsParsing, FindsBad, IsNoPlan, IsOutcomeOfForm, NamesBad, TellsNoPlan};
ghost use Rattle.fr_example.specs.Outcomes.{IsOutcome};

use crate::Pair;
use crate::words::write_kind;
use fr_partial::{Built, Partial, ReflectError};
use fr_plan::{TypePlanCore, law_first_refusal};
use fr_shape::{
    AllocError, Hooks, Items, Ledger, NotPushed, OutOfMemory, PlanError, ReflectErrorKind, ShapeId,
    ShapeTable, Text,
};
use std::alloc::Global;

/// A field that is refused whatever the others are: for its name or for its text.
#[derive(Drop)]
pub struct BadField {
    pub name: Text,
    pub kind: ReflectErrorKind,
}

/// Why a form is refused.
#[derive(Drop)]
pub enum FormError {
    /// No value of this shape can be built.
    NoPlan(AllocError),
    /// These fields are bad, in the order in which they came.
    Bad(Items<BadField>),
    /// No field is bad, but together they are refused, as where a field is missing.
    Refused(ReflectError),
    OutOfMemory,
}

impl FormError {
    /// The error in words for a user: a line for each bad field, or one for the whole form. The
    /// table is the one that the form was submitted with.
    pub fn in_words(&self, alloc: Global, table: &ShapeTable) -> Result<String, OutOfMemory> {
        let mut text = String::new(alloc);
        match self {
            FormError::NoPlan(error) => {
                write_kind(&mut text, table, &ReflectErrorKind::Alloc(*error))?;
            }
            FormError::Bad(fields) => {
                for field in fields.as_slice() {
                    if !text.is_empty() {
                        text.push_str("\n")?;
                    }
                    write!(text, "{}: ", field.name.as_str())?;
                    write_kind(&mut text, table, &field.kind)?;
                }
            }
            FormError::Refused(error) => write_kind(&mut text, table, &error.kind)?,
            FormError::OutOfMemory => {
                write_kind(&mut text, table, &ReflectErrorKind::OutOfMemory)?;
            }
        }
        Ok(text)
    }
}

/// Builds a value from the fields of a form, each a name and a text that is parsed as a value of
/// the field's shape. Where fields are bad, having a name that no field has or a text that isn't
/// parsed, the error names all of them, as a user wants to see them: a builder is spent by the
/// first call that it refuses, so each field is tried on one of its own, all by one plan. Where none
/// is bad, one more builder takes all of them. Of a name that comes twice the last text counts. A
/// field that doesn't come takes its fill, and is missing where it has none; then the validators of
/// all fields and the invariants have to pass. Where no field comes at all, the shape's own default
/// is built, if it has one. Out of memory is `OutOfMemory`, wherever it ran out.
pub fn submit<H: Hooks>(
    alloc: Global,
    table: &ShapeTable,
    root: ShapeId,
    hooks: &H,
    fields: &[Pair],
    ledger: &mut Ledger,
) -> Result<Built, FormError>
    requires root { IsIn table.now root.0 }
    requires numbered { IsNumbered table.now }
    requires checked { IsChecked table.now }
    ensures no_plan { TellsNoPlan (alloc_refusal table.now root.0) result }
    ensures bad { NamesBad (bad_fields (H.means hooks.now) table.now root.0 fields.now) result }
    ensures run { IsOutcomeOfForm
        (full_run (H.means hooks.now) table.now root.0 (form_script fields.now)) result }
    ensures fits { IfOk result (λ built. fits table.now root.0 built.value ≡ true) }
    ensures released { ledger.new ≡ ledger.old }
{
    let plan = plan_of(alloc, table, root)?;
    let bad = bad_fields(alloc, table, &plan, hooks, fields, ledger)?;
    if !bad.is_empty() {
        return Err(FormError::Bad(bad));
    }
    let partial = Partial::alloc_with_plan(alloc, table, &plan, hooks)?;
    Ok(fill_all(partial, fields, ledger)?)
}

/// The plan of a shape, which serves every builder of it.
fn plan_of(alloc: Global, table: &ShapeTable, root: ShapeId) -> Result<TypePlanCore, FormError>
    requires root { IsIn table.now root.0 }
    requires checked { IsChecked table.now }
    ensures plan { IfOk result (IsPlanOf table.now root) }
    ensures refused { IfErr result (IsNoPlan (alloc_refusal table.now root.0)) }
{
    law_first_refusal();
    Ok(TypePlanCore::from_shape(alloc, table, root)?)
}

/// All fields that are bad. Each is tried on a builder of its own.
fn bad_fields<H: Hooks>(
    alloc: Global,
    table: &ShapeTable,
    plan: &TypePlanCore,
    hooks: &H,
    fields: &[Pair],
    ledger: &mut Ledger,
) -> Result<Items<BadField>, FormError>
    requires plan { IsPlanFrom table.now plan.now }
    requires numbered { IsNumbered table.now }
    requires checked { IsChecked table.now }
    ensures found { (from : IsPlanFrom table.now plan.now)
        → FindsBad (alloc_refusal table.now from.root.0)
        (bad_fields (H.means hooks.now) table.now from.root.0 fields.now) result }
    ensures released { ledger.new ≡ ledger.old }
{
    let mut bad = Items::new(alloc);
    for field in fields {
        let trial = Partial::alloc_with_plan(alloc, table, plan, hooks)?;
        if let Some(kind) = fault_of(trial, field, ledger)? {
            let name = Text::new(alloc, field.name.as_str())?;
            bad.push(BadField { name, kind })?;
        }
    }
    Ok(bad)
}

/// Why a field is bad, if so, found by a builder that is spent on it.
fn fault_of<H: Hooks>(
    trial: Partial<H>,
    field: &Pair,
    ledger: &mut Ledger,
) -> Result<Option<ReflectErrorKind>, OutOfMemory>
    requires tokens { (t : ℕ) → holds trial t ≡ 0 }
    ensures fault { IfOk result (λ fault. fault ≡ result_err (parses_field
        (H.means trial.entry.hooks) trial.entry.shapes trial.entry.root trial.entry.state
        field.now)) }
    ensures released { ledger.new ≡ ledger.old }
{
    match parse(trial, field, ledger) {
        Ok(parsed) => {
            parsed.abandon(ledger);
            Ok(None)
        }
        Err(error) => match error.kind {
            ReflectErrorKind::OutOfMemory => Err(OutOfMemory),
            kind => Ok(Some(kind)),
        },
    }
}

/// Fills all fields, and builds.
fn fill_all<'t, H: Hooks>(
    mut partial: Partial<'t, H>,
    fields: &[Pair],
    ledger: &mut Ledger,
) -> Result<Built, ReflectError>
    requires tokens { (t : ℕ) → holds partial t ≡ 0 }
    ensures run { IsOutcome (run_from (H.means partial.entry.hooks) partial.entry.shapes
        partial.entry.root 0 partial.entry.state (form_script fields.now)) result }
    ensures fits { IfOk result (λ built.
        fits partial.entry.shapes partial.entry.root built.value ≡ true) }
    ensures released { ledger.new ≡ ledger.old }
{
    for field in fields {
        partial = fill(partial, field, ledger)?;
    }
    partial.build(ledger)
}

/// Parses a field's text in the field, at which the builder works afterwards.
fn parse<'t, H: Hooks>(
    partial: Partial<'t, H>,
    field: &Pair,
    ledger: &mut Ledger,
) -> Result<Partial<'t, H>, ReflectError>
    requires tokens { (t : ℕ) → holds partial t ≡ 0 }
    ensures parsed { IsStepTo partial.entry (parses_field (H.means partial.entry.hooks)
        partial.entry.shapes partial.entry.root partial.entry.state field.now) result }
    ensures place { IfErr result (FailsParsing (H.means partial.entry.hooks)
        partial.entry.shapes partial.entry.root partial.entry.state field.now) }
    ensures released { ledger.new ≡ ledger.old }
    ensures tokens { IfOk result (λ after. (t : ℕ) → holds after t ≡ 0) }
{
    let entered = partial.begin_field(field.name.as_str(), ledger)?;
    entered.parse_from_str(field.text.as_str(), ledger)
}

/// Parses a field's text in the field, and leaves that.
fn fill<'t, H: Hooks>(
    partial: Partial<'t, H>,
    field: &Pair,
    ledger: &mut Ledger,
) -> Result<Partial<'t, H>, ReflectError>
    requires tokens { (t : ℕ) → holds partial t ≡ 0 }
    ensures filled { IsStepTo partial.entry (fills_field (H.means partial.entry.hooks)
        partial.entry.shapes partial.entry.root partial.entry.state field.now) result }
    ensures place { IfErr result (FailsFilling (H.means partial.entry.hooks)
        partial.entry.shapes partial.entry.root partial.entry.state field.now) }
    ensures released { ledger.new ≡ ledger.old }
    ensures tokens { IfOk result (λ after. (t : ℕ) → holds after t ≡ 0) }
{
    parse(partial, field, ledger)?.end(ledger)
}

impl From<OutOfMemory> for FormError {
    ghost use Rattle.fr_example.specs.declared.form.FormError.{FormError};

    ghost from_gives = { λ _ error. error ≡ FormError.OutOfMemory };

    fn from(_none: OutOfMemory) -> FormError {
        FormError::OutOfMemory
    }
}

impl<T: Drop> From<NotPushed<T>> for FormError {
    ghost use Rattle.fr_example.specs.declared.form.FormError.{FormError};

    ghost from_gives = { λ _ error. error ≡ FormError.OutOfMemory };

    fn from(_none: NotPushed<T>) -> FormError {
        FormError::OutOfMemory
    }
}

impl From<PlanError> for FormError {
    ghost use Rattle.fr_example.specs.Forms.{without_plan};

    ghost from_gives = { λ refused error. error ≡ without_plan refused };

    fn from(refused: PlanError) -> FormError {
        match refused {
            PlanError::Alloc(error) => FormError::NoPlan(error),
            PlanError::OutOfMemory => FormError::OutOfMemory,
        }
    }
}

impl From<ReflectError> for FormError {
    ghost use Rattle.fr_example.specs.Forms.{refused};

    ghost from_gives = { λ error form. form ≡ refused error };

    fn from(error: ReflectError) -> FormError {
        match error.kind {
            ReflectErrorKind::OutOfMemory => FormError::OutOfMemory,
            _ => FormError::Refused(error),
        }
    }
}
