//! A loader of lines `key = value`, whose keys lead into groups.
ghost use Rattle.std.specs.Prelude.{◌≡◌, ◌==◌, ℕ, true, IfErr, IfOk};
ghost use Rattle.std.specs.List.{slice_split};
ghost use Rattle.std.specs.Str.Lines.{lines};
ghost use Rattle.fr_shape.specs.Checked.{IsChecked};
ghost use Rattle.fr_shape.specs.Fits.{fits};
ghost use Rattle.fr_shape.specs.Look.{IsIn};
ghost use Rattle.fr_shape.specs.Numbered.{IsNumbered};
ghost use Rattle.fr_partial.specs.Builder.{holds};
ghost use Rattle.fr_example.specs.Loading.{says_nothing, is_no_pair, first_no_pair, calls_of_pair, calls_of_line, run_of, IsLoaded, TellsLine};
ghost use Rattle.fr_partial.specs.Several.{AreSteps};

use crate::missing::missing_keys;
use crate::words::write_kind;
use fr_partial::{Built, Partial, ReflectError};
use fr_shape::{
    Hooks, Items, Ledger, OutOfMemory, PlanError, ReflectErrorKind, ShapeId, ShapeTable, Text,
};
use std::alloc::Global;

/// Why lines make no value. Lines are counted from 1.
#[derive(Drop)]
pub enum LoadError {
    /// This line has no `=`. Nothing was built.
    NotALine(usize),
    /// The root has no plan, or there was no memory for one.
    NoPlan(PlanError),
    /// What this line says was refused.
    AtLine(usize, ReflectError),
    /// All lines were taken, and then something was missing, or wrong as a whole.
    Unfinished(ReflectError),
}

impl LoadError {
    /// The error in words, for whoever wrote the lines: its line, its place, and what is wrong
    /// there; of a field that is missing, the keys under which it is missing. The table, the root
    /// and the text are those that were loaded for.
    pub fn in_words(
        &self,
        alloc: Global,
        table: &ShapeTable,
        root: ShapeId,
        text: &str,
    ) -> Result<String, OutOfMemory> {
        let mut words = String::new(alloc);
        match self {
            LoadError::NotALine(line) => write!(words, "line {line}: no `key = value`")?,
            LoadError::NoPlan(PlanError::Alloc(error)) => words.push_str(error.operation.text())?,
            LoadError::NoPlan(PlanError::OutOfMemory) => words.push_str("out of memory")?,
            LoadError::AtLine(line, error) => {
                write!(words, "line {line}: ")?;
                write_error(alloc, &mut words, table, root, error)?;
            }
            LoadError::Unfinished(error) => match &error.kind {
                ReflectErrorKind::UninitializedField { field } => {
                    let keys = missing_keys(alloc, table, root, *field, text)?;
                    write_missing(&mut words, &keys)?;
                }
                _ => write_error(alloc, &mut words, table, root, error)?,
            },
        }
        Ok(words)
    }
}

/// Loads a value of the shape `root` from lines `key = value`. A key is a field's name, or several
/// with dots between, as `db.url`, that lead into groups, which may be come back to in any order;
/// the value is parsed by the field's shape, and a later one takes the place of an earlier one.
/// What no line gives takes its default. White space around keys, values and lines doesn't count;
/// blank lines, and those that begin with `#`, are passed over. An error is told with its line,
/// where it is one of a line: the first that has no `=`, before anything is built, and else the
/// first that is refused. A field that is missing is told at the end.
pub fn load<H: Hooks>(
    alloc: Global,
    table: &ShapeTable,
    root: ShapeId,
    hooks: &H,
    text: &str,
    ledger: &mut Ledger,
) -> Result<Built, LoadError>
    requires root { IsIn table.now root.0 }
    requires numbered { IsNumbered table.now }
    requires checked { IsChecked table.now }
    ensures meant { IsLoaded (H.means hooks.now) table.now root.0 (lines text.now) result }
    ensures line { IfErr result (TellsLine (lines text.now)
        (run_of (H.means hooks.now) table.now root.0 (lines text.now))) }
    ensures fits { IfOk result (λ built. fits table.now root.0 built.value ≡ true) }
    ensures released { ledger.new ≡ ledger.old }
{
    if let Some(number) = first_no_pair(text) {
        return Err(LoadError::NotALine(number));
    }
    let mut partial = match Partial::alloc_shape(alloc, table, root, hooks) {
        Ok(first) => first.enter_deferred(),
        Err(refused) => return Err(LoadError::NoPlan(refused)),
    };
    for (before, line) in text.lines().enumerate() {
        partial = match put_line(partial, line, ledger) {
            Ok(next) => next,
            Err(error) => return Err(LoadError::AtLine(before + 1, error)),
        };
    }
    let whole = match partial.finish_deferred(ledger) {
        Ok(whole) => whole,
        Err(error) => return Err(LoadError::Unfinished(error)),
    };
    match whole.build(ledger) {
        Ok(built) => Ok(built),
        Err(error) => Err(LoadError::Unfinished(error)),
    }
}

/// The number of the first line that is neither passed over nor a pair.
fn first_no_pair(text: &str) -> Option<usize>
    ensures { result ≡ first_no_pair (lines text.now) }
{
    for (before, line) in text.lines().enumerate() {
        if is_no_pair(line) {
            return Some(before + 1);
        }
    }
    None
}

/// Whether a line says something, and has no `=`.
fn is_no_pair(line: &str) -> bool
    ensures { result ≡ is_no_pair line.now }
{
    !says_nothing(line) && line.split_once('=').is_none()
}

/// Whether a line is blank or a comment.
pub(crate) fn says_nothing(line: &str) -> bool
    ensures { result ≡ says_nothing line.now }
{
    let line = line.trim();
    line.is_empty() || line.starts_with('#')
}

/// Puts what a line says. The builder is then where it was before.
fn put_line<'t, H: Hooks>(
    partial: Partial<'t, H>,
    line: &str,
    ledger: &mut Ledger,
) -> Result<Partial<'t, H>, ReflectError>
    requires tokens { (t : ℕ) → holds partial t ≡ 0 }
    ensures steps { AreSteps (H.means partial.entry.hooks) partial.entry (calls_of_line line.now)
        result }
    ensures released { ledger.new ≡ ledger.old }
    ensures tokens { IfOk result (λ after. (t : ℕ) → holds after t ≡ 0) }
{
    if says_nothing(line) {
        return Ok(partial);
    }
    match line.split_once('=') {
        Some((key, value)) => put(partial, key.trim(), value.trim(), ledger),
        None => Ok(partial),
    }
}

/// Goes where the key leads, puts what the value means there, and comes back.
fn put<'t, H: Hooks>(
    mut partial: Partial<'t, H>,
    key: &str,
    value: &str,
    ledger: &mut Ledger,
) -> Result<Partial<'t, H>, ReflectError>
    requires tokens { (t : ℕ) → holds partial t ≡ 0 }
    ensures steps { AreSteps (H.means partial.entry.hooks) partial.entry
        (calls_of_pair (slice_split (λ b. b == 46) key.now) value.now) result }
    ensures released { ledger.new ≡ ledger.old }
    ensures tokens { IfOk result (λ after. (t : ℕ) → holds after t ≡ 0) }
{
    for name in key.split('.') {
        partial = partial.begin_field(name, ledger)?;
    }
    partial = partial.parse_from_str(value, ledger)?;
    for _name in key.split('.') {
        partial = partial.end(ledger)?;
    }
    Ok(partial)
}

/// Writes a refusal behind the path of its place, but for the root's.
fn write_error(
    alloc: Global,
    words: &mut String,
    table: &ShapeTable,
    root: ShapeId,
    error: &ReflectError,
) -> Result<(), OutOfMemory> {
    if !error.path.is_empty() {
        let place = error.path.format_with_shape(alloc, table, root)?;
        write!(words, "{}: ", place.as_str())?;
    }
    Ok(write_kind(words, table, &error.kind)?)
}

/// Writes which keys are missing.
fn write_missing(words: &mut String, keys: &Items<Text>) -> Result<(), OutOfMemory> {
    words.push_str("missing:")?;
    for key in keys.as_slice() {
        write!(words, " {}", key.as_str())?;
    }
    Ok(())
}
