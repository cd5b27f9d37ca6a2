//! Validators of a field's value, each with the kind of the scalar that it is made for.
ghost use Rattle.std.specs.Prelude.{◌≡◌, ◌↔◌, IsOk, IsTrue, IfErr};
ghost use Rattle.fr_shape.specs.View.{view};
ghost use Rattle.fr_shape.specs.Validators.{bytes_in, integer_in, is_compared, is_least, is_most, begins_with, is_within, is_url};
ghost use Rattle.fr_rules.specs.Validators.{passes_held, IsRefusal};

use crate::messages::message;
use crate::numbers::{Number, integer_in};
use fr_shape::{FieldRef, HookId, Hooks, OutOfMemory, ReflectErrorKind, ScalarKind, Text, Value};
use std::alloc::Global;

/// A validator of a field, ready to be run.
#[derive(Drop)]
pub struct PrecomputedValidator {
    /// What it tests.
    pub kind: ValidatorKind,
}

/// What is tested. All but a hook's test hold the scalar kind of the field's shape.
#[derive(Drop)]
pub enum ValidatorKind {
    /// What this hook says of the value.
    Custom(HookId),
    /// The number is this one or more. Numbers of 128 bits and of pointer size pass.
    Min(i64, ScalarKind),
    /// The number is this one or less. Numbers of 128 bits and of pointer size pass.
    Max(i64, ScalarKind),
    /// The text has this many bytes or more.
    MinLength(u64, ScalarKind),
    /// The text has this many bytes or fewer.
    MaxLength(u64, ScalarKind),
    /// The text begins with `http://` or `https://`; no more is tested.
    Url(ScalarKind),
    /// The text has this one within it, byte by byte. No character of the pattern is special.
    Regex(Text, ScalarKind),
    /// The text has this one within it, byte by byte.
    Contains(Text, ScalarKind),
}

impl PrecomputedValidator {
    /// Tests the value of `field`. Only a value that fails takes memory, for what is said of it,
    /// and where there is none the error is `OutOfMemory`.
    ///
    /// The value should fit the scalar kind. One that is no number is in all bounds, and one that
    /// is no text is read as the empty text.
    pub fn run<H: Hooks>(
        &self,
        alloc: Global,
        hooks: &H,
        value: &Value,
        field: FieldRef,
    ) -> Result<(), ReflectErrorKind>
        ensures passing { IsOk result
            ↔ IsTrue (passes_held (H.means hooks.now).check self.now.kind (view value.now)) }
        ensures failing { IfErr result (IsRefusal field self.now.kind (view value.now)) }
    {
        if passes(hooks, &self.kind, value) {
            return Ok(());
        }
        match message(alloc, &self.kind, value) {
            Ok(message) => Err(ReflectErrorKind::ValidationFailed { field, message }),
            Err(OutOfMemory) => Err(ReflectErrorKind::OutOfMemory),
        }
    }
}

/// Whether the value passes.
fn passes<H: Hooks>(hooks: &H, kind: &ValidatorKind, value: &Value) -> bool
    ensures { result ≡ passes_held (H.means hooks.now).check kind.now (view value.now) }
{
    match kind {
        ValidatorKind::Custom(hook) => hooks.check(*hook, value),
        ValidatorKind::Min(low, kind) => !is_compared(*kind) || is_least(*low, value),
        ValidatorKind::Max(high, kind) => !is_compared(*kind) || is_most(*high, value),
        ValidatorKind::MinLength(low, _) => *low <= text_in(value).len() as u64,
        ValidatorKind::MaxLength(high, _) => text_in(value).len() as u64 <= *high,
        ValidatorKind::Url(_) => is_url(text_in(value)),
        ValidatorKind::Regex(part, _) | ValidatorKind::Contains(part, _) => {
            is_within(part.as_str(), text_in(value))
        }
    }
}

/// The text that a value is, and the empty one for any other value.
pub(crate) fn text_in(value: &Value) -> &str
    ensures { result.now ≡ bytes_in (view value.now) }
{
    match value {
        Value::Text(text) => text.as_str(),
        Value::Unit | Value::Bool(_) | Value::Char(_) | Value::Int(_) | Value::Nat(_) => "",
        Value::Token(_) | Value::Product(_) | Value::Variant(..) | Value::None => "",
        Value::Some(_) | Value::Ok(_) | Value::Err(_) | Value::Ptr(_) | Value::Dyn(_) => "",
        Value::List(_) | Value::Map(_) | Value::Set(_) => "",
    }
}

/// Whether values of the kind are compared with bounds.
fn is_compared(kind: ScalarKind) -> bool
    ensures { result ≡ is_compared kind }
{
    match kind {
        ScalarKind::I8 | ScalarKind::I16 | ScalarKind::I32 | ScalarKind::I64 => true,
        ScalarKind::U8 | ScalarKind::U16 | ScalarKind::U32 | ScalarKind::U64 => true,
        ScalarKind::I128 | ScalarKind::U128 | ScalarKind::ISize | ScalarKind::USize => false,
        ScalarKind::Bool | ScalarKind::Char | ScalarKind::String | ScalarKind::CowStr => false,
    }
}

/// Whether a number is no less than `low`.
fn is_least(low: i64, value: &Value) -> bool
    ensures { result ≡ is_least low (integer_in (view value.now)) }
{
    match integer_in(value) {
        Some(Number::Int(z)) => i128::from(low) <= z,
        Some(Number::Nat(n)) => match u128::try_from(low) {
            Ok(low) => low <= n,
            Err(_) => true,
        },
        None => true,
    }
}

/// Whether a number is no more than `high`.
fn is_most(high: i64, value: &Value) -> bool
    ensures { result ≡ is_most high (integer_in (view value.now)) }
{
    match integer_in(value) {
        Some(Number::Int(z)) => z <= i128::from(high),
        Some(Number::Nat(n)) => match u128::try_from(high) {
            Ok(high) => n <= high,
            Err(_) => false,
        },
        None => true,
    }
}

fn begins_with(beginning: &str, text: &str) -> bool
    ensures { result ≡ begins_with beginning.now text.now }
{
    text.starts_with(beginning)
}

fn is_within(part: &str, text: &str) -> bool
    ensures { result ≡ is_within part.now text.now }
{
    text.contains(part)
}

fn is_url(text: &str) -> bool
    ensures { result ≡ is_url text.now }
{
    begins_with("http://", text) || begins_with("https://", text)
}
