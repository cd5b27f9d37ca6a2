//! Why a call of the builder, or the planning of a type, is refused.
use crate::{FieldRef, ShapeId, Text};

/// Why a shape can't be planned. `shape` is the first such shape.
#[derive(Clone, Copy, PartialEq, Eq)]
pub struct AllocError {
    pub shape: ShapeId,
    pub operation: PlanFault,
}

/// What keeps a shape from being planned; `text` says it in words.
#[derive(Clone, Copy, PartialEq, Eq)]
pub enum PlanFault {
    Unsupported,
    NeedsTryFrom,
    NotSized,
}

/// Why a type has no plan: a shape of it can't be planned, or there is no memory.
#[derive(Drop)]
pub enum PlanError {
    Alloc(AllocError),
    OutOfMemory,
}

/// A value or builder is of another shape than the one asked for.
#[derive(Drop)]
pub struct ShapeMismatchError {
    pub expected: ShapeId,
    pub actual: ShapeId,
}

/// The form of a begun place, as refusals name it.
#[derive(Clone, Copy, PartialEq, Eq)]
pub enum TrackerKind {
    Scalar,
    Array,
    Struct,
    SmartPointer,
    SmartPointerSlice,
    Enum,
    List,
    Map,
    Set,
    Option,
    Result,
    DynamicValue,
    Inner,
}

/// What a call of the builder is refused for. A refusal spends the builder, and with it each token
/// that it held or that the call brought, which has then been released. `OutOfMemory` alone comes
/// without a cause in the arguments.
#[derive(Drop)]
pub enum ReflectErrorKind {
    /// The type has no plan.
    Alloc(AllocError),
    /// A variant, a content or a side was asked for at a place of shape `actual`, which is no enum,
    /// option or result.
    WasNotA {
        expected: Expected,
        actual: ShapeId,
    },
    /// The place, which has this shape, doesn't allow the operation.
    OperationFailed {
        shape: ShapeId,
        operation: Operation,
    },
    /// A list, a map or a set was begun at a place that is begun as something else.
    UnexpectedTracker {
        call: InitCall,
        current: TrackerKind,
    },
    /// The value's shape is `actual`, and the place's is `expected`.
    WrongShape {
        expected: ShapeId,
        actual: ShapeId,
    },
    /// No field of this shape is declared under the name.
    FieldError {
        shape: ShapeId,
    },
    /// A place was completed while this field of it was unset, with nothing that fills it.
    UninitializedField {
        field: FieldRef,
    },
    /// A place of this shape was completed while it had no value, with nothing that fills it.
    UninitializedValue {
        shape: ShapeId,
    },
    /// A field takes the default of its shape, this one, which has none.
    DefaultAttrButNoDefaultImpl {
        shape: ShapeId,
    },
    /// The value of this field doesn't pass one of its validators; the message tells what it would
    /// have to be.
    ValidationFailed {
        field: FieldRef,
        message: Text,
    },
    /// The hook of a proxy refused to convert, with this message (an empty one where it takes no
    /// such source).
    CustomDeserializationError {
        message: Text,
        src_shape: ShapeId,
        dst_shape: ShapeId,
    },
    /// The hook that converts from `inner` or `builder` gave no value.
    TryFromError {
        src_shape: ShapeId,
        dst_shape: ShapeId,
        inner: TryFromFault,
    },
    /// The text doesn't stand for a value of this shape. (Bytes that don't are an operation that
    /// failed.)
    ParseFailed {
        shape: ShapeId,
    },
    /// The call doesn't suit the builder's mode or depth, or a struct in the built value doesn't
    /// keep the invariant of its shape.
    InvariantViolation {
        invariant: Invariant,
    },
    /// The place can't say whether that field is set.
    InvalidOperation {
        reason: Reason,
    },
    /// No memory was left.
    OutOfMemory,
}

/// What a place would have to be for the refused call.
#[derive(Clone, Copy, PartialEq, Eq)]
pub enum Expected {
    Enum,
    Option,
    Result,
}

/// The calls that begin a list, a map or a set; `text` says what such a call found in its way.
#[derive(Clone, Copy, PartialEq, Eq)]
pub enum InitCall {
    List,
    Map,
    Set,
}

/// Why a value of another shape was not converted: the conversion takes no such source, or it
/// failed with this message.
#[derive(Drop)]
pub enum TryFromFault {
    UnsupportedSourceType,
    Generic(Text),
}

/// What a call finds wrong with the builder's mode or depth, or with the built value.
#[derive(Clone, Copy, PartialEq, Eq)]
pub enum Invariant {
    EndAtRoot,
    EndAtStart,
    AlreadyDeferred,
    NotDeferred,
    BuildDeferred,
    BuildOpenFrames,
    TypeInvariant,
}

/// Why a place can't say whether a field of it is set: it has no field of that number, or no fields
/// at all.
#[derive(Clone, Copy, PartialEq, Eq)]
pub enum Reason {
    NoSuchField,
    NotAProduct,
}

/// An operation that a place of the given shape doesn't allow. Most names say what was asked for or
/// where, as `FieldOfSlice`, or what there isn't, as `NoDefault`; `text` says it in words.
#[derive(Clone, Copy, PartialEq, Eq)]
pub enum Operation {
    FieldIndexOutOfBounds,
    FieldOfUnselectedVariant,
    VariantFieldIndexOutOfBounds,
    ArrayIndexOutOfBounds,
    ArrayTooLarge,
    ElementOfWholeArray,
    FieldOfSlice,
    FieldOfOpaque,
    FieldOfOther,
    NamedFieldOfUnselectedVariant,
    NamedFieldOfUndefined,
    NamedFieldOfPrimitive,
    NamedFieldOfSequence,
    NamedFieldOfOpaque,
    NamedFieldOfPointer,
    NoDefault,
    DynamicSignedSize,
    DynamicUnsignedSize,
    NotDynamic,
    NoParsing,
    NoParsingOfBytes,
    BytesNotParsed,
    InitListOfOther,
    InitListOfWholeOther,
    InitArrayOfOther,
    InitArrayOfBegun,
    ItemStillOpen,
    ItemOfOther,
    ItemBeforeInitList,
    InitMapOfOther,
    KeyBeforeValue,
    KeyBeforeInitMap,
    ValueBeforeKey,
    EntryBeforeInitMap,
    EntryOfOther,
    InitSetOfOther,
    SetItemOfOther,
    SetItemBeforeInitSet,
    PointerNotConstructible,
    PointerWithoutPointee,
    SlicePointerNotBuildable,
    PointeeNotBuildable,
    NoInner,
    NotInField,
    FieldWithoutProxy,
    NoProxyForFormat,
    VariantIndexOutOfBounds,
    VariantNameUnknown,
    DiscriminantUnknown,
    RustLayout,
    RustNpoLayout,
    VariantWithoutDiscriminant,
    NotSharedReference,
    SharedReferenceWithoutPointee,
    PointeeNotSlice,
}
