//! The texts of refusals.
ghost use Rattle.std.specs.Prelude.{◌≡◌};
ghost use Rattle.fr_shape.specs.Texts.{plan_fault_text, init_call_text, invariant_text, operation_text};

use crate::{InitCall, Invariant, Operation, PlanFault};

impl PlanFault {
    /// The fault in words.
    pub fn text(self) -> &'static str
        ensures text { result.now ≡ plan_fault_text self }
    {
        match self {
            PlanFault::Unsupported => "unsupported type for deserialization",
            PlanFault::NeedsTryFrom => "transparent wrapper requires try_from for deserialization",
            PlanFault::NotSized => "type is not sized",
        }
    }
}

impl InitCall {
    /// The refusal of this call, in words.
    pub fn text(self) -> &'static str
        ensures text { result.now ≡ init_call_text self }
    {
        match self {
            InitCall::List => "init_list called but tracker isn't something list-like",
            InitCall::Map => "init_map called but tracker isn't Scalar, Map, or DynamicValue",
            InitCall::Set => "init_set called but tracker isn't something set-like",
        }
    }
}

impl Invariant {
    /// The violation in words.
    pub fn text(self) -> &'static str
        ensures text { result.now ≡ invariant_text self }
    {
        match self {
            Invariant::EndAtRoot => "Partial::end() called with only one frame on the stack",
            Invariant::EndAtStart =>
                "Partial::end() called but would pop below deferred start depth",
            Invariant::AlreadyDeferred => "begin_deferred() called but already in deferred mode",
            Invariant::NotDeferred => "finish_deferred() called but deferred mode is not enabled",
            Invariant::BuildDeferred => "build() called but deferred mode is enabled",
            Invariant::BuildOpenFrames => "build() called but more than one frame is on the stack",
            Invariant::TypeInvariant => "a type invariant does not hold",
        }
    }
}

impl Operation {
    /// The refusal in words.
    pub fn text(self) -> &'static str
        ensures text { result.now ≡ operation_text self }
    {
        match self {
            Operation::FieldIndexOutOfBounds => "field index out of bounds",
            Operation::FieldOfUnselectedVariant =>
                "must call select_variant before selecting enum fields",
            Operation::VariantFieldIndexOutOfBounds => "enum field index out of bounds",
            Operation::ArrayIndexOutOfBounds => "array index out of bounds",
            Operation::ArrayTooLarge => "arrays larger than 4096 elements are not yet supported",
            Operation::ElementOfWholeArray =>
                "unexpected tracker state: expected uninitialized Scalar or Array",
            Operation::FieldOfSlice => "cannot select a field from slices yet",
            Operation::FieldOfOpaque => "cannot select a field from an opaque type",
            Operation::FieldOfOther => "cannot select a field from this type",
            Operation::NamedFieldOfUnselectedVariant =>
                "must select variant before selecting enum fields",
            Operation::NamedFieldOfUndefined =>
                "shape type is undefined - shape was not properly configured",
            Operation::NamedFieldOfPrimitive => "cannot select a field from a primitive type",
            Operation::NamedFieldOfSequence => "cannot select a field from a sequence type",
            Operation::NamedFieldOfOpaque => "opaque types cannot be reflected upon",
            Operation::NamedFieldOfPointer => "cannot select a field from a pointer type",
            Operation::NoDefault => "type does not implement Default",
            Operation::DynamicSignedSize => "unsupported signed integer size for dynamic value",
            Operation::DynamicUnsignedSize => "unsupported unsigned integer size for dynamic value",
            Operation::NotDynamic => "cannot convert this type to dynamic value",
            Operation::NoParsing => "Type does not support parsing from string",
            Operation::NoParsingOfBytes => "Type does not support parsing from bytes",
            Operation::BytesNotParsed => "Failed to parse bytes value",
            Operation::InitListOfOther =>
                "init_list can only be called on List or DynamicValue types",
            Operation::InitListOfWholeOther =>
                "init_list can only be called on List types or DynamicValue",
            Operation::InitArrayOfOther => "init_array can only be called on Array types",
            Operation::InitArrayOfBegun => "init_array: unexpected tracker state",
            Operation::ItemStillOpen => "already building an item, call end() first",
            Operation::ItemOfOther => "push can only be called on List or DynamicValue types",
            Operation::ItemBeforeInitList => "must call init_list() before push()",
            Operation::InitMapOfOther => "init_map can only be called on Map or DynamicValue types",
            Operation::KeyBeforeValue => "must complete current operation before begin_key()",
            Operation::KeyBeforeInitMap => "must call init_map() before begin_key()",
            Operation::ValueBeforeKey => "must complete key before begin_value()",
            Operation::EntryBeforeInitMap => "must call init_map() before begin_object_entry()",
            Operation::EntryOfOther =>
                "begin_object_entry can only be called on DynamicValue types",
            Operation::InitSetOfOther => "init_set can only be called on Set types",
            Operation::SetItemOfOther => "init_set_item can only be called on Set types",
            Operation::SetItemBeforeInitSet => "must call init_set() before begin_set_item()",
            Operation::PointerNotConstructible =>
                "push_smart_ptr can only be called on compatible types",
            Operation::PointerWithoutPointee => "Smart pointer must have a pointee shape",
            Operation::SlicePointerNotBuildable => "smart pointer does not support slice building",
            Operation::PointeeNotBuildable =>
                "push_smart_ptr can only be called on pointers to supported pointee types",
            Operation::NoInner => "type does not have an inner value",
            Operation::NotInField => "not currently processing a field",
            Operation::FieldWithoutProxy => "field does not have a proxy",
            Operation::NoProxyForFormat => "no proxy node found for format",
            Operation::VariantIndexOutOfBounds => "variant index out of bounds",
            Operation::VariantNameUnknown => "No variant found with the given name",
            Operation::DiscriminantUnknown => "No variant found with the given discriminant",
            Operation::RustLayout =>
                "Rust enums with unspecified discriminant layout are not supported for incremental building",
            Operation::RustNpoLayout => "RustNPO enums are not supported for incremental building",
            Operation::VariantWithoutDiscriminant =>
                "trying to select an enum variant without a discriminant",
            Operation::NotSharedReference =>
                "set_empty_shared_slice requires a shared slice reference",
            Operation::SharedReferenceWithoutPointee =>
                "shared reference pointer missing pointee shape",
            Operation::PointeeNotSlice => "set_empty_shared_slice requires a slice pointee",
        }
    }
}
