//! The commands of a script: one variant for each consuming call of the builder.
use fr_shape::{Items, ShapeId, Text, Value};

/// A call of the builder with its arguments.
#[derive(Drop)]
pub enum Command {
    BeginField(Text),
    BeginNthField(u32),
    SetNthFieldToDefault(u32),
    Set(ShapeId, Value),
    SetDefault,
    ParseFromStr(Text),
    ParseFromBytes(Items<u8>),
    SetEmptySharedSlice,
    InitList,
    InitListWithCapacity(u32),
    InitArray,
    BeginListItem,
    InitMap,
    BeginKey,
    BeginValue,
    InitSet,
    BeginSetItem,
    BeginObjectEntry(Text),
    BeginSome,
    BeginOk,
    BeginErr,
    BeginSmartPtr,
    BeginInner,
    BeginCustomDeserialization,
    BeginCustomDeserializationWithFormat(Option<Text>),
    BeginCustomDeserializationFromShape,
    BeginCustomDeserializationFromShapeWithFormat(Option<Text>),
    SelectNthVariant(u32),
    SelectVariantNamed(Text),
    SelectVariant(i64),
    End,
    BeginDeferred,
    FinishDeferred,
}

/// Calls in the order in which they are made.
pub type Script = Items<Command>;
