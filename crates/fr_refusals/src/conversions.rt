//! As which conversion a place is begun, told by the table alone: as a wrapper, through a proxy of
//! its shape, or through one of the field that it is.
ghost use Rattle.std.specs.Option.{option_copied};
ghost use Rattle.std.specs.Prelude.{Err, IfErr, IfOk, Ok, slice_get, ◌≡◌};
ghost use Rattle.fr_frame.specs.Bodies.{own_tree};
ghost use Rattle.fr_frame.specs.Heap.{as_conversion, as_tracker, body_of};
ghost use Rattle.fr_model.specs.Conversions.{by_proxy, by_wrapper, convert_in, field_has_proxies, has_proxies, proxy_at, proxy_for, proxy_named, proxy_of_field, proxy_of_shape, source_in};
ghost use Rattle.fr_model.specs.Trackers.{ContentKind as TreeContentKind, as_content};
ghost use Rattle.fr_model.specs.Tree.{is_begun_conversion};

use fr_frame::{ContentKind, Conversion, PartialValue, Through, Tracker};
use fr_shape::{Field, FormatProxy, HookId, Items, Operation, ProxyDef, ShapeId, ShapeTable};

/// What a wrapper of this shape is built from or wraps, if there is such a thing.
pub fn source_in(table: &ShapeTable, shape: ShapeId) -> Option<ShapeId>
    ensures source { result ≡ source_in (slice_get table.now shape.0) }
{
    let entry = table.get(shape)?;
    entry.builder.or(entry.inner)
}

/// The hook that converts from it, if there is one.
pub fn convert_in(table: &ShapeTable, shape: ShapeId) -> Option<HookId>
    ensures hook { result ≡ convert_in (slice_get table.now shape.0) }
{
    table.get(shape)?.convert
}

/// The conversion of a wrapper.
pub fn by_wrapper(hook: HookId, source: ShapeId) -> Conversion
    ensures conversion { as_conversion result ≡ by_wrapper hook source }
{
    let through = Through::Wrapper;
    Conversion {
        through,
        hook,
        source,
    }
}

/// The conversion through a proxy.
pub fn by_proxy(proxy: &ProxyDef) -> Conversion
    ensures conversion { as_conversion result ≡ by_proxy proxy.now }
{
    Conversion {
        through: Through::Proxy,
        hook: proxy.convert,
        source: proxy.source,
    }
}

/// As what a place is begun by this conversion.
pub fn source_tracker(conversion: Conversion) -> Tracker
    ensures tracker { as_tracker result
        ≡ as_content (TreeContentKind.Source (as_conversion conversion)) }
{
    Tracker::Content(ContentKind::Source(conversion))
}

/// Whether there is a proxy, for whatever format.
fn has_proxies(proxy: &Option<ProxyDef>, format_proxies: &Items<FormatProxy>) -> bool
    ensures { result ≡ has_proxies proxy.now format_proxies.now }
{
    match (proxy, format_proxies.as_slice()) {
        (None, []) => false,
        (None, [_, ..]) | (Some(_), _) => true,
    }
}

/// The first proxy that is for this format alone.
fn proxy_named<'a>(format: &str, format_proxies: &'a [FormatProxy]) -> Option<&'a ProxyDef>
    ensures { option_copied result ≡ proxy_named format.now format_proxies.now }
{
    for formatted in format_proxies {
        if formatted.format.as_str() == format {
            return Some(&formatted.proxy);
        }
    }
    None
}

/// The proxy for a format, or for none: one for that format alone goes before the one for all.
fn proxy_for<'a>(
    format: Option<&str>,
    proxy: &'a Option<ProxyDef>,
    format_proxies: &'a Items<FormatProxy>,
) -> Option<&'a ProxyDef>
    ensures { option_copied result
        ≡ proxy_for (option_copied format.entry) proxy.now format_proxies.now }
{
    let named = match format {
        Some(name) => proxy_named(name, format_proxies.as_slice()),
        None => None,
    };
    named.or(proxy.as_ref())
}

/// The proxy that the field which a place is has for a format, or for none, or why it has none.
pub fn proxy_of_field<'a>(
    field: Option<&'a Field>,
    format: Option<&str>,
) -> Result<&'a ProxyDef, Operation>
    ensures proxy { IfOk result (λ proxy.
        proxy_of_field (option_copied format.entry) (option_copied field.entry) ≡ Ok proxy.now) }
    ensures refused { IfErr result (λ operation.
        proxy_of_field (option_copied format.entry) (option_copied field.entry) ≡ Err operation) }
{
    let Some(declared) = field else {
        return Err(Operation::NotInField);
    };
    if !has_proxies(&declared.proxy, &declared.format_proxies) {
        return Err(Operation::FieldWithoutProxy);
    }
    match proxy_for(format, &declared.proxy, &declared.format_proxies) {
        Some(proxy) => Ok(proxy),
        None => Err(Operation::NoProxyForFormat),
    }
}

/// Whether the field which a place is, if it is one, has a proxy, for whatever format.
fn field_has_proxies(field: Option<&Field>) -> bool
    ensures { result ≡ field_has_proxies (option_copied field.entry) }
{
    match field {
        Some(declared) => has_proxies(&declared.proxy, &declared.format_proxies),
        None => false,
    }
}

/// The proxy that a shape has for a format, or for none.
fn proxy_of_shape<'a>(
    table: &'a ShapeTable,
    shape: ShapeId,
    format: Option<&str>,
) -> Option<&'a ProxyDef>
    ensures { option_copied result
        ≡ proxy_of_shape (option_copied format.entry) (slice_get table.now shape.0) }
{
    let entry = table.get(shape)?;
    proxy_for(format, &entry.proxy, &entry.format_proxies)
}

/// The same at a place that is this field, if it is one: where that has proxies of its own, none of
/// the shape's serves.
pub fn proxy_at<'a>(
    table: &'a ShapeTable,
    shape: ShapeId,
    field: Option<&Field>,
    format: Option<&str>,
) -> Option<&'a ProxyDef>
    ensures proxy { option_copied result
        ≡ proxy_at table.now shape.0 (option_copied field.entry) (option_copied format.entry) }
{
    if field_has_proxies(field) {
        None
    } else {
        proxy_of_shape(table, shape, format)
    }
}

/// Whether the place is begun as a conversion.
#[inline]
pub fn is_conversion(partial: &PartialValue) -> bool
    ensures conversion { result ≡ is_begun_conversion (own_tree (body_of partial.now)) }
{
    matches!(
        partial,
        PartialValue::Begun(Tracker::Content(ContentKind::Source(_)), _)
    )
}
