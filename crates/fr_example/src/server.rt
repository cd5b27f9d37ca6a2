//! A struct of one's own that a builder takes and returns, and the table of its shapes.
ghost use Rattle.std.specs.Prelude.{◌≡◌, refl, zip, IfOk};
ghost use Rattle.fr_shape.specs.Checked.{IsChecked};
ghost use Rattle.fr_shape.specs.Numbered.{IsNumbered};
ghost use Rattle.fr_shape.specs.Val.{product};
ghost use Rattle.fr_facet.specs.SameLaws.{struct_told};
ghost use Rattle.fr_facet.specs.StructLaws.{struct_fit};
ghost use Rattle.fr_facet.specs.Structs.{is_struct_of, product_takes};
ghost use Rattle.fr_partial.specs.Typed.{HasShape};
ghost use Rattle.fr_example.specs.Servers.{server_fields, server_table};

use fr_facet::{Facet, FacetFault, Parts, find_struct, parts_of, product_of};
use fr_shape::{Items, Ledger, OutOfMemory, ScalarKind, Shape, ShapeId, ShapeTable, Value};
use std::alloc::Global;

/// A server: its host, and the ports at which it listens.
#[derive(Drop)]
pub struct Server {
    pub host: String,
    pub ports: Vec<u16>,
}

/// The types of its fields, as a list that ends in `()`.
type OwnParts = (String, (Vec<u16>, ()));

impl Facet for Server {
    // A struct of these fields, in this order, each of its type's shape.
    ghost is_own = { λ table def.
        is_struct_of (zip server_fields (⟦<OwnParts as Parts>⟧.shapes table)) def };

    // The product of the fields' values.
    ghost shown = { λ server.
        product (⟦<OwnParts as Parts>⟧.shown (server.host, (server.ports, tt))) };

    ghost takes = { product_takes ⟦<OwnParts as Parts>⟧.takes };

    // The same field by field.
    ghost IsSame = { λ one other. ⟦<OwnParts as Parts>⟧.IsSame
        (one.host, (one.ports, tt)) (other.host, (other.ports, tt)) };

    ghost taken_fit = { struct_fit ⟦<OwnParts as Parts>⟧.shapes ⟦<OwnParts as Parts>⟧.takes
        ⟦<OwnParts as Parts>⟧.taken_fit
        (λ table. zip server_fields (⟦<OwnParts as Parts>⟧.shapes table)) (λ table. refl) };

    ghost told_by_value = { λ one other. struct_told ⟦<OwnParts as Parts>⟧.shown
        ⟦<OwnParts as Parts>⟧.IsSame ⟦<OwnParts as Parts>⟧.told_by_value
        (one.host, (one.ports, tt)) (other.host, (other.ports, tt)) };

    fn find(table: &ShapeTable) -> Option<ShapeId> {
        find_struct(
            table,
            &[
                ("host", String::find(table)),
                ("ports", Vec::<u16>::find(table)),
            ],
        )
    }

    fn into_value(self, alloc: Global, ledger: &mut Ledger) -> Result<Value, OutOfMemory> {
        let Server { host, ports } = self;
        product_of(alloc, (host, (ports, ())), ledger)
    }

    fn from_value(alloc: Global, value: Value, ledger: &mut Ledger) -> Result<Server, FacetFault> {
        let (host, (ports, ())) = parts_of::<OwnParts>(alloc, value, ledger)?;
        Ok(Server { host, ports })
    }
}

/// The table of a server and of what it is made of.
pub fn server_table(alloc: Global) -> Result<ShapeTable, OutOfMemory>
    ensures table { IfOk result (λ table. table ≡ server_table) }
    ensures numbered { IfOk result IsNumbered }
    ensures checked { IfOk result IsChecked }
    ensures found { IfOk result (HasShape ⟦<Server as Facet>⟧.is_own) }
{
    let (host, port, ports) = (ShapeId(0), ShapeId(1), ShapeId(2));
    let fields = [("host", host), ("ports", ports)];
    let mut shapes = Items::new(alloc);
    shapes.push(Shape::scalar(alloc, ScalarKind::String)?)?;
    shapes.push(Shape::scalar(alloc, ScalarKind::U16)?)?;
    shapes.push(Shape::list_of(alloc, "Vec<u16>", port)?)?;
    shapes.push(Shape::struct_of(alloc, "Server", &fields)?)?;
    Ok(ShapeTable::new(alloc, shapes))
}
