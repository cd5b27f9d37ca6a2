//! Each call that allocates, but for those that make shapes, with ample memory.
use crate::texts::ledger;
use fr_shape::*;

#[test]
fn texts_items_copies_and_ledgers_find_memory(rt: HostRuntime) {
    let mut items = Items::new(rt.alloc());
    let pushed = items.push(7u32);
    assert!(rt; pushed.is_ok());
    let Ok(word) = Text::new(rt.alloc(), "word") else {
        panic!(rt; "no memory");
    };
    let value = Value::Text(word);
    let Ok(copy) = clone_template(rt.alloc(), &value) else {
        panic!(rt; "no memory");
    };
    assert!(rt; same(&value, &copy));
    let ledger = ledger(&rt, rt.alloc(), 2);
    assert!(rt; ledger.len() == 2);
}
