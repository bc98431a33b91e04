// What constants of a text stand for.
ghost use Rattle.std.specs.Prelude.{◌≡◌};
ghost use Rattle.dcv_observer.specs.Left.{seen};
ghost use Rattle.dcv_lustre.specs.Placed.{is_constant, value_at, kind_at};
ghost use Rattle.dcv_lustre.specs.Form.{IsValue};
ghost use Rattle.dcv_lustre.specs.Seen.{seen_value, seen_kind};
ghost use Rattle.dcv_lustre.specs.Rules.{is_of_kind};

use dcv_lustre::{Kind, Value};
use dcv_observer::{Item, is_number, number_at};

/// Whether an item is a number, `true` or `false`, and no name.
pub(crate) fn is_constant(item: &Item<'_>) -> bool
    ensures { result ≡ is_constant item.now.bytes.now }
{
    is_number(item.bytes) || item.bytes == b"true".as_slice() || item.bytes == b"false".as_slice()
}

/// What a constant stands for.
pub(crate) fn value_at(item: &Item<'_>) -> Value
    requires { IsValue (value_at (seen item.now)) }
    ensures { seen_value result ≡ value_at (seen item.now) }
{
    if is_number(item.bytes) {
        Value::Number(number_at(item))
    } else {
        Value::Truth(item.bytes == b"true".as_slice())
    }
}

/// `bool` or `int`.
pub(crate) fn kind_at(item: &Item<'_>) -> Kind
    ensures { seen_kind result ≡ kind_at (seen item.now) }
{
    if item.bytes == b"bool".as_slice() {
        Kind::OfTruth
    } else {
        Kind::OfNumber
    }
}

/// Whether a value is of a kind.
pub(crate) fn is_of_kind(kind: Kind, value: Value) -> bool
    ensures { result ≡ is_of_kind (seen_kind kind) (seen_value value) }
{
    match value {
        Value::Truth(_) => kind == Kind::OfTruth,
        Value::Number(_) => kind == Kind::OfNumber,
    }
}
