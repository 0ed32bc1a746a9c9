//! Fields of CSV.

ghost use Rattle.std.specs.Prelude.{◌≡◌, None, Some, Ok, Err, IfOk, IfSome};
ghost use Rattle.std.specs.List.{list_all};
ghost use Rattle.std.specs.Char.{is_ascii_digit};
ghost use Rattle.cq_text.specs.Field.{number_of_field, value_of_field};
ghost use Rattle.cq_text.specs.Views.{IfFault, OrNoMemory};

use crate::fault::{Kind, TextFault};
use crate::lexing::{negative, positive};
use crate::quoting::text_of;
use cq_atom::Value;
use std::alloc::Allocator;

fn are_digits(bytes: &[u8]) -> bool
    ensures { result ≡ list_all is_ascii_digit bytes.now }
{
    bytes.iter().all(|byte| byte.is_ascii_digit())
}

/// The number that all of the bytes are.
fn number_of_field(field: &[u8]) -> Option<i64>
    ensures { result ≡ number_of_field field.now }
{
    match field {
        [] => None,
        [b'-', digits @ ..] => {
            if are_digits(digits) {
                negative(digits)
            } else {
                None
            }
        }
        _ => {
            if are_digits(field) {
                positive(field)
            } else {
                None
            }
        }
    }
}

/// Reads a field of CSV: a field that is a good number is that number, and any other is the text of its bytes.
///
/// A good number has no zero before other digits, is not `-0`, and lies within 64 bits, as in a
/// script; a field that has a sign or digits and is none is a text, as `007`.
///
/// # Errors
///
/// `At` with the kind `Text` and the offset 0 where the bytes are no text, whatever their number: they
/// are not UTF-8, have a control character of ASCII, or are more than 255. `NoMemory` where an allocation
/// failed.
pub fn read_field<A: Allocator>(alloc: A, field: &[u8]) -> Result<Value<A>, TextFault>
    // What is read is the value that the field stands for.
    ensures found { IfOk result (λ value. value_of_field field.now ≡ Some value) }
    // A field that stands for a value is read as it.
    ensures only { IfSome (value_of_field field.now) (λ value. OrNoMemory result (Ok value)) }
    // A field is refused where it stands for none, always at its start.
    ensures fault { IfFault result (λ kind offset. (value_of_field field.now ≡ None) × (kind ≡ Kind.Text) × (offset ≡ 0)) }
    // A field that stands for none is refused so.
    ensures only_fault { value_of_field field.now ≡ None → OrNoMemory result (Err (TextFault.At Kind.Text 0)) }
{
    if let Some(number) = number_of_field(field) {
        return Ok(Value::num(number));
    }
    match text_of(alloc, field)? {
        Some(value) => Ok(value),
        None => Err(TextFault::At {
            kind: Kind::Text,
            offset: 0,
        }),
    }
}
