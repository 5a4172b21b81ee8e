// Whether a field has its form, and how many bytes it has.
ghost use Rattle.std.specs.Prelude.{◌≡◌, ◌≤◌, length};
ghost use Rattle.scene_line.specs.Line.{hash_text_ok, field_ok, bare_after, field_bytes};

use crate::form::Form;
use protocol::DIGITS_MAX_COUNT;
use text::{all_between, hex_ok, read_decimal};

fn hash_ok(field: &[u8]) -> bool
    ensures { result ≡ hash_text_ok field.now }
{
    field.len() == 64 && hex_ok(field)
}

// Whether a field has this form. bare: the line's TYPEHASH is empty.
pub(crate) fn field_ok(bare: bool, form: Form, field: &[u8]) -> bool
    ensures { result ≡ field_ok bare form field.now }
{
    match form {
        Form::Group => field.len() == 1 && all_between(field, b'0', b'1'),
        Form::Since | Form::Capacity => read_decimal(field).is_some(),
        Form::TypeHash => field.is_empty() || hash_ok(field),
        Form::Hash => hash_ok(field),
        Form::TypeScript if bare => field.is_empty(),
        Form::TypeScript => !field.is_empty() && hex_ok(field),
        Form::Hex => hex_ok(field),
        Form::Digits => field.len() <= DIGITS_MAX_COUNT && all_between(field, b'0', b'2'),
    }
}

// Whether the line's TYPEHASH is empty, after a field of this form.
pub(crate) fn bare_after(bare: bool, form: Form, field: &[u8]) -> bool
    ensures { result ≡ bare_after bare form field.now }
{
    match form {
        Form::TypeHash => field.is_empty(),
        _ => bare,
    }
}

// How many bytes a field has.
#[tactic(auto, unfolding(crate::specs::Line::field_bytes), using(text::proofs::HexLaws::hex_lengths))]
pub(crate) fn field_size(form: Form, field: &[u8]) -> usize
    ensures value { result ≡ length (field_bytes form field.now) }
    ensures upper_bound { result ≤ length field.now }
{
    if form.is_hex() { field.len() / 2 } else { 0 }
}
